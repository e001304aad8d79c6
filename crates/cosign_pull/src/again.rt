//! Layers that were found, read again under another trust.
ghost use Rattle.std.specs.Prelude.{◌≡◌, IfOk};
ghost use Rattle.cosign_layers.specs.Checks.{layer_read};
ghost use Rattle.cosign_layers.specs.Read.{input_of};
ghost use Rattle.cosign_layers.specs.Rejection.{is_memory};
ghost use Rattle.cosign_parts.specs.Trust.{trust_of};
ghost use Rattle.cosign_rows.specs.Part.{appended};
ghost use Rattle.cosign_rows.specs.Again.{again_part, again_parts, read_again, source_of};
ghost use Rattle.json_values.specs.Refusals.{Matches};

use cosign_layers::{LayerRejection, read_bundle_layer, read_payload_layer};
use cosign_parts::{LayerKind, Offline, SignatureLayer, SignatureVerifier, Trusted};
use cosign_rows::{Part, Skipped, SourceKind, TrustedLayers};
use json_values::{Copied, List};
use std::alloc::{AllocError, Global};

// Where layers of this kind are found.
fn source_of(kind: LayerKind) -> SourceKind
    ensures { result ≡ source_of kind }
{
    match kind {
        LayerKind::Payload => SourceKind::Tag,
        LayerKind::Bundle => SourceKind::Referrers,
    }
}

// Reads a layer from its bytes and annotations.
fn read_layer<V: SignatureVerifier, O: Offline>(
    alloc: Global,
    trusted: &Trusted<'_, V, O>,
    digest: &str,
    layer: &SignatureLayer,
) -> Result<SignatureLayer, LayerRejection>
    ensures { Matches is_memory result
        (layer_read (trust_of V.valid O.vouched trusted.now) digest.now (input_of layer.now)) }
{
    let (content, named, annotations) = (
        &layer.content,
        layer.oci_digest.as_str(),
        &layer.annotations,
    );
    let (log_keys, verifier, judge) = (trusted.log_keys, trusted.verifier, trusted.judge);
    match layer.kind {
        LayerKind::Payload => {
            read_payload_layer(
                alloc,
                content,
                named,
                annotations,
                digest,
                log_keys,
                verifier,
                judge,
            )
        }
        LayerKind::Bundle => {
            read_bundle_layer(
                alloc,
                content,
                named,
                annotations,
                digest,
                log_keys,
                verifier,
                judge,
            )
        }
    }
}

// Appends a layer, or why it is not read now.
fn add_layer<V: SignatureVerifier, O: Offline>(
    alloc: Global,
    trusted: &Trusted<'_, V, O>,
    digest: &str,
    layer: &SignatureLayer,
    mut part: Part,
) -> Result<Part, AllocError>
    ensures { IfOk result (λ more. more ≡ appended part
        (again_part (trust_of V.valid O.vouched trusted.now) digest.now layer.now)) }
{
    let name = layer.oci_digest.copy(alloc)?;
    match read_layer(alloc, trusted, digest, layer) {
        Ok(again) => {
            part.collected.push(again)?;
            Ok(part)
        }
        Err(cause) => {
            if cause.is_memory() {
                return Err(AllocError);
            }
            part.skipped
                .push(Skipped::Layer(source_of(layer.kind), name, cause))?;
            Ok(part)
        }
    }
}

// Appends the part of each layer, in order.
#[tactic(auto, using(crate::proofs::AgainParts::again_next, crate::proofs::AgainParts::again_end))]
fn add_layers<V: SignatureVerifier, O: Offline>(
    alloc: Global,
    trusted: &Trusted<'_, V, O>,
    digest: &str,
    layers: &[SignatureLayer],
    mut part: Part,
) -> Result<Part, AllocError>
    ensures { IfOk result (λ more. more ≡ appended part
        (again_parts (trust_of V.valid O.vouched trusted.now) digest.now layers.now)) }
{
    for layer in layers {
        part = add_layer(alloc, trusted, digest, layer, part)?;
    }
    Ok(part)
}

/// Returns the layers that were found as they are read under this trust, from their bytes and annotations; those that
/// are rejected now are skipped, after those that were skipped before. Fails only if memory runs out.
pub fn read_again<V: SignatureVerifier, O: Offline>(
    alloc: Global,
    trusted: &Trusted<'_, V, O>,
    found: TrustedLayers,
) -> Result<TrustedLayers, AllocError>
    ensures { IfOk result (λ again. again ≡ read_again (trust_of V.valid O.vouched trusted.now) found) }
{
    let TrustedLayers {
        digest,
        collected,
        skipped,
    } = found;
    let part = Part {
        collected: List::new(alloc),
        skipped,
    };
    let again = add_layers(alloc, trusted, digest.as_str(), collected.as_slice(), part)?;
    let Part { collected, skipped } = again;
    Ok(TrustedLayers {
        digest,
        collected,
        skipped,
    })
}
