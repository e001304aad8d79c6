//! The bundles of a referrer as parts.
ghost use Rattle.std.specs.Prelude.{◌≡◌, IfOk};
ghost use Rattle.cosign_layers.specs.Checks.{input, layer_read};
ghost use Rattle.cosign_parts.specs.Trust.{trust_of};
ghost use Rattle.cosign_parts.specs.declared.layer.LayerKind.TheVariants as kinds;
ghost use Rattle.json_values.specs.Refusals.{Matches};
ghost use Rattle.cosign_layers.specs.Rejection.{is_memory};
ghost use Rattle.cosign_rows.specs.Part.{appended, bundle_part, bundles_part, read_bundle};

use cosign_layers::{LayerRejection, read_bundle_layer};
use cosign_parts::{Offline, SignatureLayer, SignatureVerifier, Trusted};
use cosign_rows::{Part, Skipped, SourceKind};
use json_values::Annotations;
use oci_digests::{Algorithm, digest_text};
use oci_manifests::ImageLayer;
use std::alloc::{AllocError, Global};

fn read_annotated<V: SignatureVerifier, O: Offline>(
    alloc: Global,
    trusted: &Trusted<'_, V, O>,
    digest: &str,
    text: &str,
    layer: &ImageLayer,
    annotations: &Annotations,
) -> Result<SignatureLayer, LayerRejection>
    ensures { Matches is_memory result (layer_read (trust_of V.valid O.vouched trusted.now) digest.now
        (input kinds.Bundle layer.now.content text.now annotations.now)) }
{
    read_bundle_layer(
        alloc,
        &layer.content,
        text,
        annotations,
        digest,
        trusted.log_keys,
        trusted.verifier,
        trusted.judge,
    )
}

// The signature layer of a bundle, by its digest text.
fn read_bundle<V: SignatureVerifier, O: Offline>(
    alloc: Global,
    trusted: &Trusted<'_, V, O>,
    digest: &str,
    text: &str,
    layer: &ImageLayer,
) -> Result<SignatureLayer, LayerRejection>
    ensures { Matches is_memory result
        (read_bundle (trust_of V.valid O.vouched trusted.now) digest.now text.now layer.now) }
{
    match &layer.annotations {
        Some(annotations) => read_annotated(alloc, trusted, digest, text, layer, annotations),
        None => {
            let annotations = Annotations::new(alloc);
            read_annotated(alloc, trusted, digest, text, layer, &annotations)
        }
    }
}

// Appends a bundle, or why it was not read.
fn add_bundle<V: SignatureVerifier, O: Offline>(
    alloc: Global,
    trusted: &Trusted<'_, V, O>,
    digest: &str,
    layer: &ImageLayer,
    mut part: Part,
) -> Result<Part, AllocError>
    ensures { IfOk result (λ more. more ≡ appended part
        (bundle_part (trust_of V.valid O.vouched trusted.now) digest.now layer.now)) }
{
    let text = digest_text(alloc, Algorithm::Sha256, layer.content.as_slice())?;
    match read_bundle(alloc, trusted, digest, text.as_str(), layer) {
        Ok(layer) => {
            part.collected.push(layer)?;
            Ok(part)
        }
        Err(cause) => {
            if cause.is_memory() {
                return Err(AllocError);
            }
            part.skipped
                .push(Skipped::Layer(SourceKind::Referrers, text, cause))?;
            Ok(part)
        }
    }
}

/// Appends the part of each bundle for the image of this digest, in order.
#[tactic(auto, using(crate::proofs::BundleParts::bundles_next, crate::proofs::BundleParts::bundles_end))]
pub(crate) fn add_bundles<V: SignatureVerifier, O: Offline>(
    alloc: Global,
    trusted: &Trusted<'_, V, O>,
    digest: &str,
    layers: &[ImageLayer],
    mut part: Part,
) -> Result<Part, AllocError>
    ensures { IfOk result (λ more. more ≡ appended part
        (bundles_part (trust_of V.valid O.vouched trusted.now) digest.now layers.now)) }
{
    for layer in layers {
        part = add_bundle(alloc, trusted, digest, layer, part)?;
    }
    Ok(part)
}
