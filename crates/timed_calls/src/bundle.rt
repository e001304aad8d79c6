ghost use Rattle.std.specs.Prelude.{◌≡◌, IfOk, Result};
ghost use Rattle.json_values.specs.Refusals.{Matches};
ghost use Rattle.cosign_layers.specs.Rejection.{is_memory};
ghost use Rattle.cosign_parts.specs.declared.layer.SignatureLayer.{SignatureLayer};
ghost use Rattle.cosign_layers.specs.declared.rejection.LayerRejection.{LayerRejection};
ghost use Rattle.timed_calls.specs.Bundle.{bundle_signature, signature_in};

use cosign_layers::{LayerRejection, read_bundle_layer};
use cosign_parts::{LogKeys, NoCertificates, SignatureLayer, TableVerifier};
use json_values::{Annotations, Blob, List};
use oci_digests::sha256_digest;
use std::alloc::{AllocError, Global};

/// The image that the timed bundles are about: the text `hello world`.
const SOURCE: &str = "sha256:b94d27b9934d3e08a52e52d7da7dabfac484efe37a5380ee9088f7ace2efcde9";

/// Returns the signature of the bundle in the bytes; `None` if they are not a bundle about this image.
pub fn bundle_signature(alloc: Global, content: &Blob) -> Result<Option<Blob>, AllocError>
    ensures { IfOk result (λ found. found ≡ bundle_signature content.now) }
{
    let digest = sha256_digest(alloc, content.as_slice())?;
    let verifier = TableVerifier {
        rows: List::new(alloc),
    };
    let log_keys = LogKeys::new(alloc);
    let notes = Annotations::new(alloc);
    let read = read_bundle_layer(
        alloc,
        content,
        digest.as_str(),
        &notes,
        SOURCE,
        &log_keys,
        &verifier,
        &NoCertificates,
    );
    signature_in(alloc, &read)
}

// The signature of the layer that was read, or `None`, unless memory ran out.
fn signature_in(
    alloc: Global,
    read: &Result<SignatureLayer, LayerRejection>,
) -> Result<Option<Blob>, AllocError>
    ensures { (said : Result SignatureLayer LayerRejection) → Matches is_memory read.now said
        → IfOk result (λ found. found ≡ signature_in said) }
{
    match read {
        Ok(layer) => {
            let signature = Blob::new(alloc, layer.signature.as_str().as_bytes())?;
            Ok(Some(signature))
        }
        Err(rejection) => {
            if rejection.is_memory() {
                return Err(AllocError);
            }
            Ok(None)
        }
    }
}
