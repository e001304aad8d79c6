// Signature layers, as a caller reads them from their bytes.
use cosign_layers::read_payload_layer;
use cosign_parts::{LogKeys, NoCertificates, SignatureLayer, TableVerifier};
use json_values::{Annotations, Blob, List, Text};
use recorded_answers::MANIFEST_DIGEST;
use std::alloc::{AllocError, Global};

/// The payload of the image of `recorded_answers`, as it is written for a push: its members in order, and no space.
pub const PAYLOAD: &str =
    "{\"critical\":{\"identity\":{\"docker-reference\":\"localhost:5000/app\"},\
        \"image\":{\"docker-manifest-digest\":\"sha256:517b86da29754bfa57e312c35d4cf22caa38dbce39ecd24684830c1f9\
        777a635\"},\"type\":\"cosign container image signature\"},\"optional\":null}";

const PAYLOAD_DIGEST: &str =
    "sha256:bec3f566a399bddd277a387434dcaf295311323236c6b1e2b5dd93ccd6795098";

const SIGNATURE: &str = "c2lnMQ==";

fn notes(alloc: Global) -> Result<Annotations, AllocError> {
    let name = Text::new(alloc, "dev.cosignproject.cosign/signature")?;
    let signature = Text::new(alloc, SIGNATURE)?;
    let mut notes = Annotations::new(alloc);
    notes.insert(name, signature)?;
    Ok(notes)
}

/// Returns the layer of these bytes, with the signature, if it is one of the image.
pub fn read(alloc: Global, content: &[u8]) -> Option<SignatureLayer> {
    let content = Blob::new(alloc, content).ok()?;
    let notes = notes(alloc).ok()?;
    let log_keys = LogKeys::new(alloc);
    let verifier = TableVerifier {
        rows: List::new(alloc),
    };
    let layer = read_payload_layer(
        alloc,
        &content,
        PAYLOAD_DIGEST,
        &notes,
        MANIFEST_DIGEST,
        &log_keys,
        &verifier,
        &NoCertificates,
    );
    layer.ok()
}

// The layer without what its payload says.
fn without_payload(alloc: Global) -> Option<SignatureLayer> {
    let mut layer = read(alloc, PAYLOAD.as_bytes())?;
    layer.simple_signing = None;
    Some(layer)
}

fn both(
    alloc: Global,
    first: SignatureLayer,
    second: SignatureLayer,
) -> Result<List<SignatureLayer>, AllocError> {
    let mut layers = List::new(alloc);
    layers.push(first)?;
    layers.push(second)?;
    Ok(layers)
}

/// Returns two layers, of which the second one alone has a payload.
pub fn layers(alloc: Global) -> Option<List<SignatureLayer>> {
    let first = without_payload(alloc)?;
    let second = read(alloc, PAYLOAD.as_bytes())?;
    both(alloc, first, second).ok()
}

/// Returns whether the layer is that of the payload and the signature, without a log entry and without a certificate.
pub fn is_read(layer: &SignatureLayer) -> bool {
    let Some(signing) = &layer.simple_signing else {
        return false;
    };
    signing.docker_reference.as_str() == "localhost:5000/app"
        && signing.docker_manifest_digest.as_str() == MANIFEST_DIGEST
        && layer.signature.as_str() == SIGNATURE
        && layer.content.as_slice() == PAYLOAD.as_bytes()
        && layer.bundle.is_none()
        && layer.certificate_signature.is_none()
}
