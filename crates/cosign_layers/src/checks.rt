//! The checks of a layer in their order.
ghost use Rattle.std.specs.Prelude.{◌≡◌, IfOk};
ghost use Rattle.cosign_layers.specs.Checks.{came_from, certificate_checked, certificate_vouched};
ghost use Rattle.cosign_layers.specs.Checks.{content_checked, entry_checked, entry_found, entry_verified};
ghost use Rattle.cosign_layers.specs.Checks.{input_from, layer_read, layer_with, signature_checked};
ghost use Rattle.cosign_parts.specs.Layer.{is_logged};
ghost use Rattle.json_values.specs.Refusals.{Matches};
ghost use Rattle.cosign_layers.specs.Rejection.{is_memory};
ghost use Rattle.cosign_parts.specs.Trust.{trust_of};

use crate::rejection::{LayerPart, LayerRejection};
use cosign_parts::{
    CertificateSignature, Evidence, Found, LayerKind, LogEntryBundle, Offline, Shown,
    SignatureLayer, SignatureVerifier, Trusted, is_about, log_text, logs, show,
};
use json_tables::decode_base64;
use json_values::{Annotations, Blob, Copied, Text};
use oci_digests::names_digest;
use std::alloc::{AllocError, Global};

/// What is read: the kind of a layer, its content, the digest by which it was pulled, and its annotations.
#[derive(Drop)]
pub(crate) struct Pulled<'a> {
    pub kind: LayerKind,
    pub content: &'a Blob,
    pub oci_digest: &'a str,
    pub annotations: &'a Annotations,
}

/// Returns the layer that was pulled, if it is about the image of this digest and passes each check.
pub(crate) fn read_layer<V: SignatureVerifier, O: Offline>(
    alloc: Global,
    pulled: &Pulled<'_>,
    source_digest: &str,
    trusted: &Trusted<'_, V, O>,
) -> Result<SignatureLayer, LayerRejection>
    ensures { Matches is_memory result (layer_read (trust_of V.valid O.vouched trusted.now) source_digest.now
        (input_from pulled.now)) }
{
    let shown = check_content(alloc, pulled, source_digest)?;
    let spelled = check_signature(alloc, &shown.signature)?;
    let entry = check_entry(
        alloc,
        pulled,
        spelled.1.as_slice(),
        trusted,
        &shown.log_entry,
    )?;
    let certificate = check_certificate(alloc, trusted.judge, &entry, &shown.certificate)?;
    let layer = layer_with(alloc, pulled, shown, spelled, entry, certificate)?;
    Ok(layer)
}

/// The content, the digest and the annotations of a layer, copied.
#[derive(Drop)]
pub(crate) struct Came {
    pub content: Blob,
    pub oci_digest: Text,
    pub annotations: Annotations,
}

fn copied_from(alloc: Global, pulled: &Pulled<'_>) -> Result<Came, AllocError>
    ensures { IfOk result (λ came. came ≡ came_from pulled.now) }
{
    let oci_digest = Text::new(alloc, pulled.oci_digest)?;
    let annotations = pulled.annotations.copy(alloc)?;
    let content = pulled.content.copy(alloc)?;
    Ok(Came {
        content,
        oci_digest,
        annotations,
    })
}

// Returns the layer with these parts.
fn layer_with(
    alloc: Global,
    pulled: &Pulled<'_>,
    shown: Shown,
    spelled: (Text, Blob),
    bundle: Option<LogEntryBundle>,
    certificate_signature: Option<CertificateSignature>,
) -> Result<SignatureLayer, AllocError>
    ensures { IfOk result (λ layer. layer ≡
        layer_with (input_from pulled.now) shown spelled.0 bundle certificate_signature) }
{
    let came = copied_from(alloc, pulled)?;
    let Came {
        content,
        oci_digest,
        annotations,
    } = came;
    Ok(SignatureLayer {
        kind: pulled.kind,
        content,
        oci_digest,
        annotations,
        simple_signing: shown.signing,
        signature: spelled.0,
        certificate_signature,
        bundle,
    })
}

fn check_content(
    alloc: Global,
    pulled: &Pulled<'_>,
    source_digest: &str,
) -> Result<Shown, LayerRejection>
    ensures { Matches is_memory result (content_checked source_digest.now (input_from pulled.now)) }
{
    if !names_digest(pulled.oci_digest, pulled.content.as_slice()) {
        return Err(LayerRejection::DigestMismatch);
    }
    let content = pulled.content.as_slice();
    let Some(shown) = show(alloc, pulled.kind, content, pulled.annotations)? else {
        return Err(LayerRejection::Unreadable(LayerPart::Content));
    };
    if !is_about(&shown, source_digest) {
        return Err(LayerRejection::OtherDigest);
    }
    Ok(shown)
}

// Returns the signature and the bytes that it decodes to.
fn check_signature(alloc: Global, signature: &Option<Text>) -> Result<(Text, Blob), LayerRejection>
    ensures { Matches is_memory result (signature_checked signature.now) }
{
    let Some(signature) = signature else {
        return Err(LayerRejection::NoSignature);
    };
    let Some(bytes) = decode_base64(alloc, signature.as_str())? else {
        return Err(LayerRejection::Unreadable(LayerPart::Signature));
    };
    let signature = signature.copy(alloc)?;
    Ok((signature, bytes))
}

fn check_entry<V: SignatureVerifier, O: Offline>(
    alloc: Global,
    pulled: &Pulled<'_>,
    signature: &[u8],
    trusted: &Trusted<'_, V, O>,
    found: &Found<LogEntryBundle>,
) -> Result<Option<LogEntryBundle>, LayerRejection>
    ensures { Matches is_memory result (entry_checked (trust_of V.valid O.vouched trusted.now)
        pulled.now.kind pulled.now.content.now signature.now found.now) }
{
    if trusted.log_keys.entries().is_empty() {
        return Ok(None);
    }
    match found {
        Found::Absent => Ok(None),
        Found::Unreadable => Err(LayerRejection::Unreadable(LayerPart::LogEntry)),
        Found::Read(entry) => {
            let verified = verify_entry(alloc, pulled, signature, trusted, entry)?;
            Ok(verified)
        }
    }
}

// Checks that a log with a known key signed the entry, and that it names this signature of the content.
fn verify_entry<V: SignatureVerifier, O: Offline>(
    alloc: Global,
    pulled: &Pulled<'_>,
    signature: &[u8],
    trusted: &Trusted<'_, V, O>,
    entry: &LogEntryBundle,
) -> Result<Option<LogEntryBundle>, LayerRejection>
    ensures { Matches is_memory result (entry_verified (trust_of V.valid O.vouched trusted.now)
        pulled.now.kind pulled.now.content.now signature.now entry.now) }
{
    let Some(key) = trusted.log_keys.get(entry.log_id.as_str()) else {
        let log_id = entry.log_id.copy(alloc)?;
        return Err(LayerRejection::UnknownLogKey(log_id));
    };
    let text = log_text(alloc, entry)?;
    let timestamp = entry.signed_entry_timestamp.as_slice();
    let signed = trusted
        .verifier
        .verify(key, text.as_str().as_bytes(), timestamp)?;
    if !signed {
        return Err(LayerRejection::BadLogSignature);
    }
    let named = is_logged(alloc, pulled, signature, entry.body.as_str())?;
    if !named {
        let body = entry.body.copy(alloc)?;
        return Err(LayerRejection::OtherLogEntry(body));
    }
    let entry = entry.copy(alloc)?;
    Ok(Some(entry))
}

// Whether the body names the signature of a payload; that of a bundle's entry need not.
fn is_logged(
    alloc: Global,
    pulled: &Pulled<'_>,
    signature: &[u8],
    body: &str,
) -> Result<bool, AllocError>
    ensures { IfOk result (λ b.
        b ≡ is_logged pulled.now.kind pulled.now.content.now signature.now body.now) }
{
    match pulled.kind {
        LayerKind::Payload => {
            let named = logs(alloc, body, pulled.content.as_slice(), signature)?;
            Ok(named)
        }
        LayerKind::Bundle => Ok(true),
    }
}

fn check_certificate<O: Offline>(
    alloc: Global,
    judge: &O,
    entry: &Option<LogEntryBundle>,
    found: &Found<Blob>,
) -> Result<Option<CertificateSignature>, LayerRejection>
    ensures { Matches is_memory result (certificate_checked (O.vouched judge.now) entry.now found.now) }
{
    match found {
        Found::Absent => Ok(None),
        Found::Unreadable => Err(LayerRejection::Unreadable(LayerPart::Certificate)),
        Found::Read(certificate) => {
            let vouched = vouch(alloc, judge, entry, certificate)?;
            Ok(vouched)
        }
    }
}

// Checks that the certificate is vouched for at the time of the log entry.
fn vouch<O: Offline>(
    alloc: Global,
    judge: &O,
    entry: &Option<LogEntryBundle>,
    certificate: &Blob,
) -> Result<Option<CertificateSignature>, LayerRejection>
    ensures { Matches is_memory result (certificate_vouched (O.vouched judge.now) entry.now certificate.now) }
{
    let Some(entry) = entry else {
        return Err(LayerRejection::NoLogEntry);
    };
    let evidence = Evidence {
        certificate: certificate.copy(alloc)?,
        integrated_time: entry.integrated_time,
    };
    let Some(vouched) = judge.judge(alloc, &evidence)? else {
        return Err(LayerRejection::NotVouched);
    };
    let Evidence {
        certificate,
        integrated_time: _,
    } = evidence;
    Ok(Some(CertificateSignature {
        certificate,
        vouched,
    }))
}
