//! Signature layers read from their bytes and annotations.
ghost use Rattle.std.specs.Prelude.{IfOk, IfErr};
ghost use Rattle.cosign_layers.specs.Checks.{input, layer_read};
ghost use Rattle.cosign_layers.specs.Read.{Gives, HasOneOutcome, RejectedUnlessMemory};
ghost use Rattle.json_values.specs.Refusals.{Matches};
ghost use Rattle.cosign_layers.specs.Rejection.{is_memory};
ghost use Rattle.cosign_parts.specs.Trust.{trust};
ghost use Rattle.cosign_parts.specs.declared.layer.LayerKind.TheVariants as kinds;

use crate::checks::{Pulled, read_layer};
use crate::rejection::LayerRejection;
use cosign_parts::{LayerKind, LogKeys, Offline, SignatureLayer, SignatureVerifier, Trusted};
use json_values::{Annotations, Blob};
use std::alloc::Global;

/// Reads a payload layer that is about the image of `source_digest`, or returns the first check that fails. Each input
/// has exactly one of these two outcomes; the call returns it, or is out of memory.
///
/// The checks are done in this order.
///
/// 1. `DigestMismatch`: `oci_digest` does not name the content.
/// 2. `Unreadable(Content)`: the content is not a JSON object without floats whose `critical` has the strings
/// `identity.docker-reference` and `image.docker-manifest-digest`, and a `type` that is `cosign container image
/// signature`.
/// 3. `OtherDigest`: the payload's digest is not `source_digest`.
/// 4. `NoSignature`: there is no annotation `dev.cosignproject.cosign/signature`. `Unreadable(Signature)`: it is not
///    padded standard base64 (RFC 4648, 4).
/// 5. If there are log keys and an annotation `dev.sigstore.cosign/bundle`: `Unreadable(LogEntry)`: it is not an object
/// with `SignedEntryTimestamp` in base64 and a `Payload` with the strings `body` and `logID` and the integers
/// `integratedTime` and `logIndex` from 0 to 9007199254740991. `UnknownLogKey`: no key has that log id.
/// `BadLogSignature`: the timestamp is not valid over the canonical text (RFC 8785) of these four members.
/// `OtherLogEntry`: the body is not a `hashedrekord` of the content's SHA-256 and of this signature.
/// 6. If there is an annotation `dev.sigstore.cosign/certificate`: `NoLogEntry`: no log entry states when the
/// certificate was used. `NotVouched`: the judge does not vouch for it at that time.
pub fn read_payload_layer<V: SignatureVerifier, O: Offline>(
    alloc: Global,
    content: &Blob,
    oci_digest: &str,
    annotations: &Annotations,
    source_digest: &str,
    log_keys: &LogKeys,
    verifier: &V,
    judge: &O,
) -> Result<SignatureLayer, LayerRejection>
    ensures exact { Matches is_memory result (layer_read
        (trust (V.valid verifier.now) (O.vouched judge.now) log_keys.now) source_digest.now
        (input kinds.Payload content.now oci_digest.now annotations.now)) }
    ensures gives { IfOk result (Gives
        (trust (V.valid verifier.now) (O.vouched judge.now) log_keys.now) source_digest.now
        (input kinds.Payload content.now oci_digest.now annotations.now)) }
    ensures rejects { IfErr result (RejectedUnlessMemory
        (trust (V.valid verifier.now) (O.vouched judge.now) log_keys.now) source_digest.now
        (input kinds.Payload content.now oci_digest.now annotations.now)) }
    ensures law { HasOneOutcome
        (trust (V.valid verifier.now) (O.vouched judge.now) log_keys.now) source_digest.now
        (input kinds.Payload content.now oci_digest.now annotations.now) }
{
    let pulled = Pulled {
        kind: LayerKind::Payload,
        content,
        oci_digest,
        annotations,
    };
    let trusted = Trusted {
        log_keys,
        verifier,
        judge,
    };
    read_layer(alloc, &pulled, source_digest, &trusted)
}

/// Reads a bundle layer (sigstore bundle v0.3, in this project's profile) as `read_payload_layer` reads a payload
/// layer, with these differences in the checks:
///
/// 2. `Unreadable(Content)`: the content is not a JSON object without floats whose `mediaType` is that of the bundle,
/// whose `dsseEnvelope` has a `payload` in base64, a string `payloadType` and a list `signatures` of one object, and
/// whose `verificationMaterial` is an object, in which `certificate` is an object and `tlogEntries` a list if they are
/// present and not null; or the payload is not a JSON object without floats whose `subject` is a list of objects with a
/// `digest` map of strings.
/// 3. `OtherDigest`: no subject has the digits of `source_digest` for its algorithm.
/// 4. The signature is the string `sig` of the one object of `signatures`.
/// 5. The log entry is the first of `tlogEntries`, if it has `inclusionPromise.signedEntryTimestamp`; its log id is the
/// lower-case hexadecimal of the bytes of `logId.keyId`, its body is `canonicalizedBody`, and its time and index may be
/// strings of 1 to 16 decimal digits. It need not name the signature.
/// 6. The certificate is what `rawBytes` decodes to. `Unreadable(Certificate)` is checked first: it is not a string of
/// padded standard base64.
pub fn read_bundle_layer<V: SignatureVerifier, O: Offline>(
    alloc: Global,
    content: &Blob,
    oci_digest: &str,
    annotations: &Annotations,
    source_digest: &str,
    log_keys: &LogKeys,
    verifier: &V,
    judge: &O,
) -> Result<SignatureLayer, LayerRejection>
    ensures exact { Matches is_memory result (layer_read
        (trust (V.valid verifier.now) (O.vouched judge.now) log_keys.now) source_digest.now
        (input kinds.Bundle content.now oci_digest.now annotations.now)) }
    ensures gives { IfOk result (Gives
        (trust (V.valid verifier.now) (O.vouched judge.now) log_keys.now) source_digest.now
        (input kinds.Bundle content.now oci_digest.now annotations.now)) }
    ensures rejects { IfErr result (RejectedUnlessMemory
        (trust (V.valid verifier.now) (O.vouched judge.now) log_keys.now) source_digest.now
        (input kinds.Bundle content.now oci_digest.now annotations.now)) }
    ensures law { HasOneOutcome
        (trust (V.valid verifier.now) (O.vouched judge.now) log_keys.now) source_digest.now
        (input kinds.Bundle content.now oci_digest.now annotations.now) }
{
    let pulled = Pulled {
        kind: LayerKind::Bundle,
        content,
        oci_digest,
        annotations,
    };
    let trusted = Trusted {
        log_keys,
        verifier,
        judge,
    };
    read_layer(alloc, &pulled, source_digest, &trusted)
}
