// Whether the signature layer of an entry stands for its digest.
ghost use Rattle.std.specs.Prelude.{◌≡◌, ◌↔◌, IfOk, IfErr, IsTrue};
ghost use Rattle.cosign_layers.specs.Read.{Gives, HasOneOutcome, RejectedUnlessMemory};
ghost use Rattle.cosign_layers.specs.Satisfying.{policy_context};
ghost use Rattle.cosign_parts.specs.Trust.{trust};
ghost use Rattle.pull_lock.specs.Tests.{IsSigned, input_with};

use crate::lock::{LockEntry, LockedSignature};
use cosign_layers::{
    LayerRejection, PullPolicy, read_bundle_layer, read_payload_layer, satisfies_policy,
};
use cosign_parts::{LayerKind, LogKeys, Offline, SignatureLayer, SignatureVerifier};
use json_values::Blob;
use std::alloc::{AllocError, Global};

/// Returns the bytes of a signature layer.
pub(crate) fn content_of(alloc: Global, locked: &LockedSignature) -> Result<Blob, AllocError>
    ensures { IfOk result (λ content. content ≡ locked.now.content) }
{
    Blob::new(alloc, locked.content.as_str().as_bytes())
}

/// Returns what these bytes and the annotations of the signature layer say about the entry's digest.
pub(crate) fn read_locked<V: SignatureVerifier, O: Offline>(
    alloc: Global,
    log_keys: &LogKeys,
    verifier: &V,
    judge: &O,
    entry: &LockEntry,
    content: &Blob,
) -> Result<SignatureLayer, LayerRejection>
    ensures gives { IfOk result (Gives
        (trust (V.valid verifier.now) (O.vouched judge.now) log_keys.now) entry.now.digest
        (input_with content.now entry.now.signature)) }
    ensures rejects { IfErr result (RejectedUnlessMemory
        (trust (V.valid verifier.now) (O.vouched judge.now) log_keys.now) entry.now.digest
        (input_with content.now entry.now.signature)) }
    ensures law { HasOneOutcome
        (trust (V.valid verifier.now) (O.vouched judge.now) log_keys.now) entry.now.digest
        (input_with content.now entry.now.signature) }
{
    let (digest, locked) = (entry.digest.as_str(), &entry.signature);
    let (named, notes) = (locked.oci_digest.as_str(), &locked.annotations);
    match locked.kind {
        LayerKind::Payload => {
            read_payload_layer(
                alloc, content, named, notes, digest, log_keys, verifier, judge,
            )
        }
        LayerKind::Bundle => {
            read_bundle_layer(
                alloc, content, named, notes, digest, log_keys, verifier, judge,
            )
        }
    }
}

// Whether a layer with this content and the entry's annotations stands for its digest.
fn is_signed_by<V: SignatureVerifier, O: Offline>(
    alloc: Global,
    policy: &PullPolicy,
    log_keys: &LogKeys,
    verifier: &V,
    judge: &O,
    entry: &LockEntry,
    content: &Blob,
) -> Result<bool, AllocError>
    ensures { content.now ≡ entry.now.signature.content → IfOk result (λ b. IsTrue b ↔ IsSigned
        (policy_context policy.now (λ b. accepts (b.vtable, b.value))
        (trust (V.valid verifier.now) (O.vouched judge.now) log_keys.now)) entry.now) }
{
    if policy.constraints.as_slice().is_empty() {
        return Ok(false);
    }
    match read_locked(alloc, log_keys, verifier, judge, entry, content) {
        Ok(layer) => {
            let stands = satisfies_policy(alloc, verifier, policy, &layer)?;
            Ok(stands)
        }
        Err(rejection) => {
            if rejection.is_memory() {
                return Err(AllocError);
            }
            Ok(false)
        }
    }
}

/// Returns whether a layer with the bytes and annotations of the entry's signature layer stands for its digest: it is
/// about the digest, is signed under its certificate's key or one of the policy's, and is accepted by each constraint of
/// a policy that has at least one.
pub(crate) fn is_signed<V: SignatureVerifier, O: Offline>(
    alloc: Global,
    policy: &PullPolicy,
    log_keys: &LogKeys,
    verifier: &V,
    judge: &O,
    entry: &LockEntry,
) -> Result<bool, AllocError>
    ensures { IfOk result (λ b. IsTrue b ↔ IsSigned (policy_context policy.now (λ b. accepts (b.vtable, b.value))
        (trust (V.valid verifier.now) (O.vouched judge.now) log_keys.now)) entry.now) }
{
    let content = content_of(alloc, &entry.signature)?;
    is_signed_by(alloc, policy, log_keys, verifier, judge, entry, &content)
}
