// Checks a lock again, with no client and no request.
ghost use Rattle.std.specs.Prelude.{◌≡◌, ◌↔◌, IfOk, IsTrue, option_copied};
ghost use Rattle.cosign_layers.specs.Satisfying.{policy_context};
ghost use Rattle.cosign_parts.specs.Trust.{trust};
ghost use Rattle.pull_lock.specs.Locked.{Locked, Judges};

use crate::documents::has_manifest;
use crate::lock::{Lock, LockEntry};
use crate::named::is_named;
use crate::stands::is_signed;
use cosign_layers::PullPolicy;
use cosign_parts::{LogKeys, Offline, SignatureVerifier};
use json_values::{Copied, Text};
use oci_manifests::ResolverPromise;
use std::alloc::{AllocError, Global};

/// Whether the images of a lock are still ones that a policy accepts.
#[derive(Debug, Drop)]
pub enum LockVerdict {
    /// Every image is.
    Holds,
    /// The first image that is not, by the whole text of its reference.
    Fails { image: Text },
}

/// Returns whether the entry is locked.
pub(crate) fn is_locked<V: SignatureVerifier, O: Offline>(
    alloc: Global,
    entry: &LockEntry,
    promise: Option<&ResolverPromise>,
    policy: &PullPolicy,
    log_keys: &LogKeys,
    verifier: &V,
    judge: &O,
) -> Result<bool, AllocError>
    ensures { IfOk result (λ b. IsTrue b ↔ Locked (policy_context policy.now (λ b. accepts (b.vtable, b.value))
        (trust (V.valid verifier.now) (O.vouched judge.now) log_keys.now)) (option_copied promise.entry) entry.now) }
{
    let named = is_named(alloc, entry)?;
    if !named {
        return Ok(false);
    }
    let led = has_manifest(alloc, promise, entry)?;
    if !led {
        return Ok(false);
    }
    let signed = is_signed(alloc, policy, log_keys, verifier, judge, entry)?;
    Ok(signed)
}

/// Returns whether each image of a lock is still one that the policy accepts, without a client and without requests:
/// `Holds` if and only if every entry is, else `Fails` with the first image that is not. A lock of no entries holds.
///
/// The image of an entry is accepted if it is the whole text of a reference that reads back; its digest, and the
/// reference's if it has one, names the first document; that document is the manifest, or an index from which the promise
/// picks the manifest's digest, which names the manifest; the manifest has layers, each of an accepted media type; and
/// the signature layer stands for the digest under the policy. Returns an error if memory runs out.
pub fn check_lock<V: SignatureVerifier, O: Offline>(
    alloc: Global,
    lock: &Lock,
    promise: Option<&ResolverPromise>,
    policy: &PullPolicy,
    log_keys: &LogKeys,
    verifier: &V,
    judge: &O,
) -> Result<LockVerdict, AllocError>
    ensures { IfOk result (Judges (Locked (policy_context policy.now (λ b. accepts (b.vtable, b.value))
        (trust (V.valid verifier.now) (O.vouched judge.now) log_keys.now)) (option_copied promise.entry))
        lock.now.entries) }
{
    let entries = entries_of(lock);
    judge_entries(alloc, entries, promise, policy, log_keys, verifier, judge)
}

fn entries_of(lock: &Lock) -> &[LockEntry]
    ensures { result.now ≡ lock.now.entries }
{
    lock.entries.as_slice()
}

// The verdict on these entries.
fn judge_entries<V: SignatureVerifier, O: Offline>(
    alloc: Global,
    entries: &[LockEntry],
    promise: Option<&ResolverPromise>,
    policy: &PullPolicy,
    log_keys: &LogKeys,
    verifier: &V,
    judge: &O,
) -> Result<LockVerdict, AllocError>
    ensures { IfOk result (Judges (Locked (policy_context policy.now (λ b. accepts (b.vtable, b.value))
        (trust (V.valid verifier.now) (O.vouched judge.now) log_keys.now)) (option_copied promise.entry))
        entries.now) }
{
    for entry in entries {
        let locked = is_locked(alloc, entry, promise, policy, log_keys, verifier, judge)?;
        if !locked {
            let image = entry.image.copy(alloc)?;
            return Ok(LockVerdict::Fails { image });
        }
    }
    Ok(LockVerdict::Holds)
}
