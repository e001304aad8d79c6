// The frame that the verdict on a lock is sent in.
ghost use Rattle.std.specs.Prelude.{◌≡◌, IfOk, false};
ghost use Rattle.serde_json.specs.Written.{has_float};
ghost use Rattle.live_check.specs.LockHeads.{cause_name, fails_head, holds_head, unread_head, verdict_head};

use json_tables::object;
use json_values::{Json, Text};
use pull_lock::{LockError, LockVerdict};
use std::alloc::{AllocError, Global};

fn holds_head(alloc: Global) -> Result<Json, AllocError>
    ensures head { IfOk result (λ head. head ≡ holds_head) }
    ensures plain { IfOk result (λ head. has_float head ≡ false) }
{
    let head = object!(alloc, { "frame": &"lock", "verdict": &"holds" })?;
    Ok(Json::new(head))
}

fn fails_head(alloc: Global, image: &Text) -> Result<Json, AllocError>
    ensures head { IfOk result (λ head. head ≡ fails_head image.now) }
    ensures plain { IfOk result (λ head. has_float head ≡ false) }
{
    let head = object!(alloc, { "frame": &"lock", "verdict": &"fails", "image": image })?;
    Ok(Json::new(head))
}

/// Returns the line of a verdict.
pub(crate) fn verdict_head(alloc: Global, verdict: &LockVerdict) -> Result<Json, AllocError>
    ensures head { IfOk result (λ head. head ≡ verdict_head verdict.now) }
    ensures plain { IfOk result (λ head. has_float head ≡ false) }
{
    match verdict {
        LockVerdict::Holds => holds_head(alloc),
        LockVerdict::Fails { image } => fails_head(alloc, image),
    }
}

// The name of an error's variant.
fn cause_name(error: LockError) -> &'static str
    ensures { result.now ≡ cause_name error }
{
    match error {
        LockError::NotText => "NotText",
        LockError::Order => "Order",
        LockError::Unreadable => "Unreadable",
        LockError::NotCanonical => "NotCanonical",
        LockError::WantOfMemory => "WantOfMemory",
    }
}

/// Returns the line that says why a text is not a lock file.
pub(crate) fn unread_head(alloc: Global, error: LockError) -> Result<Json, AllocError>
    ensures head { IfOk result (λ head. head ≡ unread_head (cause_name error)) }
    ensures plain { IfOk result (λ head. has_float head ≡ false) }
{
    let cause = cause_name(error);
    let head = object!(alloc, { "frame": &"lock", "verdict": &"refused", "cause": &cause })?;
    Ok(Json::new(head))
}
