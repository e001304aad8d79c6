// The heads of the frames that are sent.
ghost use Rattle.std.specs.Prelude.{◌≡◌, false, IfOk};
ghost use Rattle.serde_json.specs.Written.{has_float};
ghost use Rattle.live_check.specs.Heads.{blob_head, documents_head, holds_head, more_head, verdict_head, want_head};

use json_tables::object;
use json_values::{Json, Text};
use std::alloc::{AllocError, Global};

/// Returns the line that asks for the blob of a digest.
pub(crate) fn want_head(alloc: Global, digest: &Text) -> Result<Json, AllocError>
    ensures head { IfOk result (λ head. head ≡ want_head digest.now) }
    ensures plain { IfOk result (λ head. has_float head ≡ false) }
{
    let head = object!(alloc, { "frame": &"want", "digest": digest })?;
    Ok(Json::new(head))
}

/// Returns the line that asks for the next piece of it.
pub(crate) fn more_head(alloc: Global) -> Result<Json, AllocError>
    ensures head { IfOk result (λ head. head ≡ more_head) }
    ensures plain { IfOk result (λ head. has_float head ≡ false) }
{
    let head = object!(alloc, { "frame": &"more" })?;
    Ok(Json::new(head))
}

/// Returns the line that says that the documents do not hold.
pub(crate) fn documents_head(alloc: Global) -> Result<Json, AllocError>
    ensures head { IfOk result (λ head. head ≡ documents_head) }
    ensures plain { IfOk result (λ head. has_float head ≡ false) }
{
    let head = object!(alloc, { "frame": &"checked", "verdict": &"documents" })?;
    Ok(Json::new(head))
}

fn holds_head(alloc: Global) -> Result<Json, AllocError>
    ensures head { IfOk result (λ head. head ≡ holds_head) }
    ensures plain { IfOk result (λ head. has_float head ≡ false) }
{
    let head = object!(alloc, { "frame": &"checked", "verdict": &"holds" })?;
    Ok(Json::new(head))
}

fn blob_head(alloc: Global, digest: &Text) -> Result<Json, AllocError>
    ensures head { IfOk result (λ head. head ≡ blob_head digest.now) }
    ensures plain { IfOk result (λ head. has_float head ≡ false) }
{
    let head = object!(alloc, { "frame": &"checked", "verdict": &"blob", "digest": digest })?;
    Ok(Json::new(head))
}

/// Returns the line of the verdict on blobs: the first that fell, if one did.
pub(crate) fn verdict_head(alloc: Global, fell: &Option<Text>) -> Result<Json, AllocError>
    ensures head { IfOk result (λ head. head ≡ verdict_head fell.now) }
    ensures plain { IfOk result (λ head. has_float head ≡ false) }
{
    match fell {
        Some(digest) => blob_head(alloc, digest),
        None => holds_head(alloc),
    }
}
