// The heads of the frames that are sent.
ghost use Rattle.std.specs.Prelude.{◌≡◌, false, IfOk};
ghost use Rattle.serde_json.specs.Written.{has_float};
ghost use Rattle.live_copy.specs.Heads.{carry_head, copied_head, side_head};

use json_tables::object;
use json_values::{Json, List, Text};
use std::alloc::{AllocError, Global};

/// Returns the line after which requests go to the target.
pub(crate) fn side_head(alloc: Global) -> Result<Json, AllocError>
    ensures head { IfOk result (λ head. head ≡ side_head) }
    ensures plain { IfOk result (λ head. has_float head ≡ false) }
{
    let head = object!(alloc, { "frame": &"side", "side": &"target" })?;
    Ok(Json::new(head))
}

/// Returns the line that asks the host to carry the blobs of the documents to the target.
pub(crate) fn carry_head(alloc: Global) -> Result<Json, AllocError>
    ensures head { IfOk result (λ head. head ≡ carry_head) }
    ensures plain { IfOk result (λ head. has_float head ≡ false) }
{
    let head = object!(alloc, { "frame": &"carry" })?;
    Ok(Json::new(head))
}

fn copied_value(alloc: Global, url: &Text, pushed: &List<Text>) -> Result<Json, AllocError>
    ensures { IfOk result (λ head. head ≡ copied_head url.now pushed.now) }
{
    let head = object!(alloc, { "frame": &"copied", "url": url, "pushed": pushed })?;
    Ok(Json::new(head))
}

/// Returns the line with the URL of the document, and the digests of what was pushed.
pub(crate) fn copied_head(
    alloc: Global,
    url: &Text,
    pushed: &List<Text>,
) -> Result<Json, AllocError>
    ensures head { IfOk result (λ head. head ≡ copied_head url.now pushed.now) }
    ensures plain { IfOk result (λ head. has_float head ≡ false) }
{
    let head = copied_value(alloc, url, pushed)?;
    Ok(head)
}
