// The head of the frame that is sent of blobs.
ghost use Rattle.std.specs.Prelude.{◌≡◌, false, IfOk};
ghost use Rattle.serde_json.specs.Written.{has_float};
ghost use Rattle.live_blobs.specs.Heads.{stood_head};

use json_tables::object;
use json_values::{Json, List, Text};
use std::alloc::{AllocError, Global};

/// Returns the line with the digests of the blobs that were received and checked.
#[tactic(auto, using(crate::proofs::Plain::stood_plain))]
pub(crate) fn stood_head(alloc: Global, digests: &List<Text>) -> Result<Json, AllocError>
    ensures head { IfOk result (λ head. head ≡ stood_head digests.now) }
    ensures plain { IfOk result (λ head. has_float head ≡ false) }
{
    let head = object!(alloc, { "frame": &"stood", "digests": digests })?;
    Ok(Json::new(head))
}
