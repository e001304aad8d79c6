// The head of the frame that is sent.
ghost use Rattle.std.specs.Prelude.{◌≡◌, false, IfOk};
ghost use Rattle.serde_json.specs.Written.{has_float};
ghost use Rattle.live_blobs.specs.CarryHeads.{carried_head, state_name};

use json_tables::object;
use json_values::Json;
use std::alloc::{AllocError, Global};

fn state_name(pushed: bool) -> &'static str
    ensures { result.now ≡ state_name pushed }
{
    if pushed {
        return "pushed";
    }
    "there"
}

/// Returns the line which says that the target has the blob of this digest, and whether it was pushed.
pub(crate) fn carried_head(alloc: Global, digest: &str, pushed: bool) -> Result<Json, AllocError>
    ensures head { IfOk result (λ head. head ≡ carried_head digest.now pushed) }
    ensures plain { IfOk result (λ head. has_float head ≡ false) }
{
    let state = state_name(pushed);
    let head = object!(alloc, { "frame": &"carried", "digest": &digest, "state": &state })?;
    Ok(Json::new(head))
}
