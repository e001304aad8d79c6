// The frames that are sent beside requests.
ghost use Rattle.std.specs.Prelude.{◌≡◌, IfOk, false};
ghost use Rattle.serde_json.specs.Data.{number as of_number, unsigned};
ghost use Rattle.serde_json.specs.Written.{has_float};
ghost use Rattle.live_pushes.specs.Frames.{begin_head, lines_head};

use json_tables::object;
use json_values::Json;
use serde_json::Value;
use std::alloc::{AllocError, Global};

fn count(number: usize) -> Json
    ensures { result ≡ of_number (unsigned number) }
{
    Json::new(Value::from(number as u64))
}

/// Returns the head of the first frame, `begin`, with the version of programs whose requests have bodies.
pub fn begin_head(alloc: Global) -> Result<Json, AllocError>
    ensures head { IfOk result (λ head. head ≡ begin_head) }
    ensures plain { IfOk result (λ head. has_float head ≡ false) }
{
    let head = object!(alloc, { "frame": &"begin", "version": &2u8 })?;
    Ok(Json::new(head))
}

/// Returns the head of the last frame, `lines`, after whose line as many bytes follow.
pub fn lines_head(alloc: Global, size: usize) -> Result<Json, AllocError>
    ensures head { IfOk result (λ head. head ≡ lines_head size) }
    ensures plain { IfOk result (λ head. has_float head ≡ false) }
{
    let head = object!(alloc, { "frame": &"lines", "bytes": &count(size) })?;
    Ok(Json::new(head))
}
