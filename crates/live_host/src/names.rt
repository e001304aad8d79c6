// The names of frames.
ghost use Rattle.std.specs.Prelude.{◌≡◌, is_some};
ghost use Rattle.serde_json.specs.View.{view};
ghost use Rattle.live_host.specs.Names.{frame_named};

use json_tables::text_at;
use serde_json::Value;

/// Returns whether a frame has this name.
pub fn is_frame(value: &Value, name: &str) -> bool
    ensures { result ≡ is_some (frame_named name.now (view value.now)) }
{
    match text_at(value, &["frame"]) {
        None => false,
        Some(found) => found == name,
    }
}
