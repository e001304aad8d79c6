// Writes a frame to a sink.
ghost use Rattle.std.specs.Prelude.{◌≡◌, ◌≤◌, false, IfOk, OnOk, OnErr, IsErrOf};
ghost use Rattle.serde_json.specs.Written.{has_float};
ghost use Rattle.json_values.specs.Counts.{Increased, Unchanged};
ghost use Rattle.byte_streams.specs.SinkState.{Adds, AddsPrefix, AddsProperPrefix};
ghost use Rattle.live_link.specs.Writing.{frame_text};

use byte_streams::{Sink, SinkError, put_all};
use json_values::{Blob, Json};
use std::alloc::{AllocError, Global};

/// Writes the object as a line, then these bytes. If that fails, the sink holds a prefix of them.
pub fn write_frame<K: Sink>(
    alloc: Global,
    sink: &mut K,
    head: &Json,
    bytes: &[u8],
) -> Result<(), SinkError>
    requires plain { has_float head.now ≡ false }
    ensures count { (K.state sink.old).faults ≤ (K.state sink.new).faults }
    ensures whole { OnOk result (Adds (frame_text head.now bytes.now) (K.state sink.old) (K.state sink.new)) }
    ensures prefix { AddsPrefix (frame_text head.now bytes.now) (K.state sink.old) (K.state sink.new) }
    ensures fault { IsErrOf result SinkError.Failed
        → Increased (K.state sink.old).faults (K.state sink.new).faults }
    ensures no_fault { OnOk result (Unchanged (K.state sink.old).faults (K.state sink.new).faults) }
    ensures out_of_memory { IsErrOf result SinkError.WantOfMemory
        → Unchanged (K.state sink.old).faults (K.state sink.new).faults }
{
    let Ok(text) = frame_text(alloc, head, bytes) else {
        return Err(SinkError::WantOfMemory);
    };
    put_all(sink, text.as_slice())
}

fn frame_text(alloc: Global, head: &Json, bytes: &[u8]) -> Result<Blob, AllocError>
    requires plain { has_float head.now ≡ false }
    ensures { IfOk result (λ text. text ≡ frame_text head.now bytes.now) }
{
    let mut text = Blob::from_vec(head.value().to_vec(alloc)?);
    text.append(b"\n")?;
    text.append(bytes)?;
    Ok(text)
}
