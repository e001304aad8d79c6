// The parts of a blob, each asked for and received as a frame.
ghost use Rattle.std.specs.Prelude.{◌≡◌, IfOk, IfErr};
ghost use Rattle.live_host.specs.Wire.{wire};
ghost use Rattle.live_pull.specs.Status.{StatusCause};
ghost use Rattle.live_check.specs.Parts.{IsPart, PartCut, TakeCause, TakesFrame, part_of, piece_part, plain_part};

use crate::heads::more_head;
use byte_streams::{Sink, Source};
use json_values::Blob;
use live_host::{Streams, tell};
use live_link::{Frame, FrameError, MOST_BYTES, read_frame};
use live_pull::Status;
use serde_json::Value;
use std::alloc::Global;

/// What the host has of a blob.
#[derive(Drop)]
pub(crate) enum Part {
    /// The next bytes, at least one.
    Piece(Blob),
    /// No bytes are left.
    End,
    /// The blob is not there, or cannot be read.
    Failed,
}

fn piece_part(kind: &str, bytes: Blob) -> Option<Part>
    ensures { result ≡ piece_part kind.now bytes }
{
    if kind == "piece" {
        return Some(Part::Piece(bytes));
    }
    None
}

fn plain_part(kind: &str) -> Option<Part>
    ensures { result ≡ plain_part kind.now }
{
    match kind {
        "end" => Some(Part::End),
        "failed" => Some(Part::Failed),
        _ => None,
    }
}

// The part that a frame is, if it is one.
#[tactic(auto, unfolding(crate::specs::Parts::part_of))]
fn part_of(frame: Frame) -> Option<Part>
    ensures { result ≡ part_of frame }
{
    let Frame { head, bytes } = frame;
    let Some(Value::String(kind)) = head.value().get("frame") else {
        return None;
    };
    if !bytes.as_slice().is_empty() {
        return piece_part(kind.as_str(), bytes);
    }
    plain_part(kind.as_str())
}

// Receives a frame, which may have bytes.
fn hear_part<S: Source, K: Sink>(
    alloc: Global,
    streams: &mut Streams<S, K>,
) -> Result<Frame, Status>
    ensures heard { IfOk result (λ frame. TakesFrame frame
        (wire S.state K.state streams.old) (wire S.state K.state streams.new)) }
    ensures cause { IfErr result (StatusCause (λ e. TakeCause e
        (wire S.state K.state streams.old) (wire S.state K.state streams.new))) }
{
    match read_frame(alloc, &mut streams.source, MOST_BYTES) {
        Ok(frame) => Ok(frame),
        Err(FrameError::WantOfMemory) => Err(Status::WantOfMemory),
        Err(FrameError::SourceFault) => Err(Status::HostBroken),
        Err(FrameError::Ended) => Err(Status::HostBroken),
        Err(FrameError::TooLong) => Err(Status::HostBroken),
        Err(FrameError::NoFrame) => Err(Status::HostBroken),
    }
}

/// Asks for the next part of a blob, and receives it.
pub(crate) fn next_part<S: Source, K: Sink>(
    alloc: Global,
    streams: &mut Streams<S, K>,
) -> Result<Part, Status>
    ensures received { IfOk result (λ part. IsPart part
        (wire S.state K.state streams.old) (wire S.state K.state streams.new)) }
    ensures cause { IfErr result (StatusCause (λ e. PartCut e
        (wire S.state K.state streams.old) (wire S.state K.state streams.new))) }
{
    let head = more_head(alloc)?;
    tell(alloc, streams, &head, &[])?;
    let frame = hear_part(alloc, streams)?;
    let Some(part) = part_of(frame) else {
        return Err(Status::HostBroken);
    };
    Ok(part)
}
