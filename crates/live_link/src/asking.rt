// One question to the host: a frame is sent, and a frame is received.
ghost use Rattle.std.specs.Prelude.{◌≡◌, false, is_some};
ghost use Rattle.serde_json.specs.Written.{has_float};
ghost use Rattle.live_link.specs.Writing.{frame_text};
ghost use Rattle.live_link.specs.Asking.{Asks, Sends, PieceReply, unsent, head_after, piece_after};
ghost use Rattle.live_link.specs.State.{breach_in};
ghost use Rattle.live_link.specs.Requests.{request_data, more_data};

use crate::reading::{MOST_BYTES, read_frame};
use crate::replies::{Reply, read_reply};
use crate::stage::{Breach, Stage};
use crate::writing::write_frame;
use byte_streams::{Sink, Source};
use json_values::{Blob, Json};
use oci_transport::{AnswerHead, Request};
use std::alloc::Global;

// Sends a frame with these bytes after its line, and reads a reply.
fn ask<S: Source, K: Sink>(
    alloc: Global,
    source: &mut S,
    sink: &mut K,
    head: &Json,
    bytes: &[u8],
) -> Result<Reply, Breach>
    requires plain { has_float head.now ≡ false }
    ensures { Asks (frame_text head.now bytes.now) result
        (S.state source.old) (S.state source.new) (K.state sink.old) (K.state sink.new) }
{
    write_frame(alloc, sink, head, bytes)?;
    let frame = read_frame(alloc, source, MOST_BYTES)?;
    let reply = read_reply(alloc, frame)?;
    Ok(reply)
}

/// Sends a request, unless the streams are out of step. Returns the stage after it, and the head of
/// its response, if one arrived.
#[tactic(auto, using(crate::proofs::Plain::plain_request))]
pub(crate) fn ask_request<S: Source, K: Sink>(
    alloc: Global,
    source: &mut S,
    sink: &mut K,
    stage: Stage,
    request: &Request,
    object: &Json,
) -> (Stage, Option<AnswerHead>)
    requires exact { object.now ≡ request_data request.now }
    ensures { Sends request.now stage result
        (S.state source.old) (S.state source.new) (K.state sink.old) (K.state sink.new) }
{
    if is_broken(stage) {
        return (unsent(stage), None);
    }
    let reply = ask(alloc, source, sink, object, request.body.as_slice());
    head_after(reply)
}

/// Requests the next piece. Returns the stage after it, and the piece, which is empty at the end, if one arrived.
pub(crate) fn ask_piece<S: Source, K: Sink>(
    alloc: Global,
    source: &mut S,
    sink: &mut K,
    object: &Json,
) -> (Stage, Option<Blob>)
    requires exact { object.now ≡ more_data }
    ensures { PieceReply result
        (S.state source.old) (S.state source.new) (K.state sink.old) (K.state sink.new) }
{
    let reply = ask(alloc, source, sink, object, &[]);
    piece_after(alloc, reply)
}

fn is_broken(stage: Stage) -> bool
    ensures { result ≡ is_some (breach_in stage) }
{
    match stage {
        Stage::Ended => false,
        Stage::Open => false,
        Stage::Cut => false,
        Stage::Broken(_) => true,
    }
}

// Returns the stage of a request that is not sent.
fn unsent(stage: Stage) -> Stage
    ensures { result ≡ unsent stage }
{
    match stage {
        Stage::Ended => Stage::Ended,
        Stage::Open => Stage::Ended,
        Stage::Cut => Stage::Ended,
        Stage::Broken(breach) => Stage::Broken(breach),
    }
}

fn head_after(reply: Result<Reply, Breach>) -> (Stage, Option<AnswerHead>)
    ensures { result ≡ head_after reply }
{
    match reply {
        Ok(Reply::Answer(head)) => (Stage::Open, Some(head)),
        Ok(Reply::Piece(_)) => (Stage::Broken(Breach::Frame), None),
        Ok(Reply::End) => (Stage::Broken(Breach::Frame), None),
        Ok(Reply::Failed) => (Stage::Ended, None),
        Ok(Reply::Other) => (Stage::Broken(Breach::Frame), None),
        Err(breach) => (Stage::Broken(breach), None),
    }
}

fn piece_after(alloc: Global, reply: Result<Reply, Breach>) -> (Stage, Option<Blob>)
    ensures { result ≡ piece_after reply }
{
    match reply {
        Ok(Reply::Answer(_)) => (Stage::Broken(Breach::Frame), None),
        Ok(Reply::Piece(piece)) => (Stage::Open, Some(piece)),
        Ok(Reply::End) => (Stage::Ended, Some(Blob::empty(alloc))),
        Ok(Reply::Failed) => (Stage::Cut, None),
        Ok(Reply::Other) => (Stage::Broken(Breach::Frame), None),
        Err(breach) => (Stage::Broken(breach), None),
    }
}
