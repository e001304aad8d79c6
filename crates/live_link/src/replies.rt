// Parses the frames that are received.
ghost use Rattle.std.specs.Prelude.{◌≡◌, IfOk, codes};
ghost use Rattle.serde_json.specs.View.{view};
ghost use Rattle.json_tables.specs.Outcomes.{ReadsTo};
ghost use Rattle.json_tables.specs.Member.{required};
ghost use Rattle.live_link.specs.Heads.{answer_head_of, status_of, headers_of};
ghost use Rattle.live_link.specs.Replies.{reply_of, piece_reply, plain_reply, answer_reply};

use crate::frame::Frame;
use json_tables::{ReadError, Reads, only, required};
use json_values::{Blob, List, Text};
use oci_transport::{AnswerHead, Headers, headers_from};
use serde_json::Value;
use std::alloc::{AllocError, Global};

/// The meaning of a frame.
#[derive(Drop)]
pub(crate) enum Reply {
    /// The head of a response.
    Answer(AnswerHead),
    /// A piece of a body, which is not empty.
    Piece(Blob),
    /// The end of the body.
    End,
    /// No response arrives, or no further piece.
    Failed,
    /// None of these.
    Other,
}

/// Parses this frame.
#[tactic(auto, unfolding(crate::specs::Replies::reply_of))]
pub(crate) fn read_reply(alloc: Global, frame: Frame) -> Result<Reply, AllocError>
    ensures { IfOk result (λ reply. reply ≡ reply_of frame) }
{
    let Frame { head, bytes } = frame;
    let Some(Value::String(kind)) = head.value().get("frame") else {
        return Ok(Reply::Other);
    };
    if !bytes.as_slice().is_empty() {
        return Ok(piece_reply(kind.as_str(), bytes));
    }
    let reply = plain_reply(alloc, kind.as_str(), head.value())?;
    Ok(reply)
}

fn piece_reply(kind: &str, bytes: Blob) -> Reply
    ensures { result ≡ piece_reply kind.now bytes }
{
    if kind == "piece" {
        return Reply::Piece(bytes);
    }
    Reply::Other
}

fn plain_reply(alloc: Global, kind: &str, head: &Value) -> Result<Reply, AllocError>
    ensures { IfOk result (λ reply. reply ≡ plain_reply kind.now (view head.now)) }
{
    match kind {
        "answer" => answer_reply(alloc, head),
        "end" => Ok(Reply::End),
        "failed" => Ok(Reply::Failed),
        _ => Ok(Reply::Other),
    }
}

fn answer_reply(alloc: Global, head: &Value) -> Result<Reply, AllocError>
    ensures { IfOk result (λ reply. reply ≡ answer_reply (answer_head_of (view head.now))) }
{
    match read_head(alloc, head) {
        Ok(head) => Ok(Reply::Answer(head)),
        Err(ReadError::Shape) => Ok(Reply::Other),
        Err(_) => Err(AllocError),
    }
}

// Parses the head of a response.
#[tactic(auto, unfolding(crate::specs::Heads::answer_head_of))]
fn read_head(alloc: Global, value: &Value) -> Result<AnswerHead, ReadError>
    ensures { ReadsTo result (answer_head_of (view value.now)) }
{
    only(value, &["frame", "status", "headers"])?;
    let status = read_status(alloc, value)?;
    let headers = read_headers(alloc, value)?;
    Ok(AnswerHead { status, headers })
}

// Parses the status, a number from 100 to 999.
fn read_status(alloc: Global, value: &Value) -> Result<u16, ReadError>
    ensures { ReadsTo result (required status_of (codes "status") (view value.now)) }
{
    let status: u16 = required(alloc, value, "status")?;
    if status < 100 || status > 999 {
        return Err(ReadError::Shape);
    }
    Ok(status)
}

// Parses the headers, a list of pairs of a name and a value.
fn read_headers(alloc: Global, value: &Value) -> Result<Headers, ReadError>
    ensures { ReadsTo result (required headers_of (codes "headers") (view value.now)) }
{
    let pairs: List<(Text, Blob)> = required(alloc, value, "headers")?;
    match headers_from(alloc, pairs.as_slice())? {
        Some(headers) => Ok(headers),
        None => Err(ReadError::Shape),
    }
}
