// Recorded answers.
ghost use Rattle.std.specs.Prelude.{◌≡◌, ◌↔◌, [], None, IsTrue, codes};
ghost use Rattle.serde_json.specs.View.{view};
ghost use Rattle.json_tables.specs.Outcomes.{ReadsTo};
ghost use Rattle.json_tables.specs.Bytes.{bytes_of};
ghost use Rattle.json_tables.specs.Reading.{list_of};
ghost use Rattle.json_tables.specs.Member.{at_name, required};
ghost use Rattle.oci_transport.specs.Pieces.{NoneEmpty};
ghost use Rattle.recorded_case.specs.Answer.{status_of, failing, answering};
ghost use Rattle.recorded_case.specs.Members.{unless_absent, number_of};

use crate::entries::Entry;
use crate::headers::read_headers;
use json_tables::{ReadError, Reads, only, required};
use json_values::{Blob, List};
use oci_transport::{Headers, Recorded};
use serde_json::Value;
use std::alloc::Global;

impl Entry for Recorded {
    ghost use Rattle.recorded_case.specs.Answer.{answer_of};

    ghost entry = { answer_of };

    #[tactic(auto, unfolding(crate::specs::Answer::answer_of))]
    fn read_entry(alloc: Global, value: &Value) -> Result<Recorded, ReadError> {
        match value {
            Value::String(text) if text.as_str() == "fail" => Ok(failing(alloc)),
            Value::String(_) => Err(ReadError::Shape),
            _ => read_answer(alloc, value),
        }
    }
}

// A send that fails.
pub(crate) fn failing(alloc: Global) -> Recorded
    ensures { result ≡ failing }
{
    Recorded {
        fails: true,
        status: 0,
        headers: Headers::new(alloc),
        pieces: List::new(alloc),
        fails_before: None,
    }
}

#[tactic(auto, unfolding(crate::specs::Answer::answering))]
fn read_answer(alloc: Global, value: &Value) -> Result<Recorded, ReadError>
    ensures { ReadsTo result (answering (view value.now)) }
{
    only(value, &["status", "headers", "pieces", "fault"])?;
    let status = read_status(alloc, value)?;
    let headers = read_headers(alloc, value)?;
    let pieces = read_pieces(alloc, value)?;
    let fails_before = read_fault(alloc, value)?;
    if !are_full(pieces.as_slice()) {
        return Err(ReadError::Shape);
    }
    Ok(Recorded {
        fails: false,
        status,
        headers,
        pieces,
        fails_before,
    })
}

// The status, an integer from 100 to 999.
pub(crate) fn read_status(alloc: Global, value: &Value) -> Result<u16, ReadError>
    ensures { ReadsTo result (required status_of (codes "status") (view value.now)) }
{
    let status: u16 = required(alloc, value, "status")?;
    if status < 100 || status > 999 {
        return Err(ReadError::Shape);
    }
    Ok(status)
}

// The pieces of the body; none if the member is absent.
fn read_pieces(alloc: Global, value: &Value) -> Result<List<Blob>, ReadError>
    ensures { ReadsTo result (at_name (unless_absent [] (list_of bytes_of)) (codes "pieces") (view value.now)) }
{
    match value.get("pieces") {
        Some(pieces) => Reads::read_value(alloc, pieces),
        None => Ok(List::new(alloc)),
    }
}

// Before how many pieces a call fails; never if the member is absent.
pub(crate) fn read_fault(alloc: Global, value: &Value) -> Result<Option<u64>, ReadError>
    ensures { ReadsTo result (at_name (unless_absent None number_of) (codes "fault") (view value.now)) }
{
    match value.get("fault") {
        Some(fault) => Ok(Some(Reads::read_value(alloc, fault)?)),
        None => Ok(None),
    }
}

// Whether no piece is empty.
pub(crate) fn are_full(pieces: &[Blob]) -> bool
    ensures { IsTrue result ↔ NoneEmpty pieces.now }
{
    pieces.iter().all(|piece| !piece.as_slice().is_empty())
}
