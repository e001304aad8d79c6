// A case's registry read from a JSON value that is given away: the strings of recorded bodies are moved, not copied.
ghost use Rattle.std.specs.Prelude.{◌≡◌, [], None, codes};
ghost use Rattle.serde_json.specs.View.{view, items_view};
ghost use Rattle.json_tables.specs.Outcomes.{ReadsTo};
ghost use Rattle.json_tables.specs.Bytes.{bytes_of};
ghost use Rattle.json_tables.specs.Reading.{items_by, list_of};
ghost use Rattle.json_tables.specs.Member.{at_name};
ghost use Rattle.recorded_case.specs.Answer.{answer_of, answering};
ghost use Rattle.recorded_case.specs.Members.{unless_absent};
ghost use Rattle.recorded_case.specs.Registry.{registry_of};

use crate::answer::{are_full, failing, read_fault, read_status};
use crate::headers::read_headers;
use crate::registry::{Registry, read_registry};
use json_tables::{ReadError, Reads, only};
use json_values::{Blob, List};
use oci_transport::Recorded;
use serde_json::Value;
use std::alloc::Global;

// The bytes that a value means. Those of a string are its own.
fn move_bytes(alloc: Global, value: Value) -> Result<Blob, ReadError>
    ensures { ReadsTo result (bytes_of (view value)) }
{
    match value {
        Value::String(text) => Ok(Blob::from_vec(text.into_bytes())),
        other => Reads::read_value(alloc, &other),
    }
}

fn move_pieces(alloc: Global, items: Vec<Value>) -> Result<List<Blob>, ReadError>
    ensures { ReadsTo result (items_by bytes_of (items_view items.items)) }
{
    let mut pieces = List::new(alloc);
    for item in items {
        pieces.push(move_bytes(alloc, item)?)?;
    }
    Ok(pieces)
}

// A list of bytes.
fn move_list(alloc: Global, value: Value) -> Result<List<Blob>, ReadError>
    ensures { ReadsTo result (list_of bytes_of (view value)) }
{
    match value {
        Value::Array(items) => move_pieces(alloc, items),
        _ => Err(ReadError::Shape),
    }
}

// The pieces of the body, which are taken from the answer; none if the member is absent.
fn take_pieces(alloc: Global, answer: &mut Value) -> Result<List<Blob>, ReadError>
    ensures { ReadsTo result (at_name (unless_absent [] (list_of bytes_of)) (codes "pieces") (view answer.old)) }
{
    match answer.get_mut("pieces") {
        Some(pieces) => move_list(alloc, pieces.take()),
        None => Ok(List::new(alloc)),
    }
}

// An answer, whose pieces are taken from it last.
#[tactic(auto, unfolding(crate::specs::Answer::answering))]
fn take_answer(alloc: Global, answer: &mut Value) -> Result<Recorded, ReadError>
    ensures { ReadsTo result (answering (view answer.old)) }
{
    only(answer, &["status", "headers", "pieces", "fault"])?;
    let status = read_status(alloc, answer)?;
    let headers = read_headers(alloc, answer)?;
    let fails_before = read_fault(alloc, answer)?;
    let pieces = take_pieces(alloc, answer)?;
    if !are_full(pieces.as_slice()) {
        return Err(ReadError::Shape);
    }
    Ok(Recorded {
        fails: false,
        status,
        headers,
        pieces,
        fails_before,
    })
}

// A recorded answer, or a send that fails.
#[tactic(auto, unfolding(crate::specs::Answer::answer_of))]
fn take_recorded(alloc: Global, value: &mut Value) -> Result<Recorded, ReadError>
    ensures { ReadsTo result (answer_of (view value.old)) }
{
    match value {
        Value::String(text) if text.as_str() == "fail" => Ok(failing(alloc)),
        Value::String(_) => Err(ReadError::Shape),
        _ => take_answer(alloc, value),
    }
}

fn take_answers(alloc: Global, items: Vec<Value>) -> Result<List<Recorded>, ReadError>
    ensures { ReadsTo result (items_by answer_of (items_view items.items)) }
{
    let mut answers = List::new(alloc);
    for item in items {
        let mut item = item;
        answers.push(take_recorded(alloc, &mut item)?)?;
    }
    Ok(answers)
}

// A list of recorded answers.
fn move_answers(alloc: Global, value: Value) -> Result<List<Recorded>, ReadError>
    ensures { ReadsTo result (list_of answer_of (view value)) }
{
    match value {
        Value::Array(items) => take_answers(alloc, items),
        _ => Err(ReadError::Shape),
    }
}

/// Reads the registry of a case as `read_registry` does, and leaves the value unusable: the bodies of recorded answers
/// are moved out of it. Fails as `read_registry` does.
#[tactic(auto, unfolding(crate::specs::Registry::registry_of))]
pub fn take_registry(alloc: Global, value: &mut Value) -> Result<Registry, ReadError>
    ensures reads { ReadsTo result (registry_of (view value.old)) }
{
    if value.get("shelf").is_some() {
        return read_registry(alloc, value);
    }
    match value.get_mut("answers") {
        Some(answers) => Ok(Registry::Answers(move_answers(alloc, answers.take())?)),
        None => Err(ReadError::Shape),
    }
}
