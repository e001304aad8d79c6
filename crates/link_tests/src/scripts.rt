// Recorded answers.
ghost use Rattle.std.specs.Prelude.{◌≡◌, IfOk};
ghost use Rattle.oci_transport.specs.Pieces.{NoneEmpty};

use crate::headers::holds;
use crate::urls::request;
use json_values::{Blob, List};
use oci_link::{BodyError, Headers, Method, Recorded, Script, Transport, read_body};
use std::alloc::{AllocError, Global};

// Returns `count` pieces of one byte.
fn pieces(alloc: Global, count: u64) -> Result<List<Blob>, AllocError>
    ensures { IfOk result (λ pieces. NoneEmpty pieces) }
{
    let mut pieces = List::new(alloc);
    for _place in 0..count {
        pieces.push(Blob::new(alloc, b"a")?)?;
    }
    Ok(pieces)
}

pub(crate) fn recorded(
    alloc: Global,
    count: u64,
    fails: bool,
    fails_before: Option<u64>,
) -> Result<Recorded, AllocError> {
    let pieces = pieces(alloc, count)?;
    Ok(Recorded {
        fails,
        status: 200,
        headers: Headers::new(alloc),
        pieces,
        fails_before,
    })
}

// A script with this one answer.
fn script(
    alloc: Global,
    count: u64,
    fails: bool,
    fails_before: Option<u64>,
) -> Result<Script, AllocError> {
    let mut answers = List::new(alloc);
    answers.push(recorded(alloc, count, fails, fails_before)?)?;
    Ok(Script::new(alloc, answers))
}

/// Whether a request is answered with this status.
pub(crate) fn is_sent<T: Transport>(
    alloc: Global,
    transport: &mut T,
    url: &str,
    want: u16,
) -> bool {
    let Ok(asked) = request(alloc, Method::Get, url) else {
        return false;
    };
    match transport.send(alloc, &asked) {
        Ok(head) => head.status == want,
        Err(_) => false,
    }
}

/// The length of the body in bytes.
pub(crate) fn length<T: Transport>(
    alloc: Global,
    transport: &mut T,
    limit: u64,
) -> Result<usize, BodyError> {
    match read_body(alloc, transport, limit) {
        Ok(body) => Ok(body.as_slice().len()),
        Err(refusal) => Err(refusal),
    }
}

fn is_read(
    alloc: Global,
    count: u64,
    fails_before: Option<u64>,
    want: Result<usize, BodyError>,
) -> Result<bool, AllocError> {
    let mut script = script(alloc, count, false, fails_before)?;
    let sent = is_sent(alloc, &mut script, "http://a/v2/", 200);
    Ok(sent && length(alloc, &mut script, 5) == want)
}

#[test]
fn a_body_is_read_up_to_its_limit(rt: HostRuntime) {
    assert!(rt; holds(is_read(rt.alloc(), 5, None, Ok(5))));
    assert!(rt; holds(is_read(rt.alloc(), 6, None, Err(BodyError::BodyTooLong))));
    assert!(rt; holds(is_read(rt.alloc(), 5, Some(2), Err(BodyError::TransportFault))));
    assert!(rt; holds(is_read(rt.alloc(), 0, None, Ok(0))));
}

fn send_fails(alloc: Global) -> Result<bool, AllocError> {
    let mut script = script(alloc, 1, true, None)?;
    let first = is_sent(alloc, &mut script, "http://a/v2/", 200);
    let exhausted = is_sent(alloc, &mut script, "http://a/v2/", 200);
    let told = script.conversation().as_slice().len();
    Ok(!first && !exhausted && told == 2 && script.faults() == 2)
}

#[test]
fn a_script_fails_where_it_was_recorded_and_past_its_end(rt: HostRuntime) {
    assert!(rt; holds(send_fails(rt.alloc())));
}
