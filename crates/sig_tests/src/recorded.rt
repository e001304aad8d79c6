// The recorded answers of the services in the tests, and the requests that were sent.
ghost use Rattle.std.specs.Prelude.{IfOk};
ghost use Rattle.oci_transport.specs.Pieces.{NoneEmpty};

use json_values::{Blob, List};
use oci_transport::{Exchange, Headers, Method, Recorded, Script};
use std::alloc::{AllocError, Global};

/// Whether a result is true.
pub(crate) fn holds(answer: Option<bool>) -> bool {
    match answer {
        Some(holds) => holds,
        None => false,
    }
}

// The body in one piece, unless it is empty.
fn pieces(alloc: Global, body: &[u8]) -> Result<List<Blob>, AllocError>
    ensures { IfOk result (λ pieces. NoneEmpty pieces) }
{
    let mut pieces = List::new(alloc);
    if !body.is_empty() {
        pieces.push(Blob::new(alloc, body)?)?;
    }
    Ok(pieces)
}

/// A script with one answer.
pub(crate) fn script(alloc: Global, status: u16, body: &[u8]) -> Result<Script, AllocError> {
    let pieces = pieces(alloc, body)?;
    let mut answers = List::new(alloc);
    answers.push(Recorded {
        fails: false,
        status,
        headers: Headers::new(alloc),
        pieces,
        fails_before: None,
    })?;
    Ok(Script::new(alloc, answers))
}

fn is_request(exchange: &Exchange, method: Method, url: &str, body: &str) -> bool {
    let request = &exchange.request;
    request.method == method
        && request.url.as_str() == url
        && request.body.as_slice() == body.as_bytes()
}

/// Whether one request was sent, with this method, this URL and this body.
pub(crate) fn asked(script: &Script, method: Method, url: &str, body: &str) -> bool {
    match script.conversation().as_slice() {
        [exchange] => is_request(exchange, method, url, body),
        _ => false,
    }
}

/// Whether the one request had this value of a header.
pub(crate) fn showed(script: &Script, name: &str, value: &str) -> bool {
    match script.conversation().as_slice() {
        [exchange] => exchange.request.headers.first(name) == Some(value.as_bytes()),
        _ => false,
    }
}
