// A recorded registry that responds with locations and no bodies, and what it was asked.
use json_values::List;
use oci_transport::{Headers, Method, Recorded, Script};
use std::alloc::{AllocError, Global};

fn headers(alloc: Global, location: &str) -> Result<Headers, AllocError> {
    let mut headers = Headers::new(alloc);
    if !location.is_empty() {
        let Ok(()) = headers.add("location", location.as_bytes()) else {
            return Err(AllocError);
        };
    }
    Ok(headers)
}

/// Returns a script of these answers, each a status and a location, in order, without bodies. An answer with an empty
/// location has no such header.
pub fn located(alloc: Global, given: &[(u16, &str)]) -> Result<Script, AllocError> {
    let mut answers = List::new(alloc);
    for (status, location) in given {
        let headers = headers(alloc, *location)?;
        answers.push(Recorded {
            fails: false,
            status: *status,
            headers,
            pieces: List::new(alloc),
            fails_before: None,
        })?;
    }
    Ok(Script::new(alloc, answers))
}

/// A request: its method, URL and body, and the value of a header, which is empty if it is absent.
#[derive(Drop)]
pub struct Asked<'a> {
    pub method: Method,
    pub url: &'a str,
    pub body: &'a str,
    pub header: &'a str,
    pub value: &'a str,
}

/// Returns whether the request at an index is this one.
pub fn is_asked(script: &Script, place: usize, asked: &Asked) -> bool {
    let Some(exchange) = script.conversation().as_slice().get(place) else {
        return false;
    };
    let request = &exchange.request;
    let value = request.headers.first(asked.header).unwrap_or(b"");
    request.method == asked.method
        && request.url.as_str() == asked.url
        && request.body.as_slice() == asked.body.as_bytes()
        && value == asked.value.as_bytes()
}
