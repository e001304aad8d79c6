// A recorded registry, and what it is asked with.
ghost use Rattle.std.specs.Prelude.{IfOk};
ghost use Rattle.oci_transport.specs.Pieces.{NoneEmpty};

use json_values::{Blob, List, Text};
use oci_engine::{Client, ClientConfig};
use oci_names::Reference;
use oci_transport::{Headers, Method, Recorded, Script};
use std::alloc::{AllocError, Global};

// The body in one piece, if it is not empty.
fn pieces(alloc: Global, body: &[u8]) -> Result<List<Blob>, AllocError>
    ensures { IfOk result (λ pieces. NoneEmpty pieces) }
{
    let mut pieces = List::new(alloc);
    if !body.is_empty() {
        pieces.push(Blob::new(alloc, body)?)?;
    }
    Ok(pieces)
}

fn headers(alloc: Global, location: &str) -> Result<Headers, AllocError> {
    let mut headers = Headers::new(alloc);
    if !location.is_empty() {
        let Ok(()) = headers.add("location", location.as_bytes()) else {
            return Err(AllocError);
        };
    }
    Ok(headers)
}

/// Returns a registry that responds with these statuses, locations and bodies, in order.
pub fn registry(alloc: Global, given: &[(u16, &str, &[u8])]) -> Result<Script, AllocError> {
    let mut answers = List::new(alloc);
    for (status, location, body) in given {
        let headers = headers(alloc, *location)?;
        let pieces = pieces(alloc, *body)?;
        answers.push(Recorded {
            fails: false,
            status: *status,
            headers,
            pieces,
            fails_before: None,
        })?;
    }
    Ok(Script::new(alloc, answers))
}

pub fn client(alloc: Global) -> Result<Client, AllocError> {
    let config = ClientConfig::default(alloc)?;
    Ok(Client::new(alloc, config))
}

/// Returns the image of this text, at a mirror if one is given.
pub fn image(alloc: Global, text: &str, mirror: Option<&str>) -> Result<Reference, AllocError> {
    let Ok(mut image) = Reference::parse(alloc, text) else {
        return Err(AllocError);
    };
    if let Some(mirror) = mirror {
        image.set_mirror_registry(Text::new(alloc, mirror)?);
    }
    Ok(image)
}

/// Returns whether the last request was this one, without a header `accept`.
pub fn asked_last(script: &Script, method: Method, url: &str) -> bool {
    let Some(exchange) = script.conversation().as_slice().last() else {
        return false;
    };
    let request = &exchange.request;
    request.method == method
        && request.url.as_str() == url
        && request.headers.first("accept").is_none()
}
