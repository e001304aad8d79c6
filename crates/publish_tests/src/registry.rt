// A recorded registry, and what it is asked with.
use json_values::{List, Text};
use oci_engine::{Client, ClientConfig, ClientProtocol};
use oci_names::Reference;
use oci_transport::{Headers, Method, Recorded, Script};
use std::alloc::{AllocError, Global};

fn headers(alloc: Global, location: &str) -> Result<Headers, AllocError> {
    let mut headers = Headers::new(alloc);
    if !location.is_empty() {
        let Ok(()) = headers.add("location", location.as_bytes()) else {
            return Err(AllocError);
        };
    }
    Ok(headers)
}

/// Returns a registry that responds with these statuses and locations, in order, and no body.
pub fn registry(alloc: Global, given: &[(u16, &str)]) -> Result<Script, AllocError> {
    let mut answers = List::new(alloc);
    for (status, location) in given {
        let headers = headers(alloc, *location)?;
        answers.push(Recorded {
            fails: false,
            status: *status,
            headers,
            pieces: List::new(alloc),
            fails_before: None,
        })?;
    }
    Ok(Script::new(alloc, answers))
}

pub fn client(alloc: Global) -> Result<Client, AllocError> {
    let mut config = ClientConfig::default(alloc)?;
    config.protocol = ClientProtocol::Http;
    Ok(Client::new(alloc, config))
}

/// Returns the image of this text, at a mirror if one is given.
pub fn image(alloc: Global, text: &str, mirror: &str) -> Result<Reference, AllocError> {
    let Ok(mut image) = Reference::parse(alloc, text) else {
        return Err(AllocError);
    };
    if !mirror.is_empty() {
        image.set_mirror_registry(Text::new(alloc, mirror)?);
    }
    Ok(image)
}

/// A request: its method, URL and body, and the value of a header, which is empty if it is absent.
#[derive(Drop)]
pub struct Asked<'a> {
    pub method: Method,
    pub url: &'a str,
    pub body: &'a str,
    pub header: &'a str,
    pub value: &'a str,
}

/// Returns whether the request at an index is this one.
pub fn is_asked(script: &Script, place: usize, asked: &Asked) -> bool {
    let Some(exchange) = script.conversation().as_slice().get(place) else {
        return false;
    };
    let request = &exchange.request;
    let value = request.headers.first(asked.header).unwrap_or(b"");
    request.method == asked.method
        && request.url.as_str() == asked.url
        && request.body.as_slice() == asked.body.as_bytes()
        && value == asked.value.as_bytes()
}
