// A registry that keeps nothing, and what is pushed to it.
use engine_push::PieceSource;
use json_values::{Blob, Text};
use oci_transport::{AnswerHead, Headers, LinkError, Method, Request, Transport};
use std::alloc::{AllocError, Global};

/// Where each upload continues, and where what was pushed is then.
const PLACE: &str = "/v2/app/blobs/uploads/1";

/// The number of tags of a piece.
const TAGS: usize = 1000;

/// The number of bytes of a chunk, the most that a request sends.
const CHUNK: usize = 4_194_304;

/// Accepts each upload and drops its bytes. The body of a response to another request is a list of tags: a number of
/// pieces of 1000 tags, and one tag more. It exposes no exchange.
#[derive(Drop)]
pub struct Accepting {
    begun: bool,
    left: u64,
    ended: bool,
}

impl Accepting {
    /// A registry whose list of tags has `thousands` thousand tags, and one more.
    pub fn new(thousands: u64) -> Accepting {
        Accepting {
            begun: false,
            left: thousands,
            ended: false,
        }
    }
}

// The status with which an upload goes on, or ends.
fn status_of(method: Method) -> u16 {
    match method {
        Method::Get | Method::Head => 200,
        Method::Post | Method::Patch => 202,
        Method::Put => 201,
    }
}

// The location that each response has; no header if it is not accepted.
fn located(alloc: Global) -> Headers {
    let mut headers = Headers::new(alloc);
    match headers.add("location", PLACE.as_bytes()) {
        Ok(()) => headers,
        Err(_) => Headers::new(alloc),
    }
}

fn tags(alloc: Global) -> Result<Blob, AllocError> {
    let mut text = Text::new(alloc, "")?;
    for _ in 0..TAGS {
        text.push_str("\"1.22.333-slim\",")?;
    }
    Blob::new(alloc, text.as_str().as_bytes())
}

impl Transport for Accepting {
    ghost use Rattle.timed_calls.specs.Pieces.{accepts_all};

    ghost state = { accepts_all };

    fn send(&mut self, alloc: Global, request: &Request) -> Result<AnswerHead, LinkError> {
        Ok(AnswerHead {
            status: status_of(request.method),
            headers: located(alloc),
        })
    }

    fn piece(&mut self, alloc: Global) -> Result<Blob, LinkError> {
        if !self.begun {
            self.begun = true;
            return Ok(Blob::new(alloc, b"{\"name\":\"app\",\"tags\":[")?);
        }
        if self.left > 0 {
            self.left -= 1;
            return Ok(tags(alloc)?);
        }
        if !self.ended {
            self.ended = true;
            return Ok(Blob::new(alloc, b"\"latest\"]}")?);
        }
        Ok(Blob::empty(alloc))
    }

    fn faults(&self) -> u64 {
        0
    }
}

/// Returns a chunk: 4194304 bytes of the letter `a`.
pub fn chunk(alloc: Global) -> Result<Blob, AllocError> {
    let bytes = vec![in alloc; 97; CHUNK]?;
    Ok(Blob::from_vec(bytes))
}

/// Gives a number of chunks. It exposes none of them.
#[derive(Drop)]
pub struct Given {
    pub left: u64,
}

impl PieceSource for Given {
    ghost use Rattle.timed_calls.specs.Pieces.{unexposed};

    ghost state = { unexposed };

    fn piece(&mut self, alloc: Global) -> Result<Blob, LinkError> {
        if self.left == 0 {
            return Ok(Blob::empty(alloc));
        }
        self.left -= 1;
        let chunk = chunk(alloc)?;
        Ok(chunk)
    }

    fn faults(&self) -> u64 {
        0
    }
}
