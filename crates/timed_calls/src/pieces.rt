// A transport that computes its answers.
use json_values::{Blob, Copied};
use oci_transport::{AnswerHead, Headers, LinkError, Request, Transport};
use std::alloc::{AllocError, Global};

/// The number of bytes of a piece.
const PIECE: usize = 65536;

/// Responds to each request with status 200 and all the pieces that are left. It exposes no exchange.
#[derive(Drop)]
pub struct Pieces {
    pub left: u64,
}

/// Returns a piece: 65536 bytes of the letter `a`.
pub fn piece(alloc: Global) -> Result<Blob, AllocError> {
    let bytes = vec![in alloc; 97; PIECE]?;
    Ok(Blob::from_vec(bytes))
}

impl Transport for Pieces {
    ghost use Rattle.timed_calls.specs.Pieces.{untold};

    ghost state = { untold };

    fn send(&mut self, alloc: Global, _request: &Request) -> Result<AnswerHead, LinkError> {
        Ok(AnswerHead {
            status: 200,
            headers: Headers::new(alloc),
        })
    }

    fn piece(&mut self, alloc: Global) -> Result<Blob, LinkError> {
        if self.left == 0 {
            return Ok(Blob::empty(alloc));
        }
        self.left -= 1;
        let piece = piece(alloc)?;
        Ok(piece)
    }

    fn faults(&self) -> u64 {
        0
    }
}
