ghost use Rattle.oci_transport.specs.Pieces.{NoneEmpty};

use crate::headers::Headers;
use json_values::{Blob, Copied, List, copied};
use std::alloc::{AllocError, Global};

/// A recorded answer, or a failing send.
#[derive(Drop)]
pub struct Recorded {
    /// The send fails, and the other fields are ignored.
    pub fails: bool,
    pub status: u16,
    pub headers: Headers,
    /// The body, in non-empty pieces.
    pub pieces: List<Blob>,
    /// The call after this many pieces of the body fails, once.
    pub fails_before: Option<u64>,
    ghost none_empty: { NoneEmpty pieces },
}

impl Copied for Recorded {
    fn copy(&self, alloc: Global) -> Result<Recorded, AllocError> {
        copied!(
            alloc,
            self,
            Recorded {
                fails,
                status,
                headers,
                pieces,
                fails_before
            }
        )
    }
}
