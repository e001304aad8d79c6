ghost use Rattle.std.specs.Prelude.{◌≡◌, ◌≤◌, length, IfOk, OnOk, IsErrOf};
ghost use Rattle.json_values.specs.Counts.{Increased};
ghost use Rattle.oci_transport.specs.Link.{Steady, EndsRest, EndsUnbroken, TakesPast};
ghost use Rattle.oci_transport.specs.Link.{KeepsCount, AllButLastWithin};
ghost use Rattle.oci_transport.specs.declared.body.BodyError.TheVariants.{WantOfMemory as out_of_memory};

use crate::transport::{LinkError, Transport};
use json_values::{Blob, Copied};
use std::alloc::{AllocError, Global};
use thiserror::Error;

/// Why a body could not be read.
#[derive(Clone, Copy, Debug, PartialEq, Eq, Error)]
pub enum BodyError {
    /// The transport failed, and its fault count increased.
    #[error("the connection failed while reading a body: send the request again")]
    TransportFault,
    /// The body is longer than the limit.
    #[error("the body is longer than the limit: read it with a greater limit")]
    BodyTooLong,
    /// The allocator is out of memory.
    #[error("out of memory: free some and try again")]
    WantOfMemory,
}

impl Copied for BodyError {
    fn copy(&self, _alloc: Global) -> Result<BodyError, AllocError> {
        Ok(*self)
    }
}

impl From<AllocError> for BodyError {
    ghost from_gives = { λ _ e. e ≡ out_of_memory };

    fn from(_: AllocError) -> Self {
        BodyError::WantOfMemory
    }
}

/// Returns the whole body of the last answer, if it has at most `limit` bytes. After `Ok` nothing of it is left.
pub fn read_body<T: Transport>(
    alloc: Global,
    transport: &mut T,
    limit: u64,
) -> Result<Blob, BodyError>
    ensures told { (T.state transport.new).told ≡ (T.state transport.old).told }
    ensures steady { Steady (T.state transport.old) (T.state transport.new) }
    ensures count { (T.state transport.old).faults ≤ (T.state transport.new).faults }
    ensures within { IfOk result (λ body. length body ≤ limit) }
    ensures whole { IfOk result (λ body.
        (rest : _) → (T.state transport.old).rest ≡ Some rest → body ≡ rest) }
    ensures ended { OnOk result (EndsRest (T.state transport.old) (T.state transport.new)) }
    ensures unbroken { OnOk result (EndsUnbroken (T.state transport.old) (T.state transport.new)) }
    ensures calm { OnOk result (KeepsCount (T.state transport.old) (T.state transport.new)) }
    ensures pieces { AllButLastWithin limit (T.state transport.old) (T.state transport.new) }
    ensures long { IsErrOf result BodyError.BodyTooLong
        → TakesPast limit (T.state transport.old) (T.state transport.new) }
    ensures fault { IsErrOf result BodyError.TransportFault
        → Increased (T.state transport.old).faults (T.state transport.new).faults }
{
    let mut body = Blob::empty(alloc);
    loop {
        let piece = match transport.piece(alloc) {
            Ok(piece) => piece,
            Err(LinkError::Failed) => return Err(BodyError::TransportFault),
            Err(LinkError::WantOfMemory) => return Err(BodyError::WantOfMemory),
        };
        let more = piece.as_slice().len();
        if more == 0 {
            return Ok(body);
        }
        if more as u64 > limit - body.as_slice().len() as u64 {
            return Err(BodyError::BodyTooLong);
        }
        body = body.join(piece)?;
    }
}
