// Reads a source to its end.
ghost use Rattle.std.specs.Prelude.{◌≡◌, ◌≤◌, IfOk, vec_len};
ghost use Rattle.byte_streams.specs.Reading.{Reads};

use crate::source::{Failed, Source};
use json_values::{Blob, Copied};
use std::alloc::{AllocError, Global};
use thiserror::Error;

/// The greatest length of a program's input in bytes.
pub const INPUT_LIMIT: u64 = 67108864;

/// The greatest length of a piece in bytes.
const PIECE: usize = 65536;

/// Why a source was not read to its end.
#[derive(Clone, Copy, Debug, PartialEq, Eq, Error)]
pub enum ReadRefusal {
    /// The source has more bytes than the limit.
    #[error("the source has more bytes than the limit: pass fewer, or use a greater limit")]
    TooLong,
    #[error("the source failed: the bytes read so far are dropped, so read it again from its start")]
    SourceFault,
    #[error("out of memory: free some and try again")]
    WantOfMemory,
}

impl From<AllocError> for ReadRefusal {
    ghost use Rattle.std.specs.Prelude.{◌≡◌};
    ghost use Rattle.byte_streams.specs.declared.reading.ReadRefusal.TheVariants.{WantOfMemory};

    ghost from_gives = { λ _ e. e ≡ WantOfMemory };

    fn from(_error: AllocError) -> ReadRefusal {
        ReadRefusal::WantOfMemory
    }
}

impl From<Failed> for ReadRefusal {
    ghost use Rattle.std.specs.Prelude.{◌≡◌};
    ghost use Rattle.byte_streams.specs.declared.reading.ReadRefusal.TheVariants.{SourceFault};

    ghost from_gives = { λ _ e. e ≡ SourceFault };

    fn from(_error: Failed) -> ReadRefusal {
        ReadRefusal::SourceFault
    }
}

impl Copied for ReadRefusal {
    fn copy(&self, _alloc: Global) -> Result<ReadRefusal, AllocError> {
        Ok(*self)
    }
}

fn zeros(alloc: Global, count: usize) -> Result<Vec<u8>, AllocError>
    ensures { IfOk result (λ room. vec_len room ≡ count) }
{
    vec![in alloc; 0; count]
}

/// Reads a source to its end, piece by piece. Returns `TooLong` as soon as more than `limit` bytes were read.
pub fn read_all<S: Source>(alloc: Global, source: &mut S, limit: u64) -> Result<Blob, ReadRefusal>
    ensures reads { Reads limit result (S.state source.old) (S.state source.new) }
    ensures count { (S.state source.old).faults ≤ (S.state source.new).faults }
{
    let mut room = zeros(alloc, PIECE)?;
    let mut read = Blob::empty(alloc);
    loop {
        let count = source.take(&mut room)?;
        if count == 0 {
            return Ok(read);
        }
        if count as u64 > limit - read.as_slice().len() as u64 {
            return Err(ReadRefusal::TooLong);
        }
        read.append(&room[..count])?;
    }
}
