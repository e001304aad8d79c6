// Reads a frame from a source.
ghost use Rattle.std.specs.Prelude.{◌≡◌, ℕ, ◌≤◌, ◌<◌, IfOk, vec_len};
ghost use Rattle.live_link.specs.Frame.{head_of, size_of};
ghost use Rattle.serde_json.specs.View.{view};
ghost use Rattle.live_link.specs.Reading.{ReadsFrame};
ghost use Rattle.live_link.specs.Parts.{ReadsLine, ReadsHead, ReadsBytes, TakesUpTo};

use crate::frame::Frame;
use byte_streams::{Failed, Source};
use json_tables::{ReadError, Reads, read_plain_json};
use json_values::{Blob, Copied, Json};
use serde_json::Value;
use std::alloc::{AllocError, Global};
use thiserror::Error;

/// The maximum length of a line, in bytes.
pub const MOST_BYTES: u64 = 1048576;

/// How many bytes are taken at most at one time.
const ROOM: u64 = 65536;

/// Why no frame was read. The bytes taken from the source are lost.
#[derive(Clone, Copy, Debug, PartialEq, Eq, Error)]
pub enum FrameError {
    /// The source failed, and its fault count increased.
    #[error("the source failed: the bytes read of the frame are lost")]
    SourceFault,
    /// The source ended within a frame, or before one.
    #[error("the source ended before or within a frame: check why its writer stopped")]
    Ended,
    /// The line, or the size that it states, is more than the limit.
    #[error("the frame is longer than the limit: send shorter ones")]
    TooLong,
    /// The line is not a JSON object with a size.
    #[error("the line is not a frame: it must be an object whose member `bytes` is a number or absent")]
    NoFrame,
    #[error("out of memory: free some and try again")]
    WantOfMemory,
}

impl Copied for FrameError {
    fn copy(&self, _alloc: Global) -> Result<FrameError, AllocError> {
        Ok(*self)
    }
}

impl From<AllocError> for FrameError {
    ghost use Rattle.std.specs.Prelude.{◌≡◌};
    ghost use Rattle.live_link.specs.declared.reading.FrameError.TheVariants.{WantOfMemory};

    ghost from_gives = { λ _ e. e ≡ WantOfMemory };

    fn from(_error: AllocError) -> FrameError {
        FrameError::WantOfMemory
    }
}

impl From<Failed> for FrameError {
    ghost use Rattle.std.specs.Prelude.{◌≡◌};
    ghost use Rattle.live_link.specs.declared.reading.FrameError.TheVariants.{SourceFault};

    ghost from_gives = { λ _ e. e ≡ SourceFault };

    fn from(_error: Failed) -> FrameError {
        FrameError::SourceFault
    }
}

/// Returns the next frame, with at most `most` bytes after its line. Takes no byte after the frame.
pub fn read_frame<S: Source>(alloc: Global, source: &mut S, most: u64) -> Result<Frame, FrameError>
    ensures reads { ReadsFrame most result (S.state source.old) (S.state source.new) }
    ensures count { (S.state source.old).faults ≤ (S.state source.new).faults }
{
    let line = read_line(alloc, source)?;
    let (head, size) = read_head(alloc, line.as_slice())?;
    if size > most {
        return Err(FrameError::TooLong);
    }
    let bytes = read_bytes(alloc, source, size)?;
    Ok(Frame { head, bytes })
}

// Returns the bytes up to the next line feed, and takes that too.
fn read_line<S: Source>(alloc: Global, source: &mut S) -> Result<Blob, FrameError>
    ensures reads { (most : ℕ) → ReadsLine most result (S.state source.old) (S.state source.new) }
    ensures count { (S.state source.old).faults ≤ (S.state source.new).faults }
{
    let mut line = Blob::empty(alloc);
    let mut room = [0u8; 1];
    while line.as_slice().len() as u64 <= MOST_BYTES {
        let count = source.take(&mut room)?;
        if count == 0 {
            return Err(FrameError::Ended);
        }
        if room[0] == b'\n' {
            return Ok(line);
        }
        line.append(&room)?;
    }
    Err(FrameError::TooLong)
}

// Returns the object of a line, and how many bytes follow it.
fn read_head(alloc: Global, line: &[u8]) -> Result<(Json, u64), FrameError>
    ensures { ReadsHead result line.now }
{
    let Some(head) = read_plain_json(alloc, line)? else {
        return Err(FrameError::NoFrame);
    };
    let Some(size) = size_of(head.value()) else {
        return Err(FrameError::NoFrame);
    };
    Ok((head, size))
}

// Returns how many bytes follow the line of this object: 0 if it does not state that.
fn size_of(head: &Value) -> Option<u64>
    ensures { result ≡ size_of (view head.now) }
{
    match head.get("bytes") {
        Some(size) => size.as_u64(),
        None => Some(0),
    }
}

// Returns the next `count` bytes.
fn read_bytes<S: Source>(alloc: Global, source: &mut S, count: u64) -> Result<Blob, FrameError>
    ensures reads { ReadsBytes count result (S.state source.old) (S.state source.new) }
    ensures count { (S.state source.old).faults ≤ (S.state source.new).faults }
{
    let mut bytes = Blob::empty(alloc);
    while (bytes.as_slice().len() as u64) < count {
        let left = count - bytes.as_slice().len() as u64;
        let piece = take_some(alloc, source, left)?;
        bytes.append(piece.as_slice())?;
    }
    Ok(bytes)
}

// Returns at least one byte, and at most `most`.
fn take_some<S: Source>(alloc: Global, source: &mut S, most: u64) -> Result<Blob, FrameError>
    requires { 0 < most }
    ensures takes { TakesUpTo most result (S.state source.old) (S.state source.new) }
    ensures count { (S.state source.old).faults ≤ (S.state source.new).faults }
{
    let mut room = zeros(alloc, most.min(ROOM) as usize)?;
    let count = source.take(&mut room)?;
    if count == 0 {
        return Err(FrameError::Ended);
    }
    let bytes = Blob::new(alloc, &room[..count])?;
    Ok(bytes)
}

fn zeros(alloc: Global, count: usize) -> Result<Vec<u8>, AllocError>
    ensures { IfOk result (λ room. vec_len room ≡ count) }
{
    vec![in alloc; 0; count]
}
