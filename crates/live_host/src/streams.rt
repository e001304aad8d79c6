// The two streams between a program and its host, and frames over them that are not requests.
ghost use Rattle.std.specs.Prelude.{◌≡◌, false, IfOk, IfErr, OnOk, OnErr, IsErrOf};
ghost use Rattle.serde_json.specs.Written.{has_float};
ghost use Rattle.json_values.specs.Counts.{Increased};
ghost use Rattle.byte_streams.specs.SinkState.{Adds, AddsPrefix};
ghost use Rattle.live_link.specs.Writing.{frame_text};
ghost use Rattle.live_host.specs.HostErrors.{HearCause, TellCause};
ghost use Rattle.live_host.specs.Wire.{wire, ReceivesFrame, SendsFrame};

use byte_streams::{Sink, SinkError, Source, put_all};
use json_tables::ReadError;
use json_values::{Copied, Json};
use live_link::{FrameError, read_frame, write_frame};
use std::alloc::{AllocError, AllocFailed, Global};
use thiserror::Error;

/// Why a frame was not sent or received.
#[derive(Clone, Copy, Debug, PartialEq, Eq, Error)]
pub enum HostError {
    /// The host's stream failed, ended, or sent something malformed.
    #[error("the host's stream ended or was malformed: read the host's own message")]
    Broken,
    /// The output failed.
    #[error("the output could not be written: check whether the host is still running")]
    Unwritten,
    /// The allocator had no memory.
    #[error("out of memory: free some and try again")]
    WantOfMemory,
}

impl Copied for HostError {
    fn copy(&self, _alloc: Global) -> Result<HostError, AllocError> {
        Ok(*self)
    }
}

impl From<AllocError> for HostError {
    ghost use Rattle.live_host.specs.declared.streams.HostError.TheVariants.{WantOfMemory};

    ghost from_gives = { λ _ e. e ≡ WantOfMemory };

    fn from(_error: AllocError) -> HostError {
        HostError::WantOfMemory
    }
}

impl<T: Drop> From<AllocFailed<T>> for HostError {
    ghost use Rattle.live_host.specs.declared.streams.HostError.TheVariants.{WantOfMemory};

    ghost from_gives = { λ _ e. e ≡ WantOfMemory };

    fn from(_error: AllocFailed<T>) -> HostError {
        HostError::WantOfMemory
    }
}

impl From<ReadError> for HostError {
    ghost use Rattle.live_host.specs.HostErrors.{host_error};

    ghost from_gives = { λ error host. host ≡ host_error error };

    fn from(error: ReadError) -> HostError {
        match error {
            ReadError::WantOfMemory => HostError::WantOfMemory,
            _ => HostError::Broken,
        }
    }
}

/// The bytes that are received from a host, and those that are sent to it.
#[derive(Drop)]
pub struct Streams<S, K> {
    pub source: S,
    pub sink: K,
}

// Writes the line, and then the bytes verbatim, without a copy.
fn put_frame<K: Sink>(
    alloc: Global,
    sink: &mut K,
    head: &Json,
    bytes: &[u8],
) -> Result<(), SinkError>
    requires plain { has_float head.now ≡ false }
    ensures whole { OnOk result (Adds (frame_text head.now bytes.now) (K.state sink.old) (K.state sink.new)) }
    ensures part { OnErr result (AddsPrefix (frame_text head.now bytes.now) (K.state sink.old) (K.state sink.new)) }
    ensures fault { IsErrOf result SinkError.Failed
        → Increased (K.state sink.old).faults (K.state sink.new).faults }
{
    write_frame(alloc, sink, head, &[])?;
    put_all(sink, bytes)?;
    Ok(())
}

/// Sends a frame: its line, and the bytes after it.
pub fn tell<S: Source, K: Sink>(
    alloc: Global,
    streams: &mut Streams<S, K>,
    head: &Json,
    bytes: &[u8],
) -> Result<(), HostError>
    requires plain { has_float head.now ≡ false }
    ensures told { OnOk result (SendsFrame head.now bytes.now
        (wire S.state K.state streams.old) (wire S.state K.state streams.new)) }
    ensures cause { IfErr result (λ e. TellCause (head.now, bytes.now) e
        (wire S.state K.state streams.old) (wire S.state K.state streams.new)) }
{
    match put_frame(alloc, &mut streams.sink, head, bytes) {
        Ok(()) => Ok(()),
        Err(SinkError::Failed) => Err(HostError::Unwritten),
        Err(SinkError::WantOfMemory) => Err(HostError::WantOfMemory),
    }
}

/// Receives the next frame, which has no bytes, and returns the object of its line.
pub fn hear<S: Source, K: Sink>(
    alloc: Global,
    streams: &mut Streams<S, K>,
) -> Result<Json, HostError>
    ensures heard { IfOk result (λ head. ReceivesFrame head
        (wire S.state K.state streams.old) (wire S.state K.state streams.new)) }
    ensures cause { IfErr result (λ e. HearCause e
        (wire S.state K.state streams.old) (wire S.state K.state streams.new)) }
{
    match read_frame(alloc, &mut streams.source, 0) {
        Ok(frame) => Ok(frame.head),
        Err(FrameError::WantOfMemory) => Err(HostError::WantOfMemory),
        Err(FrameError::SourceFault) => Err(HostError::Broken),
        Err(FrameError::Ended) => Err(HostError::Broken),
        Err(FrameError::TooLong) => Err(HostError::Broken),
        Err(FrameError::NoFrame) => Err(HostError::Broken),
    }
}
