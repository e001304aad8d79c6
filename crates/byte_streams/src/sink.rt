// Byte sinks.
ghost use Rattle.std.specs.Prelude.{◌≡◌, ◌≤◌, ◌<◌, length, take, IfOk, OnOk, OnErr, IsErrOf};
ghost use Rattle.json_values.specs.Counts.{Increased, Unchanged};
ghost use Rattle.byte_streams.specs.SinkState.{SinkState, Adds, AddsPrefix, AddsProperPrefix};

use json_values::Copied;
use std::alloc::{AllocError, Global};
use thiserror::Error;

/// Why a sink accepted nothing.
#[derive(Clone, Copy, Debug, PartialEq, Eq, Error)]
pub enum SinkError {
    /// The destination refused the bytes.
    #[error("the sink refused the bytes: check whether its disk is full or its pipe is closed")]
    Failed,
    #[error("out of memory: the sink accepted nothing, so write the same bytes again")]
    WantOfMemory,
}

impl Copied for SinkError {
    fn copy(&self, _alloc: Global) -> Result<SinkError, AllocError> {
        Ok(*self)
    }
}

/// Accepts bytes, piece by piece.
pub trait Sink {
    /// The bytes that it holds, if it exposes them, and its fault count.
    ghost state: { Self → SinkState };

    /// Accepts a prefix of the piece, at least one byte if the piece is not empty, and returns its length in bytes.
    /// Returns `Failed` if the destination refused: the fault count increases then, and is unchanged otherwise.
    fn put(&mut self, piece: &[u8]) -> Result<usize, SinkError>
        ensures count { (state self.old).faults ≤ (state self.new).faults }
        ensures some { 0 < length piece.now → IfOk result (λ n. 0 < n) }
        ensures most { IfOk result (λ n. n ≤ length piece.now) }
        ensures taken { IfOk result (λ n. Adds (take n piece.now) (state self.old) (state self.new)) }
        ensures refused { OnErr result ((state self.new).taken ≡ (state self.old).taken) }
        ensures fault { IsErrOf result SinkError.Failed
            → Increased (state self.old).faults (state self.new).faults }
        ensures no_fault { OnOk result (Unchanged (state self.old).faults (state self.new).faults) }
        ensures out_of_memory { IsErrOf result SinkError.WantOfMemory
            → Unchanged (state self.old).faults (state self.new).faults };

    /// Returns the number of failures so far, saturating at `u64::MAX`.
    fn faults(&self) -> u64
        ensures { result ≡ (state self.now).faults };
}

/// Writes the whole piece. On an error a proper prefix of it was written. The fault count increases if the error
/// is `Failed`, and is unchanged otherwise.
pub fn put_all<S: Sink>(sink: &mut S, piece: &[u8]) -> Result<(), SinkError>
    ensures count { (S.state sink.old).faults ≤ (S.state sink.new).faults }
    ensures whole { OnOk result (Adds piece.now (S.state sink.old) (S.state sink.new)) }
    ensures prefix { AddsPrefix piece.now (S.state sink.old) (S.state sink.new) }
    ensures part { OnErr result (AddsProperPrefix piece.now (S.state sink.old) (S.state sink.new)) }
    ensures fault { IsErrOf result SinkError.Failed
        → Increased (S.state sink.old).faults (S.state sink.new).faults }
    ensures no_fault { OnOk result (Unchanged (S.state sink.old).faults (S.state sink.new).faults) }
    ensures out_of_memory { IsErrOf result SinkError.WantOfMemory
        → Unchanged (S.state sink.old).faults (S.state sink.new).faults }
{
    let mut at = 0;
    while at < piece.len() {
        match sink.put(&piece[at..]) {
            Ok(n) => at += n,
            Err(SinkError::Failed) => return Err(SinkError::Failed),
            Err(SinkError::WantOfMemory) => return Err(SinkError::WantOfMemory),
        }
    }
    Ok(())
}
