// Byte sources.
ghost use Rattle.std.specs.Prelude.{◌≡◌, ◌≤◌, ◌<◌, length, take, IfOk, OnOk, OnErr};
ghost use Rattle.std.specs.Io.KnownBytes.{Keeps, IsAtEnd};
ghost use Rattle.json_values.specs.Counts.{Increased, Unchanged};
ghost use Rattle.byte_streams.specs.Source.{SourceState, Takes};

use json_values::Copied;
use std::alloc::{AllocError, Global};
use thiserror::Error;

/// The source returned no bytes, and those that are left are unchanged.
#[derive(Clone, Copy, Debug, PartialEq, Eq, Error)]
#[error("the source failed: call again for the bytes that are left")]
pub struct Failed;

impl Copied for Failed {
    fn copy(&self, _alloc: Global) -> Result<Failed, AllocError> {
        Ok(*self)
    }
}

/// Returns bytes, piece by piece.
pub trait Source {
    /// The bytes that are left, if it exposes them, and its fault count.
    ghost state: { Self → SourceState };

    /// Moves a prefix of the bytes that are left to the start of the room, and returns its length in bytes.
    /// At the end no byte is moved to non-empty room. Returns `Failed` if the source failed: the fault count increases
    /// then, and is unchanged otherwise.
    fn take(&mut self, room: &mut [u8]) -> Result<usize, Failed>
        ensures count { (state self.old).faults ≤ (state self.new).faults }
        ensures most { IfOk result (λ n. n ≤ length room.new) }
        ensures prefix { IfOk result (λ n. Takes (take n room.new) (state self.old) (state self.new)) }
        ensures end { IfOk result (λ n. n ≡ 0 → 0 < length room.new → IsAtEnd (state self.new).left) }
        ensures stays { OnErr result (Keeps (state self.old).left (state self.new).left) }
        ensures fault { OnErr result (Increased (state self.old).faults (state self.new).faults) }
        ensures no_fault { OnOk result (Unchanged (state self.old).faults (state self.new).faults) };

    /// Returns the number of failures so far, saturating at `u64::MAX`.
    fn faults(&self) -> u64
        ensures { result ≡ (state self.now).faults };
}
