ghost use Rattle.std.specs.Prelude.{◌≡◌, ◌≤◌, ◌<◌, length, take, Some, Contains, IfOk, OnOk, OnErr};
ghost use Rattle.std.specs.Io.KnownBytes.{Keeps, IsAtEnd};
ghost use Rattle.json_values.specs.Counts.{Increased, Unchanged, incremented};

use crate::give::give;
use crate::source::{Failed, Source};
use json_values::{Blob, List};

/// Returns bytes in memory, and fails at the calls with the given numbers, counted from 0.
#[derive(Drop)]
pub struct MemorySource {
    content: Blob,
    at: usize,
    failing: List<u64>,
    calls: u64,
    faults: u64,
    ghost within: { at ≤ length content },
}

impl MemorySource {
    ghost use Rattle.byte_streams.specs.MemorySource.{source_state, calls_of, failing_of};

    /// Creates a source with all of the content left.
    pub fn new(content: Blob, failing: List<u64>) -> MemorySource
        ensures left { (source_state result).left ≡ Some content }
        ensures faults { (source_state result).faults ≡ 0 }
        ensures calls { calls_of result ≡ 0 }
        ensures failing { failing_of result ≡ failing }
    {
        MemorySource {
            content,
            at: 0,
            failing,
            calls: 0,
            faults: 0,
        }
    }
}

impl Source for MemorySource {
    ghost use Rattle.byte_streams.specs.Source.{Takes};
    ghost use Rattle.byte_streams.specs.MemorySource.{source_state, calls_of, failing_of};

    ghost state = { source_state };

    fn take(&mut self, room: &mut [u8]) -> Result<usize, Failed>
        ensures count { (source_state self.old).faults ≤ (source_state self.new).faults }
        ensures most { IfOk result (λ n. n ≤ length room.new) }
        ensures prefix { IfOk result (λ n. Takes (take n room.new) (source_state self.old) (source_state self.new)) }
        ensures end { IfOk result (λ n. n ≡ 0 → 0 < length room.new → IsAtEnd (source_state self.new).left) }
        ensures stays { OnErr result (Keeps (source_state self.old).left (source_state self.new).left) }
        ensures fault { OnErr result (Increased (source_state self.old).faults (source_state self.new).faults) }
        ensures no_fault { OnOk result (Unchanged (source_state self.old).faults (source_state self.new).faults) }
        ensures counts_one { OnErr result
            ((source_state self.new).faults ≡ incremented (source_state self.old).faults) }
        ensures calls { calls_of self.new ≡ incremented (calls_of self.old) }
        ensures failing { failing_of self.new ≡ failing_of self.old }
        ensures fails { OnErr result (Contains (failing_of self.old) (calls_of self.old)) }
        ensures succeeds { OnOk result (Contains (failing_of self.old) (calls_of self.old) → ⊥) }
    {
        let call = self.calls;
        self.calls = call.saturating_add(1);
        if self.failing.as_slice().contains(&call) {
            self.faults = self.faults.saturating_add(1);
            return Err(Failed);
        }
        let count = give(self.content.as_slice(), self.at, room);
        self.at += count;
        Ok(count)
    }

    fn faults(&self) -> u64 {
        self.faults
    }
}
