ghost use Rattle.std.specs.Prelude.{◌≡◌, ◌≤◌, ◌<◌, length, take, Some, [], Contains, IfOk, OnOk, OnErr, IsErrOf};
ghost use Rattle.json_values.specs.Counts.{Increased, Unchanged, incremented};
ghost use Rattle.byte_streams.specs.SinkState.{Adds};

use crate::sink::{Sink, SinkError};
use json_values::List;
use std::alloc::Global;

/// Collects bytes in memory, and fails at the calls with the given numbers, counted from 0.
#[derive(Drop)]
pub struct MemorySink {
    bytes: Vec<u8>,
    failing: List<u64>,
    calls: u64,
    faults: u64,
}

impl MemorySink {
    ghost use Rattle.byte_streams.specs.Sinks.{memory_sink_state, calls_of, failing_of};

    /// Creates an empty sink that fails at the calls with these numbers.
    pub fn new(alloc: Global, failing: List<u64>) -> MemorySink
        ensures taken { (memory_sink_state result).taken ≡ Some [] }
        ensures faults { (memory_sink_state result).faults ≡ 0 }
        ensures calls { calls_of result ≡ 0 }
        ensures failing { failing_of result ≡ failing }
    {
        MemorySink {
            bytes: Vec::new(alloc),
            failing,
            calls: 0,
            faults: 0,
        }
    }

    /// Returns the bytes so far.
    pub fn taken(&self) -> &[u8]
        ensures { (memory_sink_state self.now).taken ≡ Some result.now }
    {
        self.bytes.as_slice()
    }
}

impl Sink for MemorySink {
    ghost use Rattle.byte_streams.specs.Sinks.{memory_sink_state, calls_of, failing_of};

    ghost state = { memory_sink_state };

    fn put(&mut self, piece: &[u8]) -> Result<usize, SinkError>
        ensures count { (memory_sink_state self.old).faults ≤ (memory_sink_state self.new).faults }
        ensures some { 0 < length piece.now → IfOk result (λ n. 0 < n) }
        ensures most { IfOk result (λ n. n ≤ length piece.now) }
        ensures taken { IfOk result (λ n.
            Adds (take n piece.now) (memory_sink_state self.old) (memory_sink_state self.new)) }
        ensures refused { OnErr result (
            (memory_sink_state self.new).taken ≡ (memory_sink_state self.old).taken) }
        ensures counts_one { IsErrOf result SinkError.Failed
            → (memory_sink_state self.new).faults ≡ incremented (memory_sink_state self.old).faults }
        ensures fault { IsErrOf result SinkError.Failed
            → Increased (memory_sink_state self.old).faults (memory_sink_state self.new).faults }
        ensures no_fault { OnOk result (
            Unchanged (memory_sink_state self.old).faults (memory_sink_state self.new).faults) }
        ensures out_of_memory { IsErrOf result SinkError.WantOfMemory
            → Unchanged (memory_sink_state self.old).faults (memory_sink_state self.new).faults }
        ensures calls { calls_of self.new ≡ incremented (calls_of self.old) }
        ensures failing { failing_of self.new ≡ failing_of self.old }
        ensures fails { IsErrOf result SinkError.Failed
            → Contains (failing_of self.old) (calls_of self.old) }
        ensures succeeds { IfOk result (λ n. Contains (failing_of self.old) (calls_of self.old) → ⊥) }
    {
        let call = self.calls;
        self.calls = call.saturating_add(1);
        if self.failing.as_slice().contains(&call) {
            self.faults = self.faults.saturating_add(1);
            return Err(SinkError::Failed);
        }
        match self.bytes.extend_from_slice(piece) {
            Ok(()) => Ok(piece.len()),
            Err(_) => Err(SinkError::WantOfMemory),
        }
    }

    fn faults(&self) -> u64 {
        self.faults
    }
}
