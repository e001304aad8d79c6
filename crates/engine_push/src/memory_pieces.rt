// Pieces in memory.
ghost use Rattle.std.specs.Prelude.{◌≡◌, ◌≤◌, length, [], Some, Contains, IfOk, OnOk, OnErr, IsErrOf};
ghost use Rattle.std.specs.Io.KnownBytes.{Keeps, IsAtEnd};
ghost use Rattle.json_values.specs.Counts.{Increased, Unchanged, incremented};
ghost use Rattle.oci_transport.specs.Pieces.{NoneEmpty, joined};
ghost use Rattle.push_rows.specs.PieceStates.{Takes, TakesPieces, NoneAhead, part};

use crate::piece_source::PieceSource;
use json_values::{Blob, Copied, List};
use oci_transport::LinkError;
use std::alloc::Global;

/// Returns pieces in memory, in order, and fails at the calls with the given numbers, counted from 0.
#[derive(Drop)]
pub struct MemoryPieces {
    pieces: List<Blob>,
    at: usize,
    failing: List<u64>,
    calls: u64,
    faults: u64,
    ghost within: { at ≤ length pieces },
    ghost whole: { NoneEmpty pieces },
}

impl MemoryPieces {
    ghost use Rattle.engine_push.specs.MemoryPieces.{source_state, calls_of, failing_of};

    /// Creates a source with all of the pieces left, none of which is empty.
    pub fn new(_alloc: Global, pieces: List<Blob>, failing: List<u64>) -> MemoryPieces
        requires { NoneEmpty pieces }
        ensures left { (source_state result).left ≡ Some (joined pieces) }
        ensures ahead { (source_state result).ahead ≡ Some pieces }
        ensures faults { (source_state result).faults ≡ 0 }
        ensures calls { calls_of result ≡ 0 }
        ensures failing { failing_of result ≡ failing }
    {
        MemoryPieces {
            pieces,
            at: 0,
            failing,
            calls: 0,
            faults: 0,
        }
    }
}

impl PieceSource for MemoryPieces {
    ghost use Rattle.engine_push.specs.MemoryPieces.{source_state, calls_of, failing_of};

    ghost state = { source_state };

    fn piece(&mut self, alloc: Global) -> Result<Blob, LinkError>
        ensures count { (source_state self.old).faults ≤ (source_state self.new).faults }
        ensures prefix { IfOk result (λ piece. Takes piece (source_state self.old) (source_state self.new)) }
        ensures end { IfOk result (λ piece. piece ≡ [] → IsAtEnd (source_state self.new).left) }
        ensures next { IfOk result (λ piece. TakesPieces (part piece) (source_state self.old) (source_state self.new)) }
        ensures last { IfOk result (λ piece. piece ≡ [] → NoneAhead (source_state self.new)) }
        ensures keeps { OnErr result (TakesPieces [] (source_state self.old) (source_state self.new)) }
        ensures fault { IsErrOf result LinkError.Failed
            → Increased (source_state self.old).faults (source_state self.new).faults }
        ensures no_fault { OnOk result (Unchanged (source_state self.old).faults (source_state self.new).faults) }
        ensures stays { OnErr result (Keeps (source_state self.old).left (source_state self.new).left) }
        ensures out_of_memory { IsErrOf result LinkError.WantOfMemory
            → Unchanged (source_state self.old).faults (source_state self.new).faults }
        ensures counts_one { IsErrOf result LinkError.Failed
            → (source_state self.new).faults ≡ incremented (source_state self.old).faults }
        ensures calls { calls_of self.new ≡ incremented (calls_of self.old) }
        ensures failing { failing_of self.new ≡ failing_of self.old }
        ensures fails { IsErrOf result LinkError.Failed → Contains (failing_of self.old) (calls_of self.old) }
        ensures succeeds { OnOk result (Contains (failing_of self.old) (calls_of self.old) → ⊥) }
    {
        let call = self.calls;
        self.calls = call.saturating_add(1);
        if self.failing.as_slice().contains(&call) {
            self.faults = self.faults.saturating_add(1);
            return Err(LinkError::Failed);
        }
        let Some(piece) = self.pieces.as_slice().get(self.at) else {
            return Ok(Blob::empty(alloc));
        };
        let piece = piece.copy(alloc)?;
        self.at += 1;
        Ok(piece)
    }

    fn faults(&self) -> u64 {
        self.faults
    }
}
