// Sources of the pieces of a stream.
ghost use Rattle.std.specs.Prelude.{◌≡◌, ◌≤◌, [], IfOk, OnOk, OnErr, IsErrOf};
ghost use Rattle.std.specs.Io.KnownBytes.{IsAtEnd};
ghost use Rattle.json_values.specs.Counts.{Increased, Unchanged};
ghost use Rattle.push_rows.specs.PieceStates.{PieceState, Takes, TakesPieces, NoneAhead, part};

use json_values::Blob;
use oci_transport::LinkError;
use std::alloc::Global;

/// Returns the bytes of a stream piece by piece.
pub trait PieceSource {
    /// The bytes that are left, the pieces in which it will return them, each if it exposes them, and its fault count.
    ghost state: { Self → PieceState };

    /// Returns the next piece, which is a prefix of the bytes that are left. An empty piece ends them. Returns `Failed`
    /// if the source failed: the fault count increases then, and is unchanged if a piece is returned. A call that
    /// returns an error takes none of the pieces that the source exposes.
    fn piece(&mut self, alloc: Global) -> Result<Blob, LinkError>
        ensures count { (state self.old).faults ≤ (state self.new).faults }
        ensures prefix { IfOk result (λ piece. Takes piece (state self.old) (state self.new)) }
        ensures end { IfOk result (λ piece. piece ≡ [] → IsAtEnd (state self.new).left) }
        ensures next { IfOk result (λ piece. TakesPieces (part piece) (state self.old) (state self.new)) }
        ensures last { IfOk result (λ piece. piece ≡ [] → NoneAhead (state self.new)) }
        ensures keeps { OnErr result (TakesPieces [] (state self.old) (state self.new)) }
        ensures fault { IsErrOf result LinkError.Failed → Increased (state self.old).faults (state self.new).faults }
        ensures no_fault { OnOk result (Unchanged (state self.old).faults (state self.new).faults) };

    /// Returns the number of failures so far, saturating at `u64::MAX`.
    fn faults(&self) -> u64
        ensures { result ≡ (state self.now).faults };
}
