// Sinks that a caller opens, one for each blob.
ghost use Rattle.std.specs.Prelude.{◌≡◌, ◌≤◌, [], ◌∷◌, IfOk, IsErrOf};
ghost use Rattle.json_values.specs.Counts.{Increased};
ghost use Rattle.byte_streams.specs.SinkState.{SinkState};
ghost use Rattle.image_blobs.specs.SinksState.{SinksState, Closes, closing};

use byte_streams::{Sink, SinkError};
use std::alloc::Global;

/// Opens a sink for each blob, and takes it back.
pub trait Sinks {
    type Sink: Sink;

    /// The sinks that were closed, if it exposes them, and its fault count.
    ghost state: { Self → SinksState };

    /// The state in which each sink is opened.
    ghost fresh: { SinkState };

    /// Opens a sink for the blob of this digest. Returns `Failed` if it refuses: the fault count increases then.
    fn open(&mut self, alloc: Global, digest: &str) -> Result<Self::Sink, SinkError>
        ensures count { (state self.old).faults ≤ (state self.new).faults }
        ensures fresh { IfOk result (λ sink. Self.Sink.state sink ≡ fresh) }
        ensures unclosed { Closes [] (state self.old) (state self.new) }
        ensures fault { IsErrOf result SinkError.Failed → Increased (state self.old).faults (state self.new).faults };

    /// Takes back a sink, with whether it has the whole blob of this digest, which was checked. Otherwise the
    /// blob was refused, and the sink has a prefix of it or other bytes. Returns `Failed` if it refuses: the fault
    /// count increases then, and also if the sink itself had failed.
    fn close(
        &mut self,
        alloc: Global,
        digest: &str,
        sink: Self::Sink,
        stood: bool,
    ) -> Result<(), SinkError>
        ensures count { (state self.old).faults ≤ (state self.new).faults }
        ensures closed { Closes (closing digest.now (Self.Sink.state sink) stood ∷ []) (state self.old)
            (state self.new) }
        ensures failed { Increased fresh.faults (Self.Sink.state sink).faults
            → Increased (state self.old).faults (state self.new).faults }
        ensures fault { IsErrOf result SinkError.Failed → Increased (state self.old).faults (state self.new).faults };

    /// Returns the number of failures so far, saturating at `u64::MAX`.
    fn faults(&self) -> u64
        ensures { result ≡ (state self.now).faults };
}
