// Carries requests to a registry, and returns its answers.
ghost use Rattle.std.specs.Prelude.{◌≡◌, ◌≤◌, [], IfOk, OnErr, IsErrOf};
ghost use Rattle.json_values.specs.Counts.{Increased};
ghost use Rattle.oci_transport.specs.Link.{Link, Steady, Answers, AddsUnanswered, AddsAtMost, LeavesRest, Takes};
ghost use Rattle.oci_transport.specs.declared.transport.LinkError.TheVariants.{WantOfMemory as out_of_memory};

use crate::message::{AnswerHead, Request};
use json_values::{Blob, Copied};
use std::alloc::{AllocError, AllocFailed, Global};
use thiserror::Error;

/// Why a transport returned no answer.
#[derive(Clone, Copy, Debug, PartialEq, Eq, Error)]
pub enum LinkError {
    /// The connection failed, and the fault count increased.
    #[error("the connection failed: send the request again")]
    Failed,
    /// The allocator is out of memory.
    #[error("out of memory: free some and try again")]
    WantOfMemory,
}

impl Copied for LinkError {
    fn copy(&self, _alloc: Global) -> Result<LinkError, AllocError> {
        Ok(*self)
    }
}

impl From<AllocError> for LinkError {
    ghost from_gives = { λ _ e. e ≡ out_of_memory };

    fn from(_: AllocError) -> Self {
        LinkError::WantOfMemory
    }
}

impl<T: Drop> From<AllocFailed<T>> for LinkError {
    ghost from_gives = { λ _ e. e ≡ out_of_memory };

    fn from(_: AllocFailed<T>) -> Self {
        LinkError::WantOfMemory
    }
}

/// Carries requests, one after another, and the bodies of their answers piece by piece.
pub trait Transport {
    /// The exchanges so far, the rest of the last answer's body and the pieces of it that were returned, the fault
    /// count, whether only failed calls increase it, and how the transport answers, which means nothing unless it
    /// exposes its exchanges.
    ghost state: { Self → Link };

    /// Sends a request and returns the status and headers of the answer; its body is still unread. Returns `Failed` if
    /// no answer arrived: then no body can be read, not even that of the answer before.
    fn send(&mut self, alloc: Global, request: &Request) -> Result<AnswerHead, LinkError>
        ensures count { (state self.old).faults ≤ (state self.new).faults }
        ensures answered { IfOk result (λ head.
            Answers request.now head (state self.old) (state self.new)) }
        ensures unanswered { IsErrOf result LinkError.Failed
            → AddsUnanswered request.now (state self.old) (state self.new) }
        ensures nothing { IsErrOf result LinkError.Failed
            → LeavesRest [] (state self.old) (state self.new) }
        ensures fault { IsErrOf result LinkError.Failed
            → Increased (state self.old).faults (state self.new).faults }
        ensures memory { IsErrOf result LinkError.WantOfMemory
            → AddsAtMost request.now (state self.old) (state self.new) };

    /// Returns the next piece of the last answer's body. An empty piece ends the body.
    fn piece(&mut self, alloc: Global) -> Result<Blob, LinkError>
        ensures told { (state self.new).told ≡ (state self.old).told }
        ensures steady { Steady (state self.old) (state self.new) }
        ensures count { (state self.old).faults ≤ (state self.new).faults }
        ensures taken { IfOk result (λ piece. Takes piece (state self.old) (state self.new)) }
        ensures none_returned { OnErr result ((state self.new).pieces ≡ (state self.old).pieces) }
        ensures fault { IsErrOf result LinkError.Failed
            → Increased (state self.old).faults (state self.new).faults };

    /// Returns the number of failures so far, saturating at `u64::MAX`.
    fn faults(&self) -> u64
        ensures { result ≡ (state self.now).faults };
}
