// The transport of a shelf.
ghost use Rattle.std.specs.Prelude.{◌≡◌, ◌≤◌, [], IsTrue, Some};
ghost use Rattle.oci_link.specs.Leads.{redirects_lead};

use crate::served::Served;
use crate::shelf::Shelf;
use json_values::{Blob, Copied};
use oci_transport::{AnswerHead, Conversation, LinkError, Request, Transport};
use std::alloc::{AllocError, Global};

/// Answers by the table of its shelf, in pieces of at most 65536 bytes, exposes everything, and never fails.
#[derive(Drop)]
pub struct ShelfTransport {
    served: Served,
}

impl ShelfTransport {
    ghost use Rattle.std.specs.Prelude.{true};
    ghost use Rattle.oci_link.specs.State.{answering, shelf_of, state_of};

    /// Creates a transport of this shelf, whose redirects must lead (`Shelf::redirects_lead`).
    pub fn new(alloc: Global, shelf: Shelf) -> ShelfTransport
        requires { IsTrue (redirects_lead shelf) }
        ensures shelf { shelf_of result ≡ shelf }
        ensures told { (state_of result).told ≡ Some [] }
        ensures faults { (state_of result).faults ≡ 0 }
        ensures exact { (state_of result).exact ≡ true }
        ensures table { (state_of result).answers ≡ Some (answering shelf) }
    {
        ShelfTransport {
            served: Served::new(alloc, shelf),
        }
    }

    /// Returns all exchanges so far.
    pub fn conversation(&self) -> &Conversation
        ensures { Some result.now ≡ (state_of self.now).told }
    {
        &self.served.told
    }
}

impl Copied for ShelfTransport {
    fn copy(&self, alloc: Global) -> Result<ShelfTransport, AllocError> {
        let served = self.served.copy(alloc)?;
        Ok(ShelfTransport { served })
    }
}

impl Transport for ShelfTransport {
    ghost use Rattle.std.specs.Prelude.{IfOk, IsErrOf};
    ghost use Rattle.json_values.specs.Counts.{Increased};
    ghost use Rattle.oci_transport.specs.Link.{Answers, AddsUnanswered, AddsAtMost, LeavesRest, Takes, Steady};
    ghost use Rattle.oci_link.specs.Served.{IsPieceOf};
    ghost use Rattle.oci_link.specs.State.{shelf_of, state_of};

    ghost state = { state_of };

    fn send(&mut self, alloc: Global, request: &Request) -> Result<AnswerHead, LinkError>
        ensures shelf { shelf_of self.new ≡ shelf_of self.old }
        ensures answered { IfOk result (λ head.
            Answers request.now head (state_of self.old) (state_of self.new)) }
        ensures never_fails { IsErrOf result LinkError.Failed → ⊥ }
        ensures memory { IsErrOf result LinkError.WantOfMemory → self.new ≡ self.old }
        ensures at_most { IsErrOf result LinkError.WantOfMemory
            → AddsAtMost request.now (state_of self.old) (state_of self.new) }
    {
        let head = self.served.answered(alloc, request, 0)?;
        Ok(head)
    }

    fn piece(&mut self, alloc: Global) -> Result<Blob, LinkError>
        ensures shelf { shelf_of self.new ≡ shelf_of self.old }
        ensures told { (state_of self.new).told ≡ (state_of self.old).told }
        ensures steady { Steady (state_of self.old) (state_of self.new) }
        ensures taken { IfOk result (λ piece. Takes piece (state_of self.old) (state_of self.new)) }
        ensures size { IfOk result (λ piece. IsPieceOf piece (state_of self.old)) }
        ensures never_fails { IsErrOf result LinkError.Failed → ⊥ }
        ensures memory { IsErrOf result LinkError.WantOfMemory → self.new ≡ self.old }
    {
        let piece = self.served.next(alloc)?;
        Ok(piece)
    }

    fn faults(&self) -> u64 {
        0
    }
}
