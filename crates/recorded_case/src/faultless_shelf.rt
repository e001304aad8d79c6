// A shelf's transport without faults so far.
ghost use Rattle.std.specs.Prelude.{◌≡◌, [], IsTrue, Some, true, false};
ghost use Rattle.oci_transport.specs.FaultsOnlyWhere.{faults_only_where};
ghost use Rattle.oci_link.specs.Leads.{redirects_lead};
ghost use Rattle.oci_link.specs.State.{answering, shelf_of, state_of};
ghost use Rattle.recorded_case.specs.HasNoFaults.{HasNoFaults};

use json_values::Blob;
use oci_link::{Shelf, ShelfTransport};
use oci_transport::{AnswerHead, Conversation, LinkError, Request, Transport};
use std::alloc::Global;

/// The transport of a shelf, with the fact that no exchange of it failed.
#[derive(Drop)]
pub struct FaultlessShelf {
    transport: ShelfTransport,
    ghost quiet: { HasNoFaults transport },
}

impl FaultlessShelf {
    /// Returns a transport that responds from this shelf, whose redirects must all end.
    pub fn new(alloc: Global, shelf: Shelf) -> FaultlessShelf
        requires { IsTrue (redirects_lead shelf) }
        ensures told { (state_of result.transport).told ≡ Some [] }
        ensures faults { (state_of result.transport).faults ≡ 0 }
        ensures exact { (state_of result.transport).exact ≡ true }
        ensures table { (state_of result.transport).answers ≡ Some (answering shelf) }
        ensures shelf { shelf_of result.transport ≡ shelf }
    {
        FaultlessShelf {
            transport: ShelfTransport::new(alloc, shelf),
        }
    }

    /// Returns all exchanges so far.
    pub fn conversation(&self) -> &Conversation
        ensures told { Some result.now ≡ (state_of self.now.transport).told }
        ensures faults_recorded { IsTrue (faults_only_where (λ place. false) 0 result.now 0) }
    {
        self.transport.conversation()
    }
}

impl Transport for FaultlessShelf {
    ghost use Rattle.std.specs.Prelude.{◌≤◌, IfOk, OnErr, IsErrOf};
    ghost use Rattle.oci_transport.specs.Link.{Answers, AddsAtMost, Takes, Steady};
    ghost use Rattle.recorded_case.specs.Replay.{quiet_state_of};

    ghost state = { quiet_state_of };

    fn send(&mut self, alloc: Global, request: &Request) -> Result<AnswerHead, LinkError>
        ensures count { (quiet_state_of self.old).faults ≤ (quiet_state_of self.new).faults }
        ensures answered { IfOk result (λ head.
            Answers request.now head (quiet_state_of self.old) (quiet_state_of self.new)) }
        ensures never_fails { IsErrOf result LinkError.Failed → ⊥ }
        ensures memory { IsErrOf result LinkError.WantOfMemory
            → AddsAtMost request.now (quiet_state_of self.old) (quiet_state_of self.new) }
    {
        self.transport.send(alloc, request)
    }

    fn piece(&mut self, alloc: Global) -> Result<Blob, LinkError>
        ensures told { (quiet_state_of self.new).told ≡ (quiet_state_of self.old).told }
        ensures steady { Steady (quiet_state_of self.old) (quiet_state_of self.new) }
        ensures count { (quiet_state_of self.old).faults ≤ (quiet_state_of self.new).faults }
        ensures taken { IfOk result (λ piece. Takes piece (quiet_state_of self.old) (quiet_state_of self.new)) }
        ensures none_returned { OnErr result
            ((quiet_state_of self.new).pieces ≡ (quiet_state_of self.old).pieces) }
        ensures never_fails { IsErrOf result LinkError.Failed → ⊥ }
    {
        self.transport.piece(alloc)
    }

    fn faults(&self) -> u64 {
        self.transport.faults()
    }
}
