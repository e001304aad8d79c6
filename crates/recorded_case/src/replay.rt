// A transport that responds as a case says.
ghost use Rattle.std.specs.Prelude.{◌≡◌, [], true, IsTrue, Some};
ghost use Rattle.oci_transport.specs.FaultsOnlyWhere.{faults_only_where};
ghost use Rattle.recorded_case.specs.Registry.{Leads, answering_by};
ghost use Rattle.recorded_case.specs.Replay.{answering_of, state_of};

use crate::faultless_shelf::FaultlessShelf;
use crate::registry::Registry;
use json_values::Blob;
use oci_transport::{AnswerHead, Conversation, LinkError, Request, Script, Transport};
use std::alloc::Global;

/// Responds as the registry of a case, and exposes everything that it did. It fails only if a recorded answer says so,
/// or after the last of them.
#[derive(Drop)]
pub enum Replay {
    /// Recorded answers, in order.
    Script(Script),
    /// The response table of a shelf.
    Shelf(FaultlessShelf),
}

impl Replay {
    /// Returns a replay of this registry that has received no request yet.
    pub fn new(alloc: Global, registry: Registry) -> Replay
        requires { Leads registry }
        ensures told { (state_of result).told ≡ Some [] }
        ensures faults { (state_of result).faults ≡ 0 }
        ensures exact { (state_of result).exact ≡ true }
        ensures table { (state_of result).answers ≡ Some (answering_by registry) }
    {
        match registry {
            Registry::Answers(answers) => Replay::Script(Script::new(alloc, answers)),
            Registry::Shelf(shelf) => Replay::Shelf(FaultlessShelf::new(alloc, shelf)),
        }
    }

    /// Returns all exchanges so far.
    pub fn conversation(&self) -> &Conversation
        ensures told { Some result.now ≡ (state_of self.now).told }
        ensures faults_recorded { IsTrue
            (faults_only_where (answering_of self.now).fails 0 result.now (state_of self.now).faults) }
    {
        match self {
            Replay::Script(script) => script.conversation(),
            Replay::Shelf(shelf) => shelf.conversation(),
        }
    }
}

impl Transport for Replay {
    ghost use Rattle.std.specs.Prelude.{◌≤◌, IfOk, OnOk, OnErr, IsErrOf};
    ghost use Rattle.json_values.specs.Counts.{Increased};
    ghost use Rattle.oci_transport.specs.Link.{Answers, AddsUnanswered, AddsAtMost, LeavesRest, Takes, Steady};
    ghost use Rattle.recorded_case.specs.Replay.{state_of, IsUnanswered, FaultIsNext};

    ghost state = { state_of };

    fn send(&mut self, alloc: Global, request: &Request) -> Result<AnswerHead, LinkError>
        ensures count { (state_of self.old).faults ≤ (state_of self.new).faults }
        ensures answered { IfOk result (λ head.
            Answers request.now head (state_of self.old) (state_of self.new)) }
        ensures unanswered { IsErrOf result LinkError.Failed
            → AddsUnanswered request.now (state_of self.old) (state_of self.new) }
        ensures nothing { IsErrOf result LinkError.Failed
            → LeavesRest [] (state_of self.old) (state_of self.new) }
        ensures fault { IsErrOf result LinkError.Failed
            → Increased (state_of self.old).faults (state_of self.new).faults }
        ensures memory { IsErrOf result LinkError.WantOfMemory
            → AddsAtMost request.now (state_of self.old) (state_of self.new) }
        ensures fails { IsErrOf result LinkError.Failed → IsUnanswered self.old }
        ensures succeeds { OnOk result (IsUnanswered self.old → ⊥) }
    {
        match self {
            Replay::Script(script) => script.send(alloc, request),
            Replay::Shelf(shelf) => shelf.send(alloc, request),
        }
    }

    fn piece(&mut self, alloc: Global) -> Result<Blob, LinkError>
        ensures told { (state_of self.new).told ≡ (state_of self.old).told }
        ensures steady { Steady (state_of self.old) (state_of self.new) }
        ensures count { (state_of self.old).faults ≤ (state_of self.new).faults }
        ensures taken { IfOk result (λ piece. Takes piece (state_of self.old) (state_of self.new)) }
        ensures none_returned { OnErr result ((state_of self.new).pieces ≡ (state_of self.old).pieces) }
        ensures fault { IsErrOf result LinkError.Failed
            → Increased (state_of self.old).faults (state_of self.new).faults }
        ensures met { IsErrOf result LinkError.Failed → FaultIsNext self.old }
        ensures passed { OnOk result (FaultIsNext self.old → ⊥) }
    {
        match self {
            Replay::Script(script) => script.piece(alloc),
            Replay::Shelf(shelf) => shelf.piece(alloc),
        }
    }

    fn faults(&self) -> u64 {
        match self {
            Replay::Script(script) => script.faults(),
            Replay::Shelf(shelf) => shelf.faults(),
        }
    }
}
