// A transport that sends only requests that keep its rules.
use crate::rules::{Rules, realm_named};
use json_values::{Blob, Copied, List, Text};
use oci_transport::{AnswerHead, LinkError, Request, Transport};
use std::alloc::Global;

/// A request that was not sent, the fault count when it was refused, and the number of exchanges of the inner transport
/// since the last one.
#[derive(Drop)]
pub(crate) struct Unsent {
    pub request: Request,
    pub faults: u64,
    pub after: usize,
}

/// Sends the requests that keep its rules over its inner transport. Any other request is not sent: it is exposed as a
/// request without an answer, and counted as a fault.
#[derive(Drop)]
pub struct Guarded<T> {
    transport: T,
    rules: Rules,
    unsent: List<Unsent>,
    // Exchanges of the inner transport since the last request that was not sent.
    since: usize,
    // A send ran out of memory, so that the exchanges since then are unknown.
    lost: bool,
    // The last request was not sent.
    closed: bool,
    // The realm that the last answer named.
    realm: Option<Text>,
}

impl<T: Transport> Guarded<T> {
    ghost use Rattle.std.specs.Prelude.{◌≡◌, None};
    ghost use Rattle.oci_link.specs.Guard.{KeepsTold, IsFresh};
    ghost use Rattle.oci_link.specs.GuardState.{inside, rules_of, realm_of, state_of};

    /// Creates a guard around a transport. It exposes its exchanges if the transport does and nothing was sent over it
    /// yet.
    pub fn new(alloc: Global, transport: T, rules: Rules) -> Guarded<T>
        ensures inside { inside result ≡ transport }
        ensures rules { rules_of result ≡ rules }
        ensures realm { realm_of result ≡ None }
        ensures told { IsFresh (T.state transport) → (state_of T.state result).told ≡ (T.state transport).told }
        ensures rest { (state_of T.state result).rest ≡ (T.state transport).rest }
        ensures exact { (state_of T.state result).exact ≡ (T.state transport).exact }
    {
        Guarded {
            transport,
            rules,
            unsent: List::new(alloc),
            since: 0,
            lost: false,
            closed: false,
            realm: None,
        }
    }

    /// Returns the inner transport. Each exposed request with an answer kept the rules.
    pub fn transport(&self) -> &T
        ensures inside { result.now ≡ inside self.now }
        ensures keeps { KeepsTold (rules_of self.now) (state_of T.state self.now) }
    {
        &self.transport
    }
}

impl<T: Transport> Transport for Guarded<T> {
    ghost use Rattle.std.specs.Prelude.{◌≡◌, ◌≤◌, [], None, IfOk, OnOk, OnErr, IsErrOf};
    ghost use Rattle.json_values.specs.Counts.{Increased};
    ghost use Rattle.oci_transport.specs.Link.{Answers, AddsUnanswered, AddsAtMost, LeavesRest, Takes, Steady};
    ghost use Rattle.oci_link.specs.Guard.{KeepsTold};
    ghost use Rattle.oci_link.specs.GuardState.{Allows, inside, rules_of, realm_of, state_of};
    ghost use Rattle.oci_link.specs.Rules.{realm_named};

    ghost state = { state_of T.state };

    fn send(&mut self, alloc: Global, request: &Request) -> Result<AnswerHead, LinkError>
        ensures count { (state_of T.state self.old).faults ≤ (state_of T.state self.new).faults }
        ensures answered { IfOk result (λ head.
            Answers request.now head (state_of T.state self.old) (state_of T.state self.new)) }
        ensures unanswered { IsErrOf result LinkError.Failed
            → AddsUnanswered request.now (state_of T.state self.old) (state_of T.state self.new) }
        ensures nothing { IsErrOf result LinkError.Failed
            → LeavesRest [] (state_of T.state self.old) (state_of T.state self.new) }
        ensures fault { IsErrOf result LinkError.Failed
            → Increased (state_of T.state self.old).faults (state_of T.state self.new).faults }
        ensures memory { IsErrOf result LinkError.WantOfMemory
            → AddsAtMost request.now (state_of T.state self.old) (state_of T.state self.new) }
        ensures rules { rules_of self.new ≡ rules_of self.old }
        ensures keeps { KeepsTold (rules_of self.new) (state_of T.state self.new) }
        ensures allowed { OnOk result (Allows self.old request.now) }
        ensures sent { Allows self.old request.now → IsErrOf result LinkError.Failed
            → Increased (T.state (inside self.old)).faults (T.state (inside self.new)).faults }
        ensures unsent { ¬ (Allows self.old request.now) → inside self.new ≡ inside self.old }
        ensures realm { IfOk result (λ head. realm_of self.new ≡ realm_named request.now head.headers) }
        ensures no_realm { IsErrOf result LinkError.Failed → realm_of self.new ≡ None }
    {
        let passes = self.rules.pass(alloc, &self.realm, request)?;
        if !passes {
            if self.lost {
                return Err(LinkError::WantOfMemory);
            }
            let faults = self.faults();
            let request = request.copy(alloc)?;
            self.unsent.push(Unsent {
                request,
                faults,
                after: self.since,
            })?;
            self.since = 0;
            self.closed = true;
            self.realm = None;
            return Err(LinkError::Failed);
        }
        self.closed = false;
        self.realm = None;
        let Some(since) = self.since.checked_add(1) else {
            return Err(LinkError::WantOfMemory);
        };
        match self.transport.send(alloc, request) {
            Ok(head) => {
                self.since = since;
                self.realm = realm_named(alloc, request, &head.headers)?;
                Ok(head)
            }
            Err(LinkError::Failed) => {
                self.since = since;
                Err(LinkError::Failed)
            }
            Err(LinkError::WantOfMemory) => {
                self.lost = true;
                Err(LinkError::WantOfMemory)
            }
        }
    }

    fn piece(&mut self, alloc: Global) -> Result<Blob, LinkError>
        ensures told { (state_of T.state self.new).told ≡ (state_of T.state self.old).told }
        ensures steady { Steady (state_of T.state self.old) (state_of T.state self.new) }
        ensures count { (state_of T.state self.old).faults ≤ (state_of T.state self.new).faults }
        ensures taken { IfOk result (λ piece. Takes piece (state_of T.state self.old) (state_of T.state self.new)) }
        ensures none_returned { OnErr result
            ((state_of T.state self.new).pieces ≡ (state_of T.state self.old).pieces) }
        ensures fault { IsErrOf result LinkError.Failed
            → Increased (state_of T.state self.old).faults (state_of T.state self.new).faults }
        ensures rules { rules_of self.new ≡ rules_of self.old }
        ensures realm { realm_of self.new ≡ realm_of self.old }
        ensures inside { IsErrOf result LinkError.Failed
            → Increased (T.state (inside self.old)).faults (T.state (inside self.new)).faults }
    {
        if self.closed {
            return Ok(Blob::empty(alloc));
        }
        self.transport.piece(alloc)
    }

    fn faults(&self) -> u64 {
        self.transport
            .faults()
            .saturating_add(self.unsent.as_slice().len() as u64)
    }
}
