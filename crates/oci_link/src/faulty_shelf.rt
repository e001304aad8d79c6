// A shelf's transport that fails at given calls.
ghost use Rattle.std.specs.Prelude.{◌≡◌, ◌≤◌, [], IsTrue, Some};
ghost use Rattle.oci_link.specs.Leads.{redirects_lead};
ghost use Rattle.oci_link.specs.State.{is_among};

use crate::served::Served;
use crate::shelf::Shelf;
use json_values::{Blob, Copied, List, copied};
use oci_transport::{AnswerHead, Conversation, LinkError, Request, Transport};
use std::alloc::{AllocError, Global};

/// Answers as a `ShelfTransport`, but fails at the sends and at the calls for a piece with the given numbers, counted
/// from 0. Calls that run out of memory are not counted.
#[derive(Drop)]
pub struct FaultyShelf {
    served: Served,
    sends: List<u64>,
    pieces: List<u64>,
    calls: u64,
    faults: u64,
}

fn is_among(number: u64, numbers: &[u64]) -> bool
    ensures { result ≡ is_among number numbers.now }
{
    numbers.iter().any(|other| *other == number)
}

impl FaultyShelf {
    ghost use Rattle.oci_link.specs.State.{failing, faulty_shelf_of, failing_sends, failing_pieces, next_piece};
    ghost use Rattle.oci_link.specs.State.{faulty_state_of};
    ghost use Rattle.std.specs.Prelude.{true};

    /// Creates a transport that fails at these numbers of sends and of calls for a piece. The redirects of the shelf
    /// must lead (`Shelf::redirects_lead`).
    pub fn new(alloc: Global, shelf: Shelf, sends: List<u64>, pieces: List<u64>) -> FaultyShelf
        requires { IsTrue (redirects_lead shelf) }
        ensures shelf { faulty_shelf_of result ≡ shelf }
        ensures sends { failing_sends result ≡ sends }
        ensures pieces { failing_pieces result ≡ pieces }
        ensures calls { next_piece result ≡ 0 }
        ensures told { (faulty_state_of result).told ≡ Some [] }
        ensures faults { (faulty_state_of result).faults ≡ 0 }
        ensures exact { (faulty_state_of result).exact ≡ true }
        ensures table { (faulty_state_of result).answers ≡ Some (failing shelf sends pieces) }
    {
        FaultyShelf {
            served: Served::new(alloc, shelf),
            sends,
            pieces,
            calls: 0,
            faults: 0,
        }
    }

    /// Returns all exchanges so far.
    pub fn conversation(&self) -> &Conversation
        ensures { Some result.now ≡ (faulty_state_of self.now).told }
    {
        &self.served.told
    }
}

impl Copied for FaultyShelf {
    fn copy(&self, alloc: Global) -> Result<FaultyShelf, AllocError> {
        copied!(
            alloc,
            self,
            FaultyShelf {
                served,
                sends,
                pieces,
                calls,
                faults
            }
        )
    }
}

impl Transport for FaultyShelf {
    ghost use Rattle.std.specs.Prelude.{true, false, IfOk, OnOk, IsErrOf};
    ghost use Rattle.json_values.specs.Counts.{Increased, incremented};
    ghost use Rattle.oci_transport.specs.Link.{Answers, AddsUnanswered, AddsAtMost, LeavesRest, Takes, Steady};
    ghost use Rattle.oci_link.specs.Served.{IsPieceOf};
    ghost use Rattle.oci_link.specs.State.{faulty_shelf_of, failing_sends, failing_pieces, next_send, next_piece};
    ghost use Rattle.oci_link.specs.State.{faulty_state_of};

    ghost state = { faulty_state_of };

    fn send(&mut self, alloc: Global, request: &Request) -> Result<AnswerHead, LinkError>
        ensures shelf { faulty_shelf_of self.new ≡ faulty_shelf_of self.old }
        ensures sends { failing_sends self.new ≡ failing_sends self.old }
        ensures pieces { failing_pieces self.new ≡ failing_pieces self.old }
        ensures calls { next_piece self.new ≡ next_piece self.old }
        ensures count { (faulty_state_of self.old).faults ≤ (faulty_state_of self.new).faults }
        ensures answered { IfOk result (λ head.
            Answers request.now head (faulty_state_of self.old) (faulty_state_of self.new)) }
        ensures unanswered { IsErrOf result LinkError.Failed
            → AddsUnanswered request.now (faulty_state_of self.old) (faulty_state_of self.new) }
        ensures nothing { IsErrOf result LinkError.Failed
            → LeavesRest [] (faulty_state_of self.old) (faulty_state_of self.new) }
        ensures fails { IsErrOf result LinkError.Failed
            → is_among (next_send self.old) (failing_sends self.old) ≡ true }
        ensures succeeds { OnOk result
            (is_among (next_send self.old) (failing_sends self.old) ≡ false) }
        ensures counts_one { IsErrOf result LinkError.Failed
            → (faulty_state_of self.new).faults ≡ incremented (faulty_state_of self.old).faults }
        ensures fault { IsErrOf result LinkError.Failed
            → Increased (faulty_state_of self.old).faults (faulty_state_of self.new).faults }
        ensures no_fault { OnOk result
            ((faulty_state_of self.new).faults ≡ (faulty_state_of self.old).faults) }
        ensures memory { IsErrOf result LinkError.WantOfMemory → self.new ≡ self.old }
        ensures at_most { IsErrOf result LinkError.WantOfMemory
            → AddsAtMost request.now (faulty_state_of self.old) (faulty_state_of self.new) }
    {
        let faults = self.faults;
        let number = self.served.told.as_slice().len() as u64;
        if is_among(number, self.sends.as_slice()) {
            self.served.unanswered(alloc, request, faults)?;
            self.faults = faults.saturating_add(1);
            return Err(LinkError::Failed);
        }
        let head = self.served.answered(alloc, request, faults)?;
        Ok(head)
    }

    fn piece(&mut self, alloc: Global) -> Result<Blob, LinkError>
        ensures shelf { faulty_shelf_of self.new ≡ faulty_shelf_of self.old }
        ensures sends { failing_sends self.new ≡ failing_sends self.old }
        ensures pieces { failing_pieces self.new ≡ failing_pieces self.old }
        ensures calls { OnOk result (next_piece self.new ≡ incremented (next_piece self.old)) }
        ensures called { IsErrOf result LinkError.Failed
            → next_piece self.new ≡ incremented (next_piece self.old) }
        ensures told { (faulty_state_of self.new).told ≡ (faulty_state_of self.old).told }
        ensures steady { Steady (faulty_state_of self.old) (faulty_state_of self.new) }
        ensures count { (faulty_state_of self.old).faults ≤ (faulty_state_of self.new).faults }
        ensures taken { IfOk result (λ piece.
            Takes piece (faulty_state_of self.old) (faulty_state_of self.new)) }
        ensures size { IfOk result (λ piece. IsPieceOf piece (faulty_state_of self.old)) }
        ensures stays { IsErrOf result LinkError.Failed
            → (faulty_state_of self.new).rest ≡ (faulty_state_of self.old).rest }
        ensures fails { IsErrOf result LinkError.Failed
            → is_among (next_piece self.old) (failing_pieces self.old) ≡ true }
        ensures succeeds { OnOk result
            (is_among (next_piece self.old) (failing_pieces self.old) ≡ false) }
        ensures counts_one { IsErrOf result LinkError.Failed
            → (faulty_state_of self.new).faults ≡ incremented (faulty_state_of self.old).faults }
        ensures fault { IsErrOf result LinkError.Failed
            → Increased (faulty_state_of self.old).faults (faulty_state_of self.new).faults }
        ensures no_fault { OnOk result
            ((faulty_state_of self.new).faults ≡ (faulty_state_of self.old).faults) }
        ensures memory { IsErrOf result LinkError.WantOfMemory → self.new ≡ self.old }
    {
        if is_among(self.calls, self.pieces.as_slice()) {
            self.calls = self.calls.saturating_add(1);
            self.faults = self.faults.saturating_add(1);
            return Err(LinkError::Failed);
        }
        let piece = self.served.next(alloc)?;
        self.calls = self.calls.saturating_add(1);
        Ok(piece)
    }

    fn faults(&self) -> u64 {
        self.faults
    }
}
