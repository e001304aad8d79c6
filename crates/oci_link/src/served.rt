// The exchanges of a shelf, and the rest of its last answer.
ghost use Rattle.std.specs.Prelude.{◌≡◌, ◌≤◌, ◌+◌, [], IsTrue, length, IfOk, OnOk, OnErr};
ghost use Rattle.oci_link.specs.Leads.{redirects_lead};

use crate::shelf::Shelf;
use crate::table::answer;
use json_values::{Blob, Copied, List, copied};
use oci_transport::{AnswerHead, Conversation, Exchange, Request};
use std::alloc::{AllocError, Global};

/// The greatest length of a piece of a body in bytes.
const PIECE: usize = 65536;

/// A shelf, the exchanges so far, the last body, and the number of its bytes that were returned.
#[derive(Drop)]
pub struct Served {
    pub shelf: Shelf,
    pub told: Conversation,
    pub body: Blob,
    pub given: usize,
    ghost lead: { IsTrue (redirects_lead shelf) },
    ghost within: { given ≤ length body },
}

impl Served {
    ghost use Rattle.oci_link.specs.Served.{IsAnswered, IsUnanswered, GivesPiece};

    /// Creates the state of a shelf before any request.
    pub fn new(alloc: Global, shelf: Shelf) -> Served
        requires { IsTrue (redirects_lead shelf) }
        ensures shelf { result.shelf ≡ shelf }
        ensures told { result.told ≡ [] }
    {
        Served {
            shelf,
            told: List::new(alloc),
            body: Blob::empty(alloc),
            given: 0,
        }
    }

    /// Answers by the table.
    pub fn answered(
        &mut self,
        alloc: Global,
        request: &Request,
        faults: u64,
    ) -> Result<AnswerHead, AllocError>
        ensures ok { IfOk result (λ head. IsAnswered request.now head faults self.old self.new) }
        ensures err { OnErr result (self.new ≡ self.old) }
    {
        let request = request.copy(alloc)?;
        let answer = answer(alloc, &self.shelf, &request)?;
        let status = answer.status;
        let headers = answer.headers.copy(alloc)?;
        let body = answer.body.copy(alloc)?;
        self.told.push(Exchange {
            request,
            answer: Some(answer),
            faults,
        })?;
        self.body = body;
        self.given = 0;
        Ok(AnswerHead { status, headers })
    }

    /// Adds a request that failed.
    pub fn unanswered(
        &mut self,
        alloc: Global,
        request: &Request,
        faults: u64,
    ) -> Result<(), AllocError>
        ensures ok { OnOk result (IsUnanswered request.now faults self.old self.new) }
        ensures err { OnErr result (self.new ≡ self.old) }
    {
        let request = request.copy(alloc)?;
        self.told.push(Exchange {
            request,
            answer: None,
            faults,
        })?;
        self.body = Blob::empty(alloc);
        self.given = 0;
        Ok(())
    }

    /// Returns the next piece of the last body, which is empty if nothing is left.
    pub fn next(&mut self, alloc: Global) -> Result<Blob, AllocError>
        ensures ok { IfOk result (λ piece. GivesPiece piece self.old self.new) }
        ensures err { OnErr result (self.new ≡ self.old) }
    {
        let (_, left) = self.body.as_slice().split_at(self.given);
        let count = left.len().min(PIECE);
        let piece = Blob::new(alloc, left.split_at(count).0)?;
        self.given += count;
        Ok(piece)
    }
}

impl Copied for Served {
    fn copy(&self, alloc: Global) -> Result<Served, AllocError> {
        copied!(
            alloc,
            self,
            Served {
                shelf,
                told,
                body,
                given
            }
        )
    }
}
