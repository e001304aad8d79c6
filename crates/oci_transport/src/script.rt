// A transport of recorded answers.
ghost use Rattle.std.specs.Prelude.{◌≡◌, IsTrue, ℕ, ◌+◌, ◌<◌, ◌≤◌, [], length, slice_get, All, IfOk, OnOk, OnErr};
ghost use Rattle.std.specs.Prelude.{IsErrOf, Some, None};
ghost use Rattle.oci_transport.specs.Recorded.{FaultsOnlyWhereRecorded, HasMet};
ghost use Rattle.oci_transport.specs.Pieces.{NoneEmpty, joined};
ghost use Rattle.oci_transport.specs.Recorded.{answering, recorded_answer, last_pieces, last_stop, stop_within};

use crate::message::{Answer, AnswerHead, Conversation, Exchange, Request};
use crate::recorded::Recorded;
use crate::transport::{LinkError, Transport};
use json_values::{Blob, Copied, List, copied};
use std::alloc::{AllocError, Global};

/// Returns its answers in order, for any requests, and fails after the last of them. It exposes all that it did.
#[derive(Drop)]
pub struct Script {
    answers: List<Recorded>,
    told: Conversation,
    given: usize,
    stopped: bool,
    faults: u64,
    ghost faults_recorded: { FaultsOnlyWhereRecorded answers told faults },
    ghost met: { HasMet answers told given stopped faults },
}

impl Script {
    ghost use Rattle.std.specs.Prelude.{true};
    ghost use Rattle.oci_transport.specs.Script.{state_of, answers_of, stop_of};

    /// Creates a script of these answers.
    pub fn new(alloc: Global, answers: List<Recorded>) -> Script
        ensures told { (state_of result).told ≡ Some [] }
        ensures faults { (state_of result).faults ≡ 0 }
        ensures exact { (state_of result).exact ≡ true }
        ensures table { (state_of result).answers ≡ Some (answering answers) }
        ensures answers { answers_of result ≡ answers }
    {
        Script {
            answers,
            told: List::new(alloc),
            given: 0,
            stopped: false,
            faults: 0,
        }
    }

    // Returns before how many pieces of the last answer a call will fail.
    fn stop(&self) -> Option<u64>
        ensures { result ≡ stop_of self.now }
    {
        if self.stopped {
            return None;
        }
        last_stop(self.answers.as_slice(), self.told.as_slice().len())
    }

    /// Returns all exchanges so far.
    pub fn conversation(&self) -> &Conversation
        ensures told { Some result.now ≡ (state_of self.now).told }
        ensures faults_recorded { FaultsOnlyWhereRecorded (answers_of self.now) result.now (state_of self.now).faults }
    {
        &self.told
    }
}

impl Copied for Script {
    fn copy(&self, alloc: Global) -> Result<Script, AllocError> {
        copied!(
            alloc,
            self,
            Script {
                answers,
                told,
                given,
                stopped,
                faults
            }
        )
    }
}

impl Transport for Script {
    ghost use Rattle.std.specs.Prelude.{◌⊎◌};
    ghost use Rattle.json_values.specs.Counts.{Increased, incremented};
    ghost use Rattle.oci_transport.specs.Link.{Answers, AddsUnanswered, AddsAtMost, LeavesRest, Takes, Steady};
    ghost use Rattle.oci_transport.specs.Script.{state_of, answers_of, given_of, stop_of};
    ghost use Rattle.oci_transport.specs.Script.{next_answer, next_stop, StopsAt, Continues};

    ghost state = { state_of };

    fn send(&mut self, alloc: Global, request: &Request) -> Result<AnswerHead, LinkError>
        ensures count { (state_of self.old).faults ≤ (state_of self.new).faults }
        ensures answered { IfOk result (λ head.
            Answers request.now head (state_of self.old) (state_of self.new)) }
        ensures unanswered { IsErrOf result LinkError.Failed
            → AddsUnanswered request.now (state_of self.old) (state_of self.new) }
        ensures nothing { IsErrOf result LinkError.Failed
            → LeavesRest [] (state_of self.old) (state_of self.new) }
        ensures fails { IsErrOf result LinkError.Failed → next_answer self.old ≡ None }
        ensures succeeds { OnOk result (next_answer self.old ≡ None → ⊥) }
        ensures counts_one { IsErrOf result LinkError.Failed
            → (state_of self.new).faults ≡ incremented (state_of self.old).faults }
        ensures fault { IsErrOf result LinkError.Failed
            → Increased (state_of self.old).faults (state_of self.new).faults }
        ensures no_fault { OnOk result ((state_of self.new).faults ≡ (state_of self.old).faults) }
        ensures memory { IsErrOf result LinkError.WantOfMemory → self.new ≡ self.old }
        ensures answers { answers_of self.new ≡ answers_of self.old }
        ensures given { OnOk result (given_of self.new ≡ 0) }
        ensures stop { OnOk result (stop_of self.new ≡ next_stop self.old) }
    {
        let faults = self.faults;
        let place = self.told.as_slice().len();
        let request = request.copy(alloc)?;
        match recorded_answer(alloc, self.answers.as_slice(), place)? {
            Some(answer) => {
                let headers = answer.headers.copy(alloc)?;
                let head = AnswerHead {
                    status: answer.status,
                    headers,
                };
                self.told.push(Exchange {
                    request,
                    answer: Some(answer),
                    faults,
                })?;
                self.given = 0;
                self.stopped = false;
                Ok(head)
            }
            None => {
                self.told.push(Exchange {
                    request,
                    answer: None,
                    faults,
                })?;
                self.given = 0;
                self.stopped = false;
                self.faults = faults.saturating_add(1);
                Err(LinkError::Failed)
            }
        }
    }

    fn piece(&mut self, alloc: Global) -> Result<Blob, LinkError>
        ensures told { (state_of self.new).told ≡ (state_of self.old).told }
        ensures steady { Steady (state_of self.old) (state_of self.new) }
        ensures count { (state_of self.old).faults ≤ (state_of self.new).faults }
        ensures taken { IfOk result (λ piece. Takes piece (state_of self.old) (state_of self.new)) }
        ensures none_returned { OnErr result ((state_of self.new).pieces ≡ (state_of self.old).pieces) }
        ensures continues { IfOk result (λ piece. Continues piece self.old self.new) }
        ensures counts_one { IsErrOf result LinkError.Failed
            → (state_of self.new).faults ≡ incremented (state_of self.old).faults }
        ensures fault { IsErrOf result LinkError.Failed
            → Increased (state_of self.old).faults (state_of self.new).faults }
        ensures no_fault { OnOk result ((state_of self.new).faults ≡ (state_of self.old).faults) }
        ensures memory { IsErrOf result LinkError.WantOfMemory → self.new ≡ self.old }
        ensures answers { answers_of self.new ≡ answers_of self.old }
        ensures stops { IsErrOf result LinkError.Failed → StopsAt self.old self.new }
        ensures succeeds { OnOk result
            ((stop_of self.old ≡ Some (given_of self.old) → ⊥) × (stop_of self.new ≡ stop_of self.old)) }
        ensures given { IfOk result (λ piece.
            0 < length piece → given_of self.new ≡ given_of self.old + 1) }
        ensures ended { IfOk result (λ piece. length piece ≡ 0 → self.new ≡ self.old) }
    {
        if self.stop() == Some(self.given as u64) {
            self.stopped = true;
            self.faults = self.faults.saturating_add(1);
            return Err(LinkError::Failed);
        }
        let pieces = last_pieces(self.answers.as_slice(), self.told.as_slice().len());
        if self.given < pieces.len() {
            let piece = pieces[self.given].copy(alloc)?;
            self.given += 1;
            return Ok(piece);
        }
        Ok(Blob::empty(alloc))
    }

    fn faults(&self) -> u64 {
        self.faults
    }
}

// Returns the answer at this index, its body in one piece. Returns `None` if the send fails or the list has ended.
fn recorded_answer(
    alloc: Global,
    answers: &[Recorded],
    place: usize,
) -> Result<Option<Answer>, AllocError>
    ensures { IfOk result (λ answer. answer ≡ recorded_answer (slice_get answers.now place)) }
{
    match answers.get(place) {
        Some(recorded) => {
            if recorded.fails {
                return Ok(None);
            }
            let headers = recorded.headers.copy(alloc)?;
            let body = join(alloc, recorded.pieces.as_slice())?;
            Ok(Some(Answer {
                status: recorded.status,
                headers,
                body,
            }))
        }
        None => Ok(None),
    }
}

// Joins the pieces.
fn join(alloc: Global, pieces: &[Blob]) -> Result<Blob, AllocError>
    ensures { IfOk result (λ body. body ≡ joined pieces.now) }
{
    let mut body = Blob::empty(alloc);
    for piece in pieces {
        body.append(piece.as_slice())?;
    }
    Ok(body)
}

// Returns the pieces of the last answer, given the number of requests sent.
fn last_pieces(answers: &[Recorded], sent: usize) -> &[Blob]
    ensures pieces { result.now ≡ last_pieces answers.now sent }
    ensures none_empty { NoneEmpty result.now }
{
    if sent == 0 {
        return &[];
    }
    match answers.get(sent - 1) {
        Some(recorded) => {
            if recorded.fails {
                return &[];
            }
            recorded.pieces.as_slice()
        }
        None => &[],
    }
}

// Returns before how many pieces of the last answer a call fails.
fn last_stop(answers: &[Recorded], sent: usize) -> Option<u64>
    ensures { result ≡ last_stop answers.now sent }
{
    if sent == 0 {
        return None;
    }
    match answers.get(sent - 1) {
        Some(recorded) => {
            if recorded.fails {
                return None;
            }
            stop_within(recorded.fails_before, recorded.pieces.as_slice().len())
        }
        None => None,
    }
}

// Returns the number, if there are that many pieces.
fn stop_within(fails_before: Option<u64>, pieces: usize) -> Option<u64>
    ensures { result ≡ stop_within fails_before pieces }
{
    match fails_before {
        Some(count) if count <= pieces as u64 => Some(count),
        _ => None,
    }
}
