// A transport over a source and a sink.
ghost use Rattle.live_link.specs.State.{Holds, exchanges_by};

use crate::asking::{ask_piece, ask_request};
use crate::requests::{more_object, request_object};
use crate::stage::{Breach, Heard, Stage};
use byte_streams::{Sink, Source};
use http_server::Log;
use json_values::Blob;
use oci_transport::{AnswerHead, LinkError, Request, Transport};
use std::alloc::Global;

/// Sends requests as frames to a sink, and reads their responses as frames from a source: the owner of the other ends
/// makes the connections. Once a frame is malformed, out of turn or truncated, nothing more is sent.
#[derive(Drop)]
pub struct StreamTransport<S: Source, K: Sink> {
    source: S,
    sink: K,
    stage: Stage,
    faults: u64,
    // For proofs only: the streams at the beginning, and each exchange with the source as it was when the head of its
    // response was read.
    began: Log<S, K>,
    heard: Log<S, Log<Request, Heard>>,
    ghost spoken: { ∥ Holds S.state K.state began.items source sink stage (exchanges_by S.state heard.items) ∥₁ },
}

impl<S: Source, K: Sink> StreamTransport<S, K> {
    ghost use Rattle.std.specs.Prelude.{◌≡◌, ℕ, true, List, [], ◌∷◌, Some, None};
    ghost use Rattle.oci_transport.specs.declared.message.Exchange.{Exchange};
    ghost use Rattle.live_link.specs.State.{opening, told_from, Held};
    ghost use Rattle.live_link.specs.Shown.{state_of, breach_of};

    /// Returns a transport over these streams, over which nothing was sent yet.
    pub fn new(source: S, sink: K) -> StreamTransport<S, K>
        ensures told { (state_of result).told ≡ told_from (K.state sink).taken (S.state source).left [] }
        ensures faults { (state_of result).faults ≡ 0 }
        ensures exact { (state_of result).exact ≡ true }
        ensures breach { breach_of result ≡ None }
    {
        let began = Log::new().and(&source, &sink);
        StreamTransport {
            source,
            sink,
            stage: Stage::Ended,
            faults: 0,
            began,
            heard: Log::new(),
        }
    }

    /// Returns why nothing more is sent, or `None` if requests are still sent.
    pub fn breach(&self) -> Option<Breach>
        ensures { result ≡ breach_of self.now }
    {
        match self.stage {
            Stage::Broken(breach) => Some(breach),
            _ => None,
        }
    }

    /// Returns the streams. The bytes sent and received since the beginning are the frames of the exposed exchanges; if
    /// the streams broke (`breach`), a prefix of one more frame was sent after them, and any bytes were received.
    pub fn finish(self) -> (S, K)
        ensures transcript { (taken left : List ℕ) (c : List Exchange)
            → (state_of self).told ≡ Some (opening taken left ∷ c)
            → ∥ Held taken left (K.state result.1) (S.state result.0) (breach_of self) c ∥₁ }
    {
        let StreamTransport { source, sink, .. } = self;
        (source, sink)
    }
}

impl<S: Source, K: Sink> Transport for StreamTransport<S, K> {
    ghost use Rattle.live_link.specs.Shown.{state_of};

    ghost state = { state_of };

    fn send(&mut self, alloc: Global, request: &Request) -> Result<AnswerHead, LinkError> {
        let object = request_object(alloc, request)?;
        let (stage, head) = ask_request(
            alloc,
            &mut self.source,
            &mut self.sink,
            self.stage,
            request,
            &object,
        );
        self.stage = stage;
        let heard = Heard {
            head,
            faults: self.faults,
        };
        let entry = Log::new().and(request, &heard);
        self.heard = self.heard.and(&self.source, &entry);
        let Heard { head, .. } = heard;
        let Some(head) = head else {
            self.faults = self.faults.saturating_add(1);
            return Err(LinkError::Failed);
        };
        Ok(head)
    }

    fn piece(&mut self, alloc: Global) -> Result<Blob, LinkError> {
        match self.stage {
            Stage::Ended => return Ok(Blob::empty(alloc)),
            Stage::Open => {}
            _ => {
                self.faults = self.faults.saturating_add(1);
                return Err(LinkError::Failed);
            }
        }
        let object = more_object(alloc)?;
        let (stage, piece) = ask_piece(alloc, &mut self.source, &mut self.sink, &object);
        self.stage = stage;
        let Some(piece) = piece else {
            self.faults = self.faults.saturating_add(1);
            return Err(LinkError::Failed);
        };
        Ok(piece)
    }

    fn faults(&self) -> u64 {
        self.faults
    }
}
