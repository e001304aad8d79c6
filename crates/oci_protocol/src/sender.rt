// A transport from which no body can be read.
ghost use Rattle.std.specs.Prelude.{◌≡◌, ◌≤◌, IfOk, IsErrOf};
ghost use Rattle.json_values.specs.Counts.{Increased};
ghost use Rattle.oci_transport.specs.Link.{Link, Answers, AddsUnanswered, AddsAtMost};

use oci_transport::{AnswerHead, LinkError, Request, Transport};
use std::alloc::Global;

/// A transport whose user must read no body: it sends, but has no call for a piece of a response's body.
pub trait Sender {
    ghost state: { Self → Link };

    /// Sends a request as the transport does. The body of the response cannot be taken.
    fn ask(&mut self, alloc: Global, request: &Request) -> Result<AnswerHead, LinkError>
        ensures count { (state self.old).faults ≤ (state self.new).faults }
        ensures answered { IfOk result (λ head. Answers request.now head (state self.old) (state self.new)) }
        ensures unanswered { IsErrOf result LinkError.Failed
            → AddsUnanswered request.now (state self.old) (state self.new) }
        ensures fault { IsErrOf result LinkError.Failed → Increased (state self.old).faults (state self.new).faults }
        ensures memory { IsErrOf result LinkError.WantOfMemory
            → AddsAtMost request.now (state self.old) (state self.new) };
}

impl<T: Transport> Sender for T {
    ghost state = { T.state };

    fn ask(&mut self, alloc: Global, request: &Request) -> Result<AnswerHead, LinkError> {
        self.send(alloc, request)
    }
}
