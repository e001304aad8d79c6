// One request, whose redirects are not followed, and its complete answer.
ghost use Rattle.std.specs.Prelude.{◌≡◌, true, false, Bool};
ghost use Rattle.oci_transport.specs.Link.{answer_of};
ghost use Rattle.oci_protocol.specs.Runs.{Meets};
ghost use Rattle.sig_services.specs.Exchange.{whole};

use json_values::Blob;
use oci_protocol::reach;
use oci_transport::{Answer, AnswerHead, BodyError, LinkError, Request, Transport, read_body};
use std::alloc::Global;

/// How a call names the errors of its exchange.
pub trait Refusal: Sized {
    ghost link: { Self };

    ghost too_long: { Self };

    ghost memory: { Self };

    /// Whether an error is out of memory.
    ghost is_memory: { Self → Bool };

    ghost not_link: { is_memory link ≡ false };

    ghost not_long: { is_memory too_long ≡ false };

    ghost of_memory: { is_memory memory ≡ true };

    /// Returns the error of a failed transport.
    fn link() -> Self
        ensures { result ≡ link };

    /// Returns the error of a body with more bytes than the limit.
    fn too_long() -> Self
        ensures { result ≡ too_long };

    /// Returns the out-of-memory error.
    fn memory() -> Self
        ensures { result ≡ memory };
}

fn whole_answer(head: AnswerHead, body: Blob) -> Answer
    ensures { result ≡ answer_of head body }
{
    let AnswerHead { status, headers } = head;
    Answer {
        status,
        headers,
        body,
    }
}

/// Returns the answer to this request, with any status; redirects are not followed.
#[tactic(none)]
pub(crate) fn exchange<T: Transport, F: Refusal>(
    alloc: Global,
    transport: &mut T,
    limit: u64,
    request: &Request,
) -> Result<Answer, F>
    ensures { (k : Unit {0}) → Meets F.is_memory (whole F.link F.too_long limit request.now)
        (T.state transport.old) (T.state transport.new) k k result }
{
    let reached = match reach(alloc, transport, 0, request) {
        Ok(reached) => reached,
        Err(LinkError::Failed) => return Err(F::link()),
        Err(LinkError::WantOfMemory) => return Err(F::memory()),
    };
    match read_body(alloc, transport, limit) {
        Ok(body) => Ok(whole_answer(reached.head, body)),
        Err(BodyError::TransportFault) => Err(F::link()),
        Err(BodyError::BodyTooLong) => Err(F::too_long()),
        Err(BodyError::WantOfMemory) => Err(F::memory()),
    }
}
