// Sends a request, following redirects up to the head of the last response.
ghost use Rattle.std.specs.Prelude.{◌≡◌, ◌≤◌, IfOk, IsErrOf};
ghost use Rattle.oci_protocol.specs.Follow.{Reaches, Misses, Cuts};

use crate::sender::Sender;
use json_values::Copied;
use oci_transport::{AnswerHead, LinkError, Request, Transport, redirected};
use std::alloc::Global;

/// The last request, and the head of its response.
#[derive(Drop)]
pub struct Reached {
    pub request: Request,
    pub head: AnswerHead,
}

/// Sends a request and follows its redirects, at most `times` of them. Reads no body: that of the last response can be
/// taken next.
pub fn reach<T: Transport>(
    alloc: Global,
    transport: &mut T,
    times: u64,
    request: &Request,
) -> Result<Reached, LinkError>
    ensures count { (T.state transport.old).faults ≤ (T.state transport.new).faults }
    ensures reached { IfOk result (λ r. Reaches times request.now r.head r.request
        (T.state transport.old) (T.state transport.new)) }
    ensures missed { IsErrOf result LinkError.Failed → Misses times request.now
        (T.state transport.old) (T.state transport.new) }
    ensures cut { IsErrOf result LinkError.WantOfMemory → Cuts times request.now
        (T.state transport.old) (T.state transport.new) }
{
    follow(alloc, transport, times, request)
}

// As `reach`, over a transport of which nothing can be taken: no body of a redirect is read.
fn follow<S: Sender>(
    alloc: Global,
    sender: &mut S,
    times: u64,
    request: &Request,
) -> Result<Reached, LinkError>
    ensures count { (S.state sender.old).faults ≤ (S.state sender.new).faults }
    ensures reached { IfOk result (λ r. Reaches times request.now r.head r.request
        (S.state sender.old) (S.state sender.new)) }
    ensures missed { IsErrOf result LinkError.Failed → Misses times request.now
        (S.state sender.old) (S.state sender.new) }
    ensures cut { IsErrOf result LinkError.WantOfMemory → Cuts times request.now
        (S.state sender.old) (S.state sender.new) }
{
    let mut left = times;
    let mut last = match request.copy(alloc) {
        Ok(last) => last,
        Err(_) => return Err(LinkError::WantOfMemory),
    };
    loop {
        let head = match sender.ask(alloc, &last) {
            Ok(head) => head,
            Err(LinkError::Failed) => return Err(LinkError::Failed),
            Err(LinkError::WantOfMemory) => return Err(LinkError::WantOfMemory),
        };
        if left == 0 {
            return Ok(Reached {
                request: last,
                head,
            });
        }
        match redirected(alloc, &last, &head) {
            Ok(Some(next)) => {
                last = next;
                left -= 1;
            }
            Ok(None) => {
                return Ok(Reached {
                    request: last,
                    head,
                });
            }
            Err(_) => return Err(LinkError::WantOfMemory),
        }
    }
}
