// Ways to send a request, as steps of a row.
ghost use Rattle.std.specs.Prelude.{◌≡◌, IfOk};
ghost use Rattle.oci_auth.specs.declared.auth_state.AuthState.{AuthState};
ghost use Rattle.oci_transport.specs.Link.{answer_of};
ghost use Rattle.oci_protocol.specs.Runs.{Meets};
ghost use Rattle.engine_terms.specs.Error.{is_memory};
ghost use Rattle.engine_rows.specs.Rows.{whole, head_after, named_after};
ghost use Rattle.engine_steps.specs.BodyUnread.{BodyUnread, BodyUnreadUnnamed};

use engine_answers::{Got, header_digest};
use engine_rows::NamedAnswer;
use engine_terms::OciDistributionError;
use json_values::{Blob, Copied};
use oci_protocol::{Reached, reach};
use oci_transport::{Answer, AnswerHead, BodyError, LinkError, Request, Transport, read_body};
use std::alloc::{AllocError, Global};

// Returns the last response, with its body.
pub(crate) fn with_body(reached: Reached, body: Blob) -> Got
    ensures { result ≡ record { url = reached.request.url; answer = answer_of reached.head body } }
{
    let Reached { request, head } = reached;
    let Request { url, .. } = request;
    let AnswerHead { status, headers } = head;
    Got {
        url,
        answer: Answer {
            status,
            headers,
            body,
        },
    }
}

/// Sends a request, following at most `times` redirects, and returns the whole last response.
#[tactic(auto, using(crate::proofs::HelperTrees::whole_answers))]
pub fn whole<T: Transport>(
    alloc: Global,
    transport: &mut T,
    times: u64,
    request: &Request,
    limit: u64,
) -> Result<Got, OciDistributionError>
    ensures { (k : AuthState) → Meets is_memory (whole times request.now limit)
        (T.state transport.old) (T.state transport.new) k k result }
{
    let reached = match reach(alloc, transport, times, request) {
        Ok(reached) => reached,
        Err(LinkError::Failed) => return Err(OciDistributionError::TransportFault),
        Err(LinkError::WantOfMemory) => return Err(OciDistributionError::WantOfMemory),
    };
    match read_body(alloc, transport, limit) {
        Ok(body) => Ok(with_body(reached, body)),
        Err(BodyError::TransportFault) => Err(OciDistributionError::TransportFault),
        Err(BodyError::BodyTooLong) => Err(OciDistributionError::BodyTooLong),
        Err(BodyError::WantOfMemory) => Err(OciDistributionError::WantOfMemory),
    }
}

/// Returns the head of the last response, whose body is not read.
#[tactic(auto, using(crate::proofs::HelperTrees::head_answers))]
pub(crate) fn head_after<T: Transport>(
    alloc: Global,
    transport: &mut T,
    times: u64,
    request: &Request,
) -> Result<AnswerHead, OciDistributionError>
    ensures run { (k : AuthState) → Meets is_memory (head_after times request.now)
        (T.state transport.old) (T.state transport.new) k k result }
    ensures body_unread { IfOk result (λ head. BodyUnread head (T.state transport.old) (T.state transport.new)) }
{
    match reach(alloc, transport, times, request) {
        Ok(reached) => Ok(reached.head),
        Err(LinkError::Failed) => Err(OciDistributionError::TransportFault),
        Err(LinkError::WantOfMemory) => Err(OciDistributionError::WantOfMemory),
    }
}

/// Returns the whole last response, if its header names a digest. Otherwise the body is not read.
#[tactic(none)]
pub fn named_after<T: Transport>(
    alloc: Global,
    transport: &mut T,
    times: u64,
    request: &Request,
    limit: u64,
) -> Result<NamedAnswer, OciDistributionError>
    ensures run { (k : AuthState) → Meets is_memory (named_after times request.now limit)
        (T.state transport.old) (T.state transport.new) k k result }
    ensures body_unread { IfOk result (λ named. BodyUnreadUnnamed named
        (T.state transport.old) (T.state transport.new)) }
{
    let reached = match reach(alloc, transport, times, request) {
        Ok(reached) => reached,
        Err(LinkError::Failed) => return Err(OciDistributionError::TransportFault),
        Err(LinkError::WantOfMemory) => return Err(OciDistributionError::WantOfMemory),
    };
    let Some(digest) = header_digest(alloc, &reached.head.headers)? else {
        return Ok(NamedAnswer::Unnamed);
    };
    match read_body(alloc, transport, limit) {
        Ok(body) => Ok(NamedAnswer::ByHeader(digest, with_body(reached, body))),
        Err(BodyError::TransportFault) => Err(OciDistributionError::TransportFault),
        Err(BodyError::BodyTooLong) => Err(OciDistributionError::BodyTooLong),
        Err(BodyError::WantOfMemory) => Err(OciDistributionError::WantOfMemory),
    }
}
