// Asks whether a blob is there.
ghost use Rattle.std.specs.Prelude.{◌≡◌};
ghost use Rattle.oci_auth.specs.declared.auth_state.AuthState.{AuthState};
ghost use Rattle.oci_protocol.specs.Runs.{Meets};
ghost use Rattle.engine_terms.specs.Contexts.{context_of};
ghost use Rattle.engine_terms.specs.Error.{is_memory};
ghost use Rattle.engine_pull.specs.Listings.{is_told, there_after, blob_exists};

use crate::requests::bare;
use engine_answers::{Got, is_success, refused_answer};
use engine_requests::blob_url;
use engine_terms::{Call, OciDistributionError};
use oci_auth::AuthState;
use oci_protocol::{Reached, reach};
use oci_transport::{
    Answer, AnswerHead, BodyError, LinkError, Method, Request, Transport, read_body,
};
use std::alloc::Global;

fn is_told(status: u16) -> bool
    ensures { result ≡ is_told status }
{
    is_success(status) || status == 404
}

// Returns whether the last response states that the blob is there. Any other response is read, for its refusal.
fn there_after<T: Transport>(
    alloc: Global,
    transport: &mut T,
    request: &Request,
    limit: u64,
) -> Result<bool, OciDistributionError>
    ensures { (k : AuthState) → Meets is_memory (there_after request.now limit)
        (T.state transport.old) (T.state transport.new) k k result }
{
    let reached = match reach(alloc, transport, 10, request) {
        Ok(reached) => reached,
        Err(LinkError::Failed) => return Err(OciDistributionError::TransportFault),
        Err(LinkError::WantOfMemory) => return Err(OciDistributionError::WantOfMemory),
    };
    let Reached { request, head } = reached;
    let AnswerHead { status, headers } = head;
    if is_told(status) {
        return Ok(is_success(status));
    }
    match read_body(alloc, transport, limit) {
        Ok(body) => Err(refused_answer(
            alloc,
            200,
            Got {
                url: request.url,
                answer: Answer {
                    status,
                    headers,
                    body,
                },
            },
        )),
        Err(BodyError::TransportFault) => Err(OciDistributionError::TransportFault),
        Err(BodyError::BodyTooLong) => Err(OciDistributionError::BodyTooLong),
        Err(BodyError::WantOfMemory) => Err(OciDistributionError::WantOfMemory),
    }
}

/// Returns whether the registry has the blob of this digest in the image's repository. No header that names a digest is
/// read.
#[tactic(none)]
pub fn blob_exists<T: Transport>(
    alloc: Global,
    transport: &mut T,
    memory: &mut AuthState,
    call: &Call,
    digest: &str,
) -> Result<bool, OciDistributionError>
    ensures { Meets is_memory (blob_exists (context_of call.now) call.now.image.now digest.now)
        (T.state transport.old) (T.state transport.new) memory.old memory.new result }
{
    let url = blob_url(alloc, call.settings, call.image, digest)?;
    let request = bare(alloc, transport, memory, call, Method::Head, &url)?;
    let there = there_after(alloc, transport, &request, call.settings.max_body_bytes)?;
    Ok(there)
}
