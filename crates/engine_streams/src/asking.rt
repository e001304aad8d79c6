// Sends requests for a blob whose bytes are left to be taken.
ghost use Rattle.std.specs.Prelude.{◌≡◌, ◌≤◌, None, IfOk, IfSome};
ghost use Rattle.oci_auth.specs.declared.auth_state.AuthState.{AuthState};
ghost use Rattle.oci_transport.specs.Link.{Steady};
ghost use Rattle.oci_protocol.specs.Runs.{Meets};
ghost use Rattle.json_values.specs.Refusals.{Matches};
ghost use Rattle.engine_terms.specs.Error.{is_memory};
ghost use Rattle.engine_requests.specs.Sources.{places_of};
ghost use Rattle.engine_steps.specs.BodyUnread.{LastBodyUnread};
ghost use Rattle.engine_streams.specs.Blobs.{tried, IsLeft, Refuses};
ghost use Rattle.engine_streams.specs.Asking.{asked, offered, ranged_at};

use crate::head::{Opening, is_streamed, read_head};
use crate::range::{ByteRange, onward, with_range};
use engine_answers::{Got, is_error, refused_answer};
use engine_requests::{Place, asked_at, place_of};
use engine_terms::{OciDistributionError, Settings};
use json_values::Text;
use oci_protocol::{Reached, reach};
use oci_transport::{Answer, AnswerHead, BodyError, LinkError, Request, Transport, read_body};
use std::alloc::Global;

// Reads the body of the response, and returns why it is refused.
fn refused<T: Transport>(
    alloc: Global,
    transport: &mut T,
    limit: u64,
    reached: Reached,
) -> OciDistributionError
    ensures told { (T.state transport.new).told ≡ (T.state transport.old).told }
    ensures steady { Steady (T.state transport.old) (T.state transport.new) }
    ensures count { (T.state transport.old).faults ≤ (T.state transport.new).faults }
    ensures cause { Refuses limit reached.request.url reached.head
        (T.state transport.old) (T.state transport.new) result }
{
    let Reached { request, head } = reached;
    let AnswerHead { status, headers } = head;
    match read_body(alloc, transport, limit) {
        Ok(body) => refused_answer(
            alloc,
            200,
            Got {
                url: request.url,
                answer: Answer {
                    status,
                    headers,
                    body,
                },
            },
        ),
        Err(BodyError::TransportFault) => OciDistributionError::TransportFault,
        Err(BodyError::BodyTooLong) => OciDistributionError::BodyTooLong,
        Err(BodyError::WantOfMemory) => OciDistributionError::WantOfMemory,
    }
}

// At the last place.
fn asked<T: Transport>(
    alloc: Global,
    transport: &mut T,
    limit: u64,
    digest: &str,
    range: &Option<ByteRange>,
    request: &Request,
) -> Result<Opening, OciDistributionError>
    ensures run { (k : AuthState) → Meets is_memory
        (asked limit range.now digest.now request.now)
        (T.state transport.old) (T.state transport.new) k k result }
    ensures left { IfOk result (λ opening. IsLeft range.now digest.now opening
        (T.state transport.old) (T.state transport.new)) }
{
    let reached = match reach(alloc, transport, 10, request) {
        Ok(reached) => reached,
        Err(LinkError::Failed) => return Err(OciDistributionError::TransportFault),
        Err(LinkError::WantOfMemory) => return Err(OciDistributionError::WantOfMemory),
    };
    if !is_streamed(range, reached.head.status) {
        return Err(refused(alloc, transport, limit, reached));
    }
    let opening = read_head(alloc, range, digest, &reached.head)?;
    Ok(opening)
}

// If another place is left. `None` if the response is skipped.
fn offered<T: Transport>(
    alloc: Global,
    transport: &mut T,
    limit: u64,
    digest: &str,
    range: &Option<ByteRange>,
    request: &Request,
) -> Result<Option<Opening>, OciDistributionError>
    ensures run { (k : AuthState) → Meets is_memory
        (offered limit range.now digest.now request.now)
        (T.state transport.old) (T.state transport.new) k k result }
    ensures untaken { IfOk result (λ found. found ≡ None
        → LastBodyUnread (T.state transport.old) (T.state transport.new)) }
    ensures left { IfOk result (λ found. IfSome found (λ opening.
        IsLeft range.now digest.now opening
        (T.state transport.old) (T.state transport.new))) }
{
    let reached = match reach(alloc, transport, 10, request) {
        Ok(reached) => reached,
        Err(LinkError::Failed) => return Err(OciDistributionError::TransportFault),
        Err(LinkError::WantOfMemory) => return Err(OciDistributionError::WantOfMemory),
    };
    if is_error(reached.head.status) {
        return Ok(None);
    }
    if !is_streamed(range, reached.head.status) {
        return Err(refused(alloc, transport, limit, reached));
    }
    let opening = read_head(alloc, range, digest, &reached.head)?;
    Ok(Some(opening))
}

// Returns the request at another place than the registry, without credentials.
fn ranged_at(
    alloc: Global,
    settings: &Settings,
    range: &Option<ByteRange>,
    place: Place,
) -> Result<Request, OciDistributionError>
    ensures { Matches is_memory result (ranged_at settings.now range.now place) }
{
    let request = asked_at(alloc, settings, place)?;
    let text = onward(alloc, range)?;
    let request = with_range(request, &text)?;
    Ok(request)
}

/// Sends the request and, while the status is 4xx or 5xx, requests the URLs in their order.
pub(crate) fn tried<T: Transport>(
    alloc: Global,
    transport: &mut T,
    settings: &Settings,
    digest: &str,
    range: &Option<ByteRange>,
    urls: &[Text],
    mut request: Request,
) -> Result<Opening, OciDistributionError>
    ensures run { (k : AuthState) → Meets is_memory
        (tried settings.now range.now digest.now (places_of urls.now) request)
        (T.state transport.old) (T.state transport.new) k k result }
    ensures left { IfOk result (λ opening. IsLeft range.now digest.now opening
        (T.state transport.old) (T.state transport.new)) }
{
    let limit = settings.max_body_bytes;
    for url in urls {
        let place = place_of(alloc, url.as_str())?;
        let Some(place) = place else {
            continue;
        };
        let found = offered(alloc, transport, limit, digest, range, &request)?;
        if let Some(opening) = found {
            return Ok(opening);
        }
        let next = ranged_at(alloc, settings, range, place)?;
        request = next;
    }
    let opening = asked(alloc, transport, limit, digest, range, &request)?;
    Ok(opening)
}
