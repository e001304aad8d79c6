// One request for a blob, cut at the size of its descriptor.
ghost use Rattle.std.specs.Prelude.{◌≡◌, ℕ, List, Option, None, Some, Ok, false};
ghost use Rattle.json_values.specs.Refusals.{MatchesError};
ghost use Rattle.oci_auth.specs.declared.auth_state.AuthState.{AuthState};
ghost use Rattle.oci_protocol.specs.Follow.{Reaches};
ghost use Rattle.oci_transport.specs.Link.{Link, answer_of};
ghost use Rattle.oci_transport.specs.declared.message.Request.{Request as Asked};
ghost use Rattle.engine_answers.specs.Answers.{refused_answer};
ghost use Rattle.engine_terms.specs.Error.{is_memory};
ghost use Rattle.engine_rows.specs.Blobs.{MeetsIntoSink};
ghost use Rattle.engine_rows.specs.Offers.{OfferedInto};
ghost use Rattle.engine_rows.specs.Rows.{Row};
ghost use Rattle.call_laws.specs.Cut.{instead, cut};
ghost use Rattle.image_blobs.specs.Taken.{AddsWithin};

use crate::bodies::stream_within;
use byte_streams::Sink;
use engine_answers::{Plan, both_compared, digesters, is_error, plan_of, refused_answer};
use engine_rows::got_of;
use engine_terms::{OciDistributionError, Settings};
use json_values::Blob;
use oci_protocol::{Reached, StreamBodyError, reach};
use oci_transport::{BodyError, LinkError, Request, Transport, read_body};
use std::alloc::{AllocError, Global};

// Returns why the last response is refused, with its body.
fn refusal_of(alloc: Global, reached: &Reached, body: Blob) -> OciDistributionError
    ensures { MatchesError is_memory result
        (refused_answer 200 reached.now.request.url (answer_of reached.now.head body)) }
{
    match got_of(alloc, reached, body) {
        Ok(got) => refused_answer(alloc, 200, got),
        Err(AllocError) => OciDistributionError::WantOfMemory,
    }
}

// Writes the body of the last response to the sink if it is the blob's, and otherwise returns why it is refused.
#[tactic(none)]
fn put_reached<T: Transport, K: Sink>(
    alloc: Global,
    transport: &mut T,
    settings: &Settings,
    size: u64,
    digest: &str,
    reached: &Reached,
    out: &mut K,
) -> Result<(), OciDistributionError>
    ensures run { (old : Link) (request : Asked) (k : AuthState) (next : Option (Row (List ℕ)))
        → Reaches 10 request reached.now.head reached.now.request old (T.state transport.old)
        → instead next reached.now.head ≡ None
        → MeetsIntoSink (cut settings.now size digest.now next request) old (T.state transport.new) k k
        (K.state out.old) (K.state out.new) result }
    ensures within { AddsWithin size (K.state out.old) (K.state out.new) }
{
    let plan = plan_of(alloc, digest, &reached.head)?;
    match plan {
        Plan::Refuse(error) => Err(OciDistributionError::DigestError(error)),
        Plan::Judge => match read_body(alloc, transport, settings.max_body_bytes) {
            Ok(body) => Err(refusal_of(alloc, reached, body)),
            Err(BodyError::TransportFault) => Err(OciDistributionError::TransportFault),
            Err(BodyError::BodyTooLong) => Err(OciDistributionError::BodyTooLong),
            Err(BodyError::WantOfMemory) => Err(OciDistributionError::WantOfMemory),
        },
        Plan::Pour(given, own) => {
            let mut digesters = digesters(&given, &own);
            match stream_within(alloc, transport, out, size, &mut digesters) {
                Ok(()) => {
                    both_compared(alloc, &mut digesters, &given, &own)?;
                    Ok(())
                }
                Err(StreamBodyError::TransportFault) => Err(OciDistributionError::TransportFault),
                Err(StreamBodyError::BodyTooLong) => Err(OciDistributionError::BodyTooLong),
                Err(StreamBodyError::SinkFault) => Err(OciDistributionError::SinkFault),
                Err(StreamBodyError::WantOfMemory) => Err(OciDistributionError::WantOfMemory),
            }
        }
    }
}

/// Sends one request for a blob of this size in bytes, the last one, and writes its bytes to the sink as they are
/// received, and at most as many as its size.
#[tactic(none)]
pub fn attempt<T: Transport, K: Sink>(
    alloc: Global,
    transport: &mut T,
    settings: &Settings,
    size: u64,
    digest: &str,
    request: &Request,
    out: &mut K,
) -> Result<(), OciDistributionError>
    ensures run { (k : AuthState) → MeetsIntoSink (cut settings.now size digest.now None request.now)
        (T.state transport.old) (T.state transport.new) k k (K.state out.old) (K.state out.new) result }
    ensures within { AddsWithin size (K.state out.old) (K.state out.new) }
{
    let reached = match reach(alloc, transport, 10, request) {
        Ok(reached) => reached,
        Err(LinkError::Failed) => return Err(OciDistributionError::TransportFault),
        Err(LinkError::WantOfMemory) => return Err(OciDistributionError::WantOfMemory),
    };
    put_reached(alloc, transport, settings, size, digest, &reached, out)?;
    Ok(())
}

/// Sends one request for a blob of this size in bytes that may be elsewhere too, and writes its bytes to the sink as
/// they are received, and at most as many as its size. If the response has a 4xx or 5xx status, returns false: its body
/// is not read, and nothing is written.
#[tactic(none)]
pub fn offer<T: Transport, K: Sink>(
    alloc: Global,
    transport: &mut T,
    settings: &Settings,
    size: u64,
    digest: &str,
    request: &Request,
    out: &mut K,
) -> Result<bool, OciDistributionError>
    ensures run { (k : AuthState) (next : Row (List ℕ)) → OfferedInto next
        (cut settings.now size digest.now (Some next) request.now)
        (T.state transport.old) (T.state transport.new) k (K.state out.old) (K.state out.new) result }
    ensures within { AddsWithin size (K.state out.old) (K.state out.new) }
    ensures unwritten { result ≡ Ok false → K.state out.new ≡ K.state out.old }
{
    let reached = match reach(alloc, transport, 10, request) {
        Ok(reached) => reached,
        Err(LinkError::Failed) => return Err(OciDistributionError::TransportFault),
        Err(LinkError::WantOfMemory) => return Err(OciDistributionError::WantOfMemory),
    };
    if is_error(reached.head.status) {
        return Ok(false);
    }
    put_reached(alloc, transport, settings, size, digest, &reached, out)?;
    Ok(true)
}
