// One request for a blob.
ghost use Rattle.std.specs.Prelude.{◌≡◌, ℕ, false, List, None, IfOk};
ghost use Rattle.oci_digests.specs.declared.error.DigestError.{DigestError};
ghost use Rattle.oci_auth.specs.declared.auth_state.AuthState.{AuthState};
ghost use Rattle.oci_transport.specs.declared.message.Request.{Request as Asked};
ghost use Rattle.oci_protocol.specs.Follow.{Reaches};
ghost use Rattle.oci_protocol.specs.Runs.{Meets};
ghost use Rattle.oci_transport.specs.Link.{Link, answer_of};
ghost use Rattle.engine_answers.specs.Answers.{refused_answer};
ghost use Rattle.json_values.specs.Refusals.{Matches, MatchesError};
ghost use Rattle.engine_terms.specs.Error.{is_memory};
ghost use Rattle.engine_answers.specs.Blobs.{plan_of, both_compared};
ghost use Rattle.engine_rows.specs.Blobs.{IntoSink, IntoMemory, attempt, MeetsIntoSink};
ghost use Rattle.engine_rows.specs.Offers.{Takes, Offered, OfferedInto, offer};
ghost use Rattle.engine_rows.specs.Rows.{Row};
ghost use Rattle.engine_steps.specs.BodyUnread.{LastBodyUnread};

use byte_streams::Sink;
use engine_answers::{Expected, Plan, both_compared, digesters, is_error, plan_of, refused_answer};
use engine_rows::got_of;
use engine_terms::OciDistributionError;
use json_values::Blob;
use oci_protocol::{Reached, StreamBodyError, reach, stream_body};
use oci_transport::{BodyError, LinkError, Request, Transport, read_body};
use std::alloc::{AllocError, Global};

// Returns why the last response is refused, with its body.
fn refusal_of(alloc: Global, reached: &Reached, body: Blob) -> OciDistributionError
    ensures { MatchesError is_memory result
        (refused_answer 200 reached.now.request.url (answer_of reached.now.head body)) }
{
    match got_of(alloc, reached, body) {
        Ok(got) => refused_answer(alloc, 200, got),
        Err(AllocError) => OciDistributionError::WantOfMemory,
    }
}

// Writes the body of the last response to the sink, as its plan says.
#[tactic(none)]
fn put_reached<T: Transport, K: Sink>(
    alloc: Global,
    transport: &mut T,
    limit: u64,
    digest: &str,
    reached: &Reached,
    out: &mut K,
) -> Result<(), OciDistributionError>
    ensures run { (old : Link) (request : Asked) (k : AuthState) (p : Row (List ℕ))
        → Reaches 10 request reached.now.head reached.now.request old (T.state transport.old)
        → Takes IntoSink limit digest.now request reached.now.head p
        → MeetsIntoSink p old (T.state transport.new) k k (K.state out.old) (K.state out.new) result }
    ensures untaken { (e : DigestError) → plan_of digest.now reached.now.head ≡ Plan.Refuse e
        → T.state transport.new ≡ T.state transport.old }
{
    let plan = plan_of(alloc, digest, &reached.head)?;
    match plan {
        Plan::Refuse(error) => Err(OciDistributionError::DigestError(error)),
        Plan::Judge => match read_body(alloc, transport, limit) {
            Ok(body) => Err(refusal_of(alloc, reached, body)),
            Err(BodyError::TransportFault) => Err(OciDistributionError::TransportFault),
            Err(BodyError::BodyTooLong) => Err(OciDistributionError::BodyTooLong),
            Err(BodyError::WantOfMemory) => Err(OciDistributionError::WantOfMemory),
        },
        Plan::Pour(given, own) => {
            let mut digesters = digesters(&given, &own);
            match stream_body(alloc, transport, out, limit, &mut digesters) {
                Ok(()) => {
                    both_compared(alloc, &mut digesters, &given, &own)?;
                    Ok(())
                }
                Err(StreamBodyError::TransportFault) => Err(OciDistributionError::TransportFault),
                Err(StreamBodyError::BodyTooLong) => Err(OciDistributionError::BodyTooLong),
                Err(StreamBodyError::SinkFault) => Err(OciDistributionError::SinkFault),
                Err(StreamBodyError::WantOfMemory) => Err(OciDistributionError::WantOfMemory),
            }
        }
    }
}

/// Sends one request for a blob, and writes its bytes to the sink as they are received. After a refusal the sink holds
/// a prefix of the last response's body, or nothing.
#[tactic(none)]
pub fn attempt<T: Transport, K: Sink>(
    alloc: Global,
    transport: &mut T,
    limit: u64,
    digest: &str,
    request: &Request,
    out: &mut K,
) -> Result<(), OciDistributionError>
    ensures { (k : AuthState) → MeetsIntoSink (attempt IntoSink limit digest.now request.now)
        (T.state transport.old) (T.state transport.new) k k (K.state out.old)
        (K.state out.new) result }
{
    let reached = match reach(alloc, transport, 10, request) {
        Ok(reached) => reached,
        Err(LinkError::Failed) => return Err(OciDistributionError::TransportFault),
        Err(LinkError::WantOfMemory) => return Err(OciDistributionError::WantOfMemory),
    };
    put_reached(alloc, transport, limit, digest, &reached, out)?;
    Ok(())
}

/// Sends one request for a blob that may be elsewhere too, and writes its bytes to the sink as they are received. If
/// the response has a 4xx or 5xx status, returns false: its body is not read, and nothing is written.
#[tactic(none)]
pub fn offer<T: Transport, K: Sink>(
    alloc: Global,
    transport: &mut T,
    limit: u64,
    digest: &str,
    request: &Request,
    out: &mut K,
) -> Result<bool, OciDistributionError>
    ensures run { (k : AuthState) (next : Row (List ℕ)) → OfferedInto next
        (offer IntoSink limit digest.now next request.now)
        (T.state transport.old) (T.state transport.new) k (K.state out.old) (K.state out.new) result }
    ensures untaken { IfOk result (λ put. put ≡ false
        → LastBodyUnread (T.state transport.old) (T.state transport.new)) }
{
    let reached = match reach(alloc, transport, 10, request) {
        Ok(reached) => reached,
        Err(LinkError::Failed) => return Err(OciDistributionError::TransportFault),
        Err(LinkError::WantOfMemory) => return Err(OciDistributionError::WantOfMemory),
    };
    if is_error(reached.head.status) {
        return Ok(false);
    }
    put_reached(alloc, transport, limit, digest, &reached, out)?;
    Ok(true)
}

// Checks that the bytes have the digest of the header, if it names one, and the descriptor's.
fn have_digests(
    alloc: Global,
    body: &Blob,
    given: &Option<Expected>,
    own: &Expected,
) -> Result<(), OciDistributionError>
    ensures { Matches is_memory result (both_compared given.now own.now body.now) }
{
    let mut digesters = digesters(given, own);
    digesters.update(body.as_slice());
    both_compared(alloc, &mut digesters, given, own)?;
    Ok(())
}

// Holds the body of the last response in memory, as its plan says.
fn held_reached<T: Transport>(
    alloc: Global,
    transport: &mut T,
    limit: u64,
    digest: &str,
    reached: &Reached,
) -> Result<Blob, OciDistributionError>
    ensures run { (old : Link) (request : Asked) (k : AuthState) (p : Row (List ℕ))
        → Reaches 10 request reached.now.head reached.now.request old (T.state transport.old)
        → Takes IntoMemory limit digest.now request reached.now.head p
        → Meets is_memory p old (T.state transport.new) k k result }
    ensures untaken { (e : DigestError) → plan_of digest.now reached.now.head ≡ Plan.Refuse e
        → T.state transport.new ≡ T.state transport.old }
{
    let plan = plan_of(alloc, digest, &reached.head)?;
    match plan {
        Plan::Refuse(error) => Err(OciDistributionError::DigestError(error)),
        Plan::Judge => match read_body(alloc, transport, limit) {
            Ok(body) => Err(refusal_of(alloc, reached, body)),
            Err(BodyError::TransportFault) => Err(OciDistributionError::TransportFault),
            Err(BodyError::BodyTooLong) => Err(OciDistributionError::BodyTooLong),
            Err(BodyError::WantOfMemory) => Err(OciDistributionError::WantOfMemory),
        },
        Plan::Pour(given, own) => match read_body(alloc, transport, limit) {
            Ok(body) => {
                have_digests(alloc, &body, &given, &own)?;
                Ok(body)
            }
            Err(BodyError::TransportFault) => Err(OciDistributionError::TransportFault),
            Err(BodyError::BodyTooLong) => Err(OciDistributionError::BodyTooLong),
            Err(BodyError::WantOfMemory) => Err(OciDistributionError::WantOfMemory),
        },
    }
}

/// Sends one request for a blob, and holds its bytes in memory. No sink is involved.
#[tactic(none)]
pub fn held<T: Transport>(
    alloc: Global,
    transport: &mut T,
    limit: u64,
    digest: &str,
    request: &Request,
) -> Result<Blob, OciDistributionError>
    ensures { (k : AuthState) → Meets is_memory (attempt IntoMemory limit digest.now request.now)
        (T.state transport.old) (T.state transport.new) k k result }
{
    let reached = match reach(alloc, transport, 10, request) {
        Ok(reached) => reached,
        Err(LinkError::Failed) => return Err(OciDistributionError::TransportFault),
        Err(LinkError::WantOfMemory) => return Err(OciDistributionError::WantOfMemory),
    };
    let body = held_reached(alloc, transport, limit, digest, &reached)?;
    Ok(body)
}

/// Sends one request for a blob that may be elsewhere too, and holds its bytes in memory. `None` if the response has a
/// 4xx or 5xx status: its body is not read. No sink is involved.
#[tactic(none)]
pub fn held_offer<T: Transport>(
    alloc: Global,
    transport: &mut T,
    limit: u64,
    digest: &str,
    request: &Request,
) -> Result<Option<Blob>, OciDistributionError>
    ensures run { (k : AuthState) (next : Row (List ℕ)) → Offered next
        (offer IntoMemory limit digest.now next request.now)
        (T.state transport.old) (T.state transport.new) k result }
    ensures untaken { IfOk result (λ found. found ≡ None
        → LastBodyUnread (T.state transport.old) (T.state transport.new)) }
{
    let reached = match reach(alloc, transport, 10, request) {
        Ok(reached) => reached,
        Err(LinkError::Failed) => return Err(OciDistributionError::TransportFault),
        Err(LinkError::WantOfMemory) => return Err(OciDistributionError::WantOfMemory),
    };
    if is_error(reached.head.status) {
        return Ok(None);
    }
    let body = held_reached(alloc, transport, limit, digest, &reached)?;
    Ok(Some(body))
}
