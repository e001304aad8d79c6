// A carry, from its settings to its end.
ghost use Rattle.std.specs.Prelude.{◌≡◌};
ghost use Rattle.oci_engine.specs.Kept.{auth_state_of};
ghost use Rattle.engine_terms.specs.Contexts.{within};
ghost use Rattle.live_host.specs.Wire.{wire};
ghost use Rattle.live_blobs.specs.Carrying.{Carried, Compares, Lacked, Unless};
ghost use Rattle.live_blobs.specs.CarryEnds.{CarriedAndCut, CarriedAndTold, CarryEnds};
ghost use Rattle.live_blobs.specs.CarrySettings.{AreReady};
ghost use Rattle.live_blobs.specs.Ends.{EndsBy};

use crate::carry_calls::{ask, push};
use crate::carry_delivery::deliver;
use crate::carry_opening::{Opened, open};
use crate::carry_settings::CarrySettings;
use byte_streams::{Sink, Source};
use engine_terms::OciDistributionError;
use json_values::Text;
use live_host::Streams;
use live_pull::{Ended, Status};
use oci_digests::DigestError;
use oci_engine::PushBlobStreamChunkedResponse;
use std::alloc::Global;

// Large values are dropped in functions without other facts.
fn drop_outcome(_outcome: Result<bool, OciDistributionError>) {}

fn drop_opened(_opened: Opened) {}

fn end_with<S, K>(status: Status, streams: Streams<S, K>) -> Ended<S, K>
    ensures { result ≡ record { status = status; streams = streams } }
{
    Ended { status, streams }
}

// Compares the digest that was computed with the one that was asked for.
fn compared(
    alloc: Global,
    response: PushBlobStreamChunkedResponse,
    digest: &str,
) -> Result<bool, OciDistributionError>
    ensures { Unless (Compares digest.now response) result }
{
    let PushBlobStreamChunkedResponse { blob_digest, .. } = response;
    if blob_digest.as_str() == digest {
        return Ok(true);
    }
    let expected = Text::new(alloc, digest)?;
    Err(OciDistributionError::DigestError(DigestError::VerificationError {
        expected,
        actual: blob_digest,
    }))
}

// Pushes what the second source gives, which has to have this digest.
fn push_lacked<S: Source, K: Sink, B: Source>(
    alloc: Global,
    streams: Streams<S, K>,
    bytes: B,
    opened: &mut Opened,
    digest: &str,
) -> (Streams<S, K>, (B, Result<bool, OciDistributionError>))
    ensures { Unless (λ r. Lacked (within opened.old.client.settings opened.old.moment) opened.old.into digest.now
        (auth_state_of opened.old.client) r (B.state bytes) (B.state result.1.0)
        (wire S.state K.state streams) (wire S.state K.state result.0)) result.1.1 }
{
    let moment = opened.moment;
    let (streams, (bytes, pushed)) = push(
        alloc,
        streams,
        bytes,
        &mut opened.client,
        moment,
        &opened.into,
    );
    match pushed {
        Ok(response) => (streams, (bytes, compared(alloc, response, digest))),
        Err(error) => (streams, (bytes, Err(error))),
    }
}

// Asks the target for the blob, and pushes it if the target lacks it.
fn carry<S: Source, K: Sink, B: Source>(
    alloc: Global,
    streams: Streams<S, K>,
    bytes: B,
    opened: &mut Opened,
    digest: &str,
) -> (Streams<S, K>, (B, Result<bool, OciDistributionError>))
    ensures { Unless (λ r. Carried (within opened.old.client.settings opened.old.moment) opened.old.into digest.now
        (auth_state_of opened.old.client) r (B.state bytes) (B.state result.1.0)
        (wire S.state K.state streams) (wire S.state K.state result.0)) result.1.1 }
{
    let moment = opened.moment;
    let (streams, there) = ask(
        alloc,
        streams,
        &mut opened.client,
        moment,
        &opened.into,
        digest,
    );
    match there {
        Ok(true) => (streams, (bytes, Ok(false))),
        Ok(false) => push_lacked(alloc, streams, bytes, opened, digest),
        Err(error) => (streams, (bytes, Err(error))),
    }
}

// Carries the blob of this digest, and sends what became of it.
fn converse<S: Source, K: Sink, B: Source>(
    alloc: Global,
    streams: Streams<S, K>,
    bytes: B,
    opened: &mut Opened,
    digest: &str,
) -> (Ended<S, K>, B)
    ensures { EndsBy (CarriedAndTold (within opened.old.client.settings opened.old.moment) opened.old.into digest.now
        (auth_state_of opened.old.client) (B.state bytes) (B.state result.1)
        (wire S.state K.state streams) (wire S.state K.state result.0.streams))
        (λ e. CarriedAndCut (within opened.old.client.settings opened.old.moment) opened.old.into digest.now
        (auth_state_of opened.old.client) (B.state bytes) (B.state result.1) e
        (wire S.state K.state streams) (wire S.state K.state result.0.streams)) result.0.status }
{
    let (mut streams, (bytes, outcome)) = carry(alloc, streams, bytes, opened, digest);
    let status = deliver(alloc, &mut streams, digest, &outcome);
    drop_outcome(outcome);
    (Ended { status, streams }, bytes)
}

fn drop_settings(_settings: CarrySettings) {}

// The same by these settings.
fn serve<S: Source, K: Sink, B: Source>(
    alloc: Global,
    streams: Streams<S, K>,
    bytes: B,
    settings: &CarrySettings,
) -> (Ended<S, K>, B)
    requires { AreReady settings.now }
    ensures { CarryEnds settings.now result.0.status (B.state bytes) (B.state result.1)
        (wire S.state K.state streams) (wire S.state K.state result.0.streams) }
{
    let mut opened = match open(alloc, settings) {
        Ok(opened) => opened,
        Err(_) => return (end_with(Status::WantOfMemory, streams), bytes),
    };
    let digest = settings.digest.as_str();
    let (ended, bytes) = converse(alloc, streams, bytes, &mut opened, digest);
    drop_opened(opened);
    (ended, bytes)
}

/// Carries a blob to a registry with a host, after a frame `carry` was received: asks the target whether it has it; if
/// it lacks it, pushes what the second source gives, piece by piece, under the digest that is computed from it; and
/// sends that the target has the blob of the digest that was asked for, or why not: also if another one was computed.
/// Returns the exit status with the streams, and the second source, which is read only if the target lacks the blob.
pub fn serve_carry<S: Source, K: Sink, B: Source>(
    alloc: Global,
    streams: Streams<S, K>,
    bytes: B,
    settings: CarrySettings,
) -> (Ended<S, K>, B)
    requires { AreReady settings }
    ensures status { CarryEnds settings result.0.status (B.state bytes) (B.state result.1)
        (wire S.state K.state streams) (wire S.state K.state result.0.streams) }
{
    let ended = serve(alloc, streams, bytes, &settings);
    drop_settings(settings);
    ended
}
