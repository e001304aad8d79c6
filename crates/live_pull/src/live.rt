// A live pull, from its settings to its end.
ghost use Rattle.std.specs.Prelude.{◌≡◌, Ok, Err, Bool, IfOk, IfErr};
ghost use Rattle.cosign_client.specs.State.{client_state};
ghost use Rattle.live_host.specs.Wire.{wire};
ghost use Rattle.live_pull.specs.Live.{Begins, Ends, StatusMeans, Live, LiveCut};
ghost use Rattle.live_pull.specs.Parts.{Prepares, BeginCause, ReadsSettings, Delivers, Finished, FinishedCut};
ghost use Rattle.live_pull.specs.Parts.{SearchAskPull, SearchAskPullCut, searched_by};
ghost use Rattle.live_pull.specs.Refusals.{OutcomeTold};
ghost use Rattle.live_pull.specs.Settings.{IsReady};
ghost use Rattle.live_pull.specs.Rows.{layers_asked};
ghost use Rattle.live_pull.specs.Terms.{row_for};

use crate::opening::{Opened, open_settings};
use crate::pulls::{Terms, pull, search};
use crate::refusal::give_refusal;
use crate::settings::{LiveSettings, read_settings};
use crate::status::Status;
use byte_streams::{Sink, Source};
use cosign_client::{Client, PullRefusal, VerifiedImage, ask_for};
use cosign_layers::PullPolicy;
use json_tables::ReadError;
use json_values::Json;
use live_host::{Answers, HostError, Streams, ask_layers, begin_head, give_image, hear, tell};
use pull_report::drop_outcome;
use recorded_case::constraints_from;
use std::alloc::Global;

/// How a live pull ended, and the streams at the end.
#[derive(Drop)]
pub struct Ended<S, K> {
    pub status: Status,
    pub streams: Streams<S, K>,
}

/// The client of a pull, and its arguments.
#[derive(Drop)]
pub struct Prepared {
    pub client: Client,
    pub terms: Terms,
}

// The settings in a frame.
fn settings_in(alloc: Global, frame: &Json) -> Result<LiveSettings, Status>
    ensures reads { ReadsSettings result frame.now }
    ensures ready { IfOk result IsReady }
{
    match read_settings(alloc, frame.value()) {
        Ok(settings) => Ok(settings),
        Err(ReadError::WantOfMemory) => Err(Status::WantOfMemory),
        Err(ReadError::Shape) => Err(Status::UnreadableSettings),
        Err(ReadError::Float) => Err(Status::UnreadableSettings),
        Err(ReadError::Ambiguous) => Err(Status::UnreadableSettings),
    }
}

// Begins, and receives the settings.
fn begin<S: Source, K: Sink>(
    alloc: Global,
    streams: &mut Streams<S, K>,
) -> Result<LiveSettings, Status>
    ensures begun { IfOk result (λ settings. Begins settings
        (wire S.state K.state streams.old) (wire S.state K.state streams.new)) }
    ensures ready { IfOk result IsReady }
    ensures cause { IfErr result (λ status. BeginCause status
        (wire S.state K.state streams.old) (wire S.state K.state streams.new)) }
{
    let head = begin_head(alloc)?;
    tell(alloc, streams, &head, &[])?;
    let frame = hear(alloc, streams)?;
    let settings = settings_in(alloc, &frame)?;
    Ok(settings)
}

// Sends the result of a pull.
fn deliver<S: Source, K: Sink>(
    alloc: Global,
    streams: &mut Streams<S, K>,
    blobs: bool,
    outcome: &Result<VerifiedImage, PullRefusal>,
) -> Status
    ensures { Delivers blobs outcome.now result
        (wire S.state K.state streams.old) (wire S.state K.state streams.new) }
{
    match outcome {
        Ok(image) => deliver_image(alloc, streams, blobs, image),
        Err(refusal) => deliver_refusal(alloc, streams, refusal),
    }
}

fn deliver_image<S: Source, K: Sink>(
    alloc: Global,
    streams: &mut Streams<S, K>,
    blobs: bool,
    image: &VerifiedImage,
) -> Status
    ensures { Delivers blobs (Ok image.now) result
        (wire S.state K.state streams.old) (wire S.state K.state streams.new) }
{
    match give_image(alloc, streams, image, blobs) {
        Ok(()) => Status::Pulled,
        Err(error) => Status::from(error),
    }
}

/// Sends why an image was not pulled, unless memory ran out. Returns the exit status.
pub fn deliver_refusal<S: Source, K: Sink>(
    alloc: Global,
    streams: &mut Streams<S, K>,
    refusal: &PullRefusal,
) -> Status
    ensures { (blobs : Bool) → Delivers blobs (Err refusal.now) result
        (wire S.state K.state streams.old) (wire S.state K.state streams.new) }
{
    if refusal.is_memory() {
        return Status::WantOfMemory;
    }
    match give_refusal(alloc, streams, refusal) {
        Ok(()) => Status::Refused,
        Err(error) => Status::from(error),
    }
}

// The pull under the host's answers, and what is sent for it.
fn finish<S: Source, K: Sink>(
    alloc: Global,
    streams: Streams<S, K>,
    prepared: &mut Prepared,
    answers: &Answers,
    blobs: bool,
) -> Ended<S, K>
    ensures { Ends (Finished
        (row_for (λ b. accepts (b.vtable, b.value)) prepared.old.terms answers.now
        prepared.old.client.rekor_pub_keys (client_state prepared.old.client).settings)
        (OutcomeTold blobs) (client_state prepared.old.client).kept
        (wire S.state K.state streams) (wire S.state K.state result.streams))
        (λ e. FinishedCut
        (row_for (λ b. accepts (b.vtable, b.value)) prepared.old.terms answers.now
        prepared.old.client.rekor_pub_keys (client_state prepared.old.client).settings)
        blobs (client_state prepared.old.client).kept e
        (wire S.state K.state streams) (wire S.state K.state result.streams)) result.status }
{
    let (mut streams, outcome) = pull(
        alloc,
        streams,
        &mut prepared.client,
        &prepared.terms,
        answers,
    );
    let status = deliver(alloc, &mut streams, blobs, &outcome);
    drop_outcome(outcome);
    Ended { status, streams }
}

// The search, the questions to the host about the found layers, and the pull under its answers.
fn converse<S: Source, K: Sink>(
    alloc: Global,
    streams: Streams<S, K>,
    prepared: &mut Prepared,
    blobs: bool,
) -> Ended<S, K>
    ensures { Ends (SearchAskPull
        (searched_by prepared.old.terms prepared.old.client.rekor_pub_keys (client_state prepared.old.client).settings)
        (layers_asked prepared.old.terms prepared.old.client.rekor_pub_keys)
        (λ answers. row_for (λ b. accepts (b.vtable, b.value)) prepared.old.terms answers
        prepared.old.client.rekor_pub_keys (client_state prepared.old.client).settings)
        (OutcomeTold blobs) (client_state prepared.old.client).kept
        (wire S.state K.state streams) (wire S.state K.state result.streams))
        (λ e. SearchAskPullCut
        (searched_by prepared.old.terms prepared.old.client.rekor_pub_keys (client_state prepared.old.client).settings)
        (layers_asked prepared.old.terms prepared.old.client.rekor_pub_keys)
        (λ answers. row_for (λ b. accepts (b.vtable, b.value)) prepared.old.terms answers
        prepared.old.client.rekor_pub_keys (client_state prepared.old.client).settings)
        blobs (client_state prepared.old.client).kept e
        (wire S.state K.state streams) (wire S.state K.state result.streams)) result.status }
{
    let (mut streams, found) = search(alloc, streams, &mut prepared.client, &prepared.terms);
    let layers = match found {
        Ok(layers) => layers,
        Err(_) => return end_with(Status::WantOfMemory, streams),
    };
    match ask_layers(
        alloc,
        &mut streams,
        prepared.terms.policy.keys.as_slice(),
        &prepared.client.rekor_pub_keys,
        layers.as_slice(),
    ) {
        Ok(answers) => finish(alloc, streams, prepared, &answers, blobs),
        Err(error) => end_with(Status::from(error), streams),
    }
}

fn end_with<S, K>(status: Status, streams: Streams<S, K>) -> Ended<S, K>
    ensures { result ≡ record { status = status; streams = streams } }
{
    Ended { status, streams }
}

/// Does what `run` does after the settings were received: searches signature layers, asks the host about them, pulls
/// the image under its answers, and sends it, or why it was refused. Returns the exit status and the streams.
pub fn serve<S: Source, K: Sink>(
    alloc: Global,
    streams: Streams<S, K>,
    settings: LiveSettings,
) -> Ended<S, K>
    requires { IsReady settings }
    ensures status { Ends (λ r. Live settings r
        (wire S.state K.state streams) (wire S.state K.state result.streams))
        (λ e. LiveCut settings e (wire S.state K.state streams) (wire S.state K.state result.streams))
        result.status }
{
    let asked = match ask_for(alloc, settings.reference.as_str(), &settings.auth) {
        Ok(asked) => asked,
        Err(_) => return end_with(Status::WantOfMemory, streams),
    };
    let constraints = match constraints_from(alloc, settings.constraints.as_slice()) {
        Ok(constraints) => constraints,
        Err(_) => return end_with(Status::WantOfMemory, streams),
    };
    let Opened {
        client,
        moment,
        image,
        auth,
        accepted,
        keys,
        blobs,
    } = open_settings(alloc, asked, settings);
    let terms = Terms {
        moment,
        image,
        auth,
        accepted,
        policy: PullPolicy { keys, constraints },
    };
    let mut prepared = Prepared { client, terms };
    let ended = converse(alloc, streams, &mut prepared, blobs);
    drop_prepared(prepared);
    ended
}

// Drops it in a function without other facts, so that each of its many parts is dropped once.
fn drop_prepared(_prepared: Prepared) {}

/// Pulls an image with a host, which opens the connections, verifies signatures and supplies the time: receives the
/// settings, searches signature layers, asks the host about them, pulls the image under its answers, and sends it, or
/// why it was refused. Returns the exit status and the streams.
pub fn run<S: Source, K: Sink>(alloc: Global, streams: Streams<S, K>) -> Ended<S, K>
    ensures status { StatusMeans result.status
        (wire S.state K.state streams) (wire S.state K.state result.streams) }
{
    let mut streams = streams;
    match begin(alloc, &mut streams) {
        Ok(settings) => serve(alloc, streams, settings),
        Err(status) => end_with(status, streams),
    }
}
