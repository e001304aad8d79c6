// A live pull of documents, from its settings to its end.
ghost use Rattle.std.specs.Prelude.{◌≡◌, Ok, Err};
ghost use Rattle.oci_names.specs.Reference.{reference_of};
ghost use Rattle.registry_cache.specs.Auths.{registry_auth};
ghost use Rattle.registry_calls.specs.Direct.{reference_in};
ghost use Rattle.cosign_client.specs.State.{client_state};
ghost use Rattle.recorded_case.specs.Policy.{constraints_by};
ghost use Rattle.live_host.specs.HostErrors.{AsksCause};
ghost use Rattle.live_host.specs.Wire.{wire};
ghost use Rattle.live_pull.specs.Live.{Ends};
ghost use Rattle.live_pull.specs.Parts.{DeliversBy};
ghost use Rattle.live_pull.specs.Settings.{IsReady};
ghost use Rattle.live_pull.specs.Course.{AskedAndDecidedBy, AskingCut, CourseBy, DocumentsCut, DocumentsTold};
ghost use Rattle.live_pull.specs.Course.{FinishedBy, NothingTold};
ghost use Rattle.live_pull.specs.Decided.{DecidedDocuments, DecidedFrom, Decides, LiveDocumentsCut, Suits};
ghost use Rattle.live_pull.specs.Decided.{Undecided, UndecidedFrom};
ghost use Rattle.live_pull.specs.LiveDocuments.{LiveDocuments};
ghost use Rattle.live_pull.specs.Rows.{asks_for, collect_for, decide_for};
ghost use Rattle.live_pull.specs.DocumentsTerms.{AreTerms};

use crate::documents_delivery::deliver;
use crate::documents_parts::{collect, decide};
use crate::{Ended, LiveSettings, Opened, Prepared, Status, Terms, open_settings};
use byte_streams::{Sink, Source};
use cosign_chain::VerifiedDocuments;
use cosign_client::{Asked, Client, PullRefusal, TrustedLayers, ask_for};
use cosign_layers::{Constraint, PullPolicy};
use json_values::List;
use live_host::{Answers, Streams, ask_layers};
use recorded_case::constraints_from;
use std::alloc::Global;

/// What was decided about documents, and the streams then; or the exit status, if the streams broke before or memory
/// ran out.
#[derive(Drop)]
pub struct Decided<S, K> {
    pub streams: Streams<S, K>,
    pub outcome: Result<Result<VerifiedDocuments, PullRefusal>, Status>,
}

// Large values are dropped in functions without other facts.
fn drop_outcome(_outcome: Result<VerifiedDocuments, PullRefusal>) {}

fn drop_found(_found: TrustedLayers) {}

fn drop_prepared(_prepared: Prepared) {}

fn end_with<S, K>(status: Status, streams: Streams<S, K>) -> Ended<S, K>
    ensures { result ≡ record { status = status; streams = streams } }
{
    Ended { status, streams }
}

fn undecided<S, K>(status: Status, streams: Streams<S, K>) -> Decided<S, K>
    ensures { result ≡ record { streams = streams; outcome = Err status } }
{
    Decided {
        streams,
        outcome: Err(status),
    }
}

// The decision under the host's answers.
fn finish<S: Source, K: Sink>(
    alloc: Global,
    streams: Streams<S, K>,
    client: &mut Client,
    terms: &Terms,
    answers: &Answers,
    found: TrustedLayers,
) -> Decided<S, K>
    ensures decided { Decides (FinishedBy NothingTold
        (decide_for (λ b. accepts (b.vtable, b.value)) terms.now client.old.rekor_pub_keys
        (client_state client.old).settings answers.now found)
        (client_state client.old).kept (client_state client.new).kept
        (wire S.state K.state streams) (wire S.state K.state result.streams)) (λ e. ⊥) result.outcome }
    ensures settings { (client_state client.new).settings ≡ (client_state client.old).settings }
    ensures log_keys { client.new.rekor_pub_keys ≡ client.old.rekor_pub_keys }
{
    let (streams, outcome) = decide(alloc, streams, client, terms, answers, found);
    Decided {
        streams,
        outcome: Ok(outcome),
    }
}

// The questions to the host about the found layers, and the decision under its answers.
fn ask_and_decide<S: Source, K: Sink>(
    alloc: Global,
    streams: Streams<S, K>,
    client: &mut Client,
    terms: &Terms,
    found: TrustedLayers,
) -> Decided<S, K>
    ensures decided { Decides (AskedAndDecidedBy NothingTold (asks_for terms.now client.old.rekor_pub_keys)
        (decide_for (λ b. accepts (b.vtable, b.value)) terms.now client.old.rekor_pub_keys
        (client_state client.old).settings)
        (client_state client.old).kept (client_state client.new).kept found
        (wire S.state K.state streams) (wire S.state K.state result.streams))
        (λ e. ((client_state client.new).kept ≡ (client_state client.old).kept) × AsksCause e
        (wire S.state K.state streams) (wire S.state K.state result.streams)) result.outcome }
    ensures settings { (client_state client.new).settings ≡ (client_state client.old).settings }
    ensures log_keys { client.new.rekor_pub_keys ≡ client.old.rekor_pub_keys }
{
    let mut streams = streams;
    let asked = ask_layers(
        alloc,
        &mut streams,
        terms.policy.keys.as_slice(),
        &client.rekor_pub_keys,
        found.collected.as_slice(),
    );
    match asked {
        Ok(answers) => finish(alloc, streams, client, terms, &answers, found),
        Err(error) => {
            drop_found(found);
            undecided(Status::from(error), streams)
        }
    }
}

// The search, and what follows it.
fn converse<S: Source, K: Sink>(
    alloc: Global,
    streams: Streams<S, K>,
    client: &mut Client,
    terms: &Terms,
) -> Decided<S, K>
    ensures decided { Decides (CourseBy NothingTold (asks_for terms.now client.old.rekor_pub_keys)
        (collect_for (λ b. accepts (b.vtable, b.value)) terms.now client.old.rekor_pub_keys
        (client_state client.old).settings)
        (decide_for (λ b. accepts (b.vtable, b.value)) terms.now client.old.rekor_pub_keys
        (client_state client.old).settings)
        (client_state client.old).kept (client_state client.new).kept
        (wire S.state K.state streams) (wire S.state K.state result.streams))
        (λ e. AskingCut (collect_for (λ b. accepts (b.vtable, b.value)) terms.now client.old.rekor_pub_keys
        (client_state client.old).settings) (client_state client.old).kept (client_state client.new).kept e
        (wire S.state K.state streams) (wire S.state K.state result.streams)) result.outcome }
    ensures settings { (client_state client.new).settings ≡ (client_state client.old).settings }
    ensures log_keys { client.new.rekor_pub_keys ≡ client.old.rekor_pub_keys }
{
    let (streams, found) = collect(alloc, streams, client, terms);
    match found {
        Ok(found) => ask_and_decide(alloc, streams, client, terms, found),
        Err(refusal) => Decided {
            streams,
            outcome: Ok(Err(refusal)),
        },
    }
}

/// Searches signature layers, asks the host about them, and decides on the documents of the image under its answers.
/// Nothing is searched twice, no blob is requested after the search, and the result is not sent. Returns the exit
/// status in place of the result if the host's stream or the output failed, or if memory ran out.
pub fn search_and_decide<S: Source, K: Sink>(
    alloc: Global,
    streams: Streams<S, K>,
    settings: LiveSettings,
) -> Decided<S, K>
    requires { IsReady settings }
    ensures decided { Decides (λ r. DecidedDocuments settings r
        (wire S.state K.state streams) (wire S.state K.state result.streams))
        (λ e. Undecided settings e (wire S.state K.state streams) (wire S.state K.state result.streams))
        result.outcome }
{
    let asked = match ask_for(alloc, settings.reference.as_str(), &settings.auth) {
        Ok(asked) => asked,
        Err(_) => return undecided(Status::WantOfMemory, streams),
    };
    let constraints = match constraints_from(alloc, settings.constraints.as_slice()) {
        Ok(constraints) => constraints,
        Err(_) => return undecided(Status::WantOfMemory, streams),
    };
    let Opened {
        client,
        moment,
        image,
        auth,
        accepted,
        keys,
        blobs: _,
    } = open_settings(alloc, asked, settings);
    let terms = Terms {
        moment,
        image,
        auth,
        accepted,
        policy: PullPolicy { keys, constraints },
    };
    let mut client = client;
    let decided = converse(alloc, streams, &mut client, &terms);
    drop_prepared(Prepared { client, terms });
    decided
}

fn drop_terms(_terms: Terms) {}

// The terms of a decision: of the settings, this image with these credentials, and these constraints.
fn terms_from(asked: Asked, constraints: List<Constraint>, settings: LiveSettings) -> Terms
    ensures { reference_of settings.reference ≡ Ok (reference_in asked.image)
        → registry_auth asked.auth ≡ settings.auth
        → constraints ≡ constraints_by settings.constraints → AreTerms settings result }
{
    let Asked {
        image,
        auth,
        usual: _,
    } = asked;
    Terms {
        moment: settings.moment,
        image,
        auth,
        accepted: settings.accepted,
        policy: PullPolicy {
            keys: settings.keys,
            constraints,
        },
    }
}

/// Does what `search_and_decide` does by a client that the caller keeps, which must have the settings and know the logs
/// that `settings` states. What it has cached less than 60 seconds before the moment of these settings is not requested
/// again; the documents are always requested. Returns the exit status in place of the result as `search_and_decide`
/// does.
pub fn decide_again<S: Source, K: Sink>(
    alloc: Global,
    streams: Streams<S, K>,
    client: &mut Client,
    settings: LiveSettings,
) -> Decided<S, K>
    requires { IsReady settings }
    ensures decided { Suits settings client.old → Decides (λ r. DecidedFrom settings
        (client_state client.old).kept (client_state client.new).kept r
        (wire S.state K.state streams) (wire S.state K.state result.streams))
        (λ e. UndecidedFrom settings (client_state client.old).kept (client_state client.new).kept e
        (wire S.state K.state streams) (wire S.state K.state result.streams)) result.outcome }
    ensures settings { (client_state client.new).settings ≡ (client_state client.old).settings }
    ensures log_keys { client.new.rekor_pub_keys ≡ client.old.rekor_pub_keys }
{
    let asked = match ask_for(alloc, settings.reference.as_str(), &settings.auth) {
        Ok(asked) => asked,
        Err(_) => return undecided(Status::WantOfMemory, streams),
    };
    let constraints = match constraints_from(alloc, settings.constraints.as_slice()) {
        Ok(constraints) => constraints,
        Err(_) => return undecided(Status::WantOfMemory, streams),
    };
    let terms = terms_from(asked, constraints, settings);
    let decided = converse(alloc, streams, client, &terms);
    drop_terms(terms);
    decided
}

// The result is sent.
fn end_delivered<S: Source, K: Sink>(
    alloc: Global,
    streams: Streams<S, K>,
    outcome: Result<VerifiedDocuments, PullRefusal>,
) -> Ended<S, K>
    ensures { DeliversBy DocumentsTold DocumentsCut outcome result.status
        (wire S.state K.state streams) (wire S.state K.state result.streams) }
{
    let mut streams = streams;
    let status = deliver(alloc, &mut streams, &outcome);
    drop_outcome(outcome);
    Ended { status, streams }
}

/// Does what `run` does after a frame `documents` was received: searches signature layers, asks the host about them,
/// decides under its answers, and sends the documents of the image, or why they were refused. Nothing is searched
/// twice, and no blob is requested after the search. Returns the exit status and the streams.
pub fn serve_documents<S: Source, K: Sink>(
    alloc: Global,
    streams: Streams<S, K>,
    settings: LiveSettings,
) -> Ended<S, K>
    requires { IsReady settings }
    ensures status { Ends (λ r. LiveDocuments settings r
        (wire S.state K.state streams) (wire S.state K.state result.streams))
        (λ e. LiveDocumentsCut settings e (wire S.state K.state streams) (wire S.state K.state result.streams))
        result.status }
{
    let Decided { streams, outcome } = search_and_decide(alloc, streams, settings);
    match outcome {
        Ok(outcome) => end_delivered(alloc, streams, outcome),
        Err(status) => end_with(status, streams),
    }
}
