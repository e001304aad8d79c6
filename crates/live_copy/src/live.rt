// A copy, from its settings to its end.
ghost use Rattle.std.specs.Prelude.{◌≡◌, [], codes, Err, IfErr, Ok, OnOk, is_some};
ghost use Rattle.live_host.specs.Names.{frame_named};
ghost use Rattle.live_host.specs.Wire.{wire, SendsAndReceives, Wire};
ghost use Rattle.live_pull.specs.Course.{DocumentsCut, DocumentsTold};
ghost use Rattle.live_pull.specs.Decided.{DecidedDocuments, Decides, Undecided};
ghost use Rattle.live_pull.specs.Parts.{DeliversBy};
ghost use Rattle.live_pull.specs.Status.{StatusCause};
ghost use Rattle.live_copy.specs.Course.{CarryCut, CopyEnds, OfTags};
ghost use Rattle.live_copy.specs.Heads.{carried_of, carry_head};
ghost use Rattle.live_copy.specs.Opening.{Opens};
ghost use Rattle.live_copy.specs.Parts.{CarriedAndPushed, Delivers, EndsBy, FoundCut, HandCut, HandedAndGiven};
ghost use Rattle.live_copy.specs.Parts.{HandedOver, PushedAndGiven, TargetAndGiven, UncarriedBy};
ghost use Rattle.live_copy.specs.Settings.{AreReady};
ghost use Rattle.live_copy.specs.declared.settings.CopySettings.{CopySettings as Settings};

use crate::TargetRefusal;
use crate::delivery::{deliver, deliver_taken};
use crate::heads::{carry_head, side_head};
use crate::opening::{Opened, open};
use crate::pushes::push;
use crate::settings::CopySettings;
use crate::tags::ask;
use byte_streams::{Sink, Source};
use cosign_chain::VerifiedDocuments;
use cosign_client::PullRefusal;
use json_values::Json;
use live_host::{Streams, hear, is_frame, tell};
use live_pull::{
    Decided, Ended, LiveSettings, Status, deliver_error, give_decided, search_and_decide,
};
use pull_mirror::{DocumentsRefusal, PushReport};
use std::alloc::Global;

// Large values are dropped in functions without other facts.
fn drop_outcome(_outcome: Result<PushReport, DocumentsRefusal>) {}

fn drop_taken(_refusal: TargetRefusal) {}

fn drop_documents(_documents: VerifiedDocuments) {}

fn drop_refusal(_refusal: PullRefusal) {}

fn drop_opened(_opened: Opened) {}

fn end_with<S, K>(status: Status, streams: Streams<S, K>) -> Ended<S, K>
    ensures { result ≡ record { status = status; streams = streams } }
{
    Ended { status, streams }
}

fn is_carried(frame: &Json) -> bool
    ensures { result ≡ is_some (frame_named (codes "carried") frame.now) }
{
    is_frame(frame.value(), "carried")
}

// The host is asked to carry the blobs, and replies that it did.
fn await_carried<S: Source, K: Sink>(
    alloc: Global,
    streams: &mut Streams<S, K>,
) -> Result<(), Status>
    ensures carried { OnOk result (SendsAndReceives carry_head [] carried_of tt
        (wire S.state K.state streams.old) (wire S.state K.state streams.new)) }
    ensures cause { IfErr result (StatusCause (λ e. CarryCut e
        (wire S.state K.state streams.old) (wire S.state K.state streams.new))) }
{
    let head = carry_head(alloc)?;
    tell(alloc, streams, &head, &[])?;
    let frame = hear(alloc, streams)?;
    if is_carried(&frame) {
        return Ok(());
    }
    Err(Status::HostBroken)
}

// The documents are sent, and what follows goes to the target.
fn hand_over<S: Source, K: Sink>(
    alloc: Global,
    streams: &mut Streams<S, K>,
    found: &VerifiedDocuments,
) -> Result<(), Status>
    ensures handed { OnOk result (HandedOver found.now
        (wire S.state K.state streams.old) (wire S.state K.state streams.new)) }
    ensures cause { IfErr result (StatusCause (λ e. HandCut found.now e
        (wire S.state K.state streams.old) (wire S.state K.state streams.new))) }
{
    give_decided(alloc, streams, found)?;
    let side = side_head(alloc)?;
    tell(alloc, streams, &side, &[])?;
    Ok(())
}

// The pushes, and what is sent of them.
fn push_and_tell<S: Source, K: Sink>(
    alloc: Global,
    streams: Streams<S, K>,
    opened: &mut Opened,
    found: &VerifiedDocuments,
) -> Ended<S, K>
    ensures { EndsBy (λ Gives. PushedAndGiven Gives opened.old found.now
        (wire S.state K.state streams) (wire S.state K.state result.streams))
        (λ e. ⊥) result.status }
{
    let (mut streams, outcome) = push(alloc, streams, opened, found);
    let status = deliver(alloc, &mut streams, &outcome);
    drop_outcome(outcome);
    Ended { status, streams }
}

// The host carries the blobs, and the documents are pushed.
fn carry_and_push<S: Source, K: Sink>(
    alloc: Global,
    streams: Streams<S, K>,
    opened: &mut Opened,
    found: &VerifiedDocuments,
) -> Ended<S, K>
    ensures { EndsBy (λ Gives. CarriedAndPushed Gives opened.old found.now
        (wire S.state K.state streams) (wire S.state K.state result.streams))
        (λ e. CarryCut e (wire S.state K.state streams) (wire S.state K.state result.streams)) result.status }
{
    let mut streams = streams;
    match await_carried(alloc, &mut streams) {
        Ok(()) => push_and_tell(alloc, streams, opened, found),
        Err(status) => end_with(status, streams),
    }
}

// The refusal of a tag is sent.
fn end_taken<S: Source, K: Sink>(
    alloc: Global,
    streams: Streams<S, K>,
    refusal: TargetRefusal,
) -> Ended<S, K>
    ensures { Delivers (Err (OfTags refusal)) result.status
        (wire S.state K.state streams) (wire S.state K.state result.streams) }
{
    let mut streams = streams;
    let status = deliver_taken(alloc, &mut streams, &refusal);
    drop_taken(refusal);
    Ended { status, streams }
}

// What is done at the target: it is asked what its tags name, and what follows.
fn ask_and_copy<S: Source, K: Sink>(
    alloc: Global,
    streams: Streams<S, K>,
    opened: &mut Opened,
    found: &VerifiedDocuments,
) -> Ended<S, K>
    ensures { EndsBy (λ Gives. TargetAndGiven Gives opened.old found.now
        (wire S.state K.state streams) (wire S.state K.state result.streams))
        (λ e. UncarriedBy opened.old found.now e
        (wire S.state K.state streams) (wire S.state K.state result.streams)) result.status }
{
    let (streams, outcome) = ask(alloc, streams, opened, found);
    match outcome {
        Ok(()) => carry_and_push(alloc, streams, opened, found),
        Err(refusal) => end_taken(alloc, streams, refusal),
    }
}

// What follows the decision: the documents are sent, and what is done at the target.
fn copy_found<S: Source, K: Sink>(
    alloc: Global,
    streams: Streams<S, K>,
    opened: &mut Opened,
    found: &VerifiedDocuments,
) -> Ended<S, K>
    ensures { EndsBy (λ Gives. HandedAndGiven Gives opened.old found.now
        (wire S.state K.state streams) (wire S.state K.state result.streams))
        (λ e. FoundCut opened.old found.now e
        (wire S.state K.state streams) (wire S.state K.state result.streams)) result.status }
{
    let mut streams = streams;
    match hand_over(alloc, &mut streams, found) {
        Ok(()) => ask_and_copy(alloc, streams, opened, found),
        Err(status) => end_with(status, streams),
    }
}

fn copy_decided<S: Source, K: Sink>(
    alloc: Global,
    streams: Streams<S, K>,
    opened: &mut Opened,
    documents: VerifiedDocuments,
) -> Ended<S, K>
    ensures { EndsBy (λ Gives. HandedAndGiven Gives opened.old documents
        (wire S.state K.state streams) (wire S.state K.state result.streams))
        (λ e. FoundCut opened.old documents e
        (wire S.state K.state streams) (wire S.state K.state result.streams)) result.status }
{
    let ended = copy_found(alloc, streams, opened, &documents);
    drop_documents(documents);
    ended
}

// The refusal of the source is sent.
fn end_refused<S: Source, K: Sink>(
    alloc: Global,
    streams: Streams<S, K>,
    refusal: PullRefusal,
) -> Ended<S, K>
    ensures { DeliversBy DocumentsTold DocumentsCut (Err refusal) result.status
        (wire S.state K.state streams) (wire S.state K.state result.streams) }
{
    let mut streams = streams;
    let status = deliver_error(alloc, &mut streams, &refusal);
    drop_refusal(refusal);
    Ended { status, streams }
}

// What follows a decision.
fn follow_decision<S: Source, K: Sink>(
    alloc: Global,
    streams: Streams<S, K>,
    opened: &mut Opened,
    outcome: Result<VerifiedDocuments, PullRefusal>,
) -> Ended<S, K>
    ensures { (settings : Settings) (begun : Wire) → Opens settings opened.old
        → Decides (λ r. DecidedDocuments settings.settings r begun (wire S.state K.state streams))
        (λ e. Undecided settings.settings e begun (wire S.state K.state streams)) (Ok outcome)
        → CopyEnds settings result.status begun (wire S.state K.state result.streams) }
{
    match outcome {
        Ok(documents) => copy_decided(alloc, streams, opened, documents),
        Err(refusal) => end_refused(alloc, streams, refusal),
    }
}

// What follows the search, or the end if there was no decision.
fn follow<S: Source, K: Sink>(
    alloc: Global,
    decided: Decided<S, K>,
    opened: &mut Opened,
) -> Ended<S, K>
    ensures { (settings : Settings) (begun : Wire) → Opens settings opened.old
        → Decides (λ r. DecidedDocuments settings.settings r begun (wire S.state K.state decided.streams))
        (λ e. Undecided settings.settings e begun (wire S.state K.state decided.streams)) decided.outcome
        → CopyEnds settings result.status begun (wire S.state K.state result.streams) }
{
    let Decided { streams, outcome } = decided;
    match outcome {
        Ok(outcome) => follow_decision(alloc, streams, opened, outcome),
        Err(status) => end_with(status, streams),
    }
}

fn source_settings(settings: CopySettings) -> LiveSettings
    ensures { result ≡ settings.settings }
{
    let CopySettings { settings, .. } = settings;
    settings
}

/// Copies an image's documents with a host, after a frame `copy` was received: decides on them at the source as
/// `serve_documents` does and sends them; asks what the target's tags name as `free_target` does, if a tag is pushed
/// and may not be replaced; waits until the host carried the blobs; asks the target for each blob, and pushes the
/// documents as `push_documents` does; and sends what was pushed, or why it was refused. Returns the exit status and
/// the streams.
pub fn serve_copy<S: Source, K: Sink>(
    alloc: Global,
    streams: Streams<S, K>,
    settings: CopySettings,
) -> Ended<S, K>
    requires { AreReady settings }
    ensures status { CopyEnds settings result.status
        (wire S.state K.state streams) (wire S.state K.state result.streams) }
{
    let mut opened = match open(alloc, &settings) {
        Ok(opened) => opened,
        Err(_) => return end_with(Status::WantOfMemory, streams),
    };
    let decided = search_and_decide(alloc, streams, source_settings(settings));
    let ended = follow(alloc, decided, &mut opened);
    drop_opened(opened);
    ended
}
