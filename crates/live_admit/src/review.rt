// A review, from its frame to its response.
ghost use Rattle.std.specs.Prelude.{◌≡◌, IfErr, IfOk, OnOk, length, []};
ghost use Rattle.json_tables.specs.Plain.{read_plain};
ghost use Rattle.pod_reviews.specs.Places.{pod_review_of};
ghost use Rattle.live_host.specs.HostErrors.{TellCause};
ghost use Rattle.live_host.specs.Wire.{wire, SendsFrame};
ghost use Rattle.live_pull.specs.Status.{StatusCause};
ghost use Rattle.live_admit.specs.Frames.{unreadable_head as head_of_none};
ghost use Rattle.live_admit.specs.Clients.{Gives, Leads};
ghost use Rattle.live_admit.specs.Served.{Answered, AnsweredCut, ReadsReview, ReceiveCut, ReceivesReview, Responded};
ghost use Rattle.live_admit.specs.Served.{RespondedCut, ResponseCut, ResponseTold, ReviewCut, Served};

use crate::Rule;
use crate::clients::RuleClient;
use crate::frames::{ReviewFrame, read_review_frame, response_head, unreadable_head};
use crate::images::{AllJudged, decide_images};
use byte_streams::{Sink, Source};
use json_tables::ReadError;
use json_values::{Json, List};
use live_host::{Streams, hear, tell};
use live_pull::Status;
use pod_reviews::{PodReview, Verdict, read_pod_review, respond_verdicts};
use std::alloc::Global;

/// How a step went, and the streams.
#[derive(Drop)]
pub(crate) struct Step<S, K> {
    pub streams: Streams<S, K>,
    pub outcome: Result<(), Status>,
}

fn stop_with<S, K>(streams: Streams<S, K>, outcome: Result<(), Status>) -> Step<S, K>
    ensures { result ≡ record { streams = streams; outcome = outcome } }
{
    Step { streams, outcome }
}

// The review in a frame.
fn frame_in(alloc: Global, frame: &Json) -> Result<ReviewFrame, Status>
    ensures { ReadsReview result frame.now }
{
    match read_review_frame(alloc, frame.value()) {
        Ok(review) => Ok(review),
        Err(ReadError::WantOfMemory) => Err(Status::WantOfMemory),
        Err(ReadError::Shape) => Err(Status::HostBroken),
        Err(ReadError::Float) => Err(Status::HostBroken),
        Err(ReadError::Ambiguous) => Err(Status::HostBroken),
    }
}

// Receives the frame of a review.
fn receive<S: Source, K: Sink>(
    alloc: Global,
    streams: &mut Streams<S, K>,
) -> Result<ReviewFrame, Status>
    ensures received { IfOk result (λ frame. ReceivesReview frame
        (wire S.state K.state streams.old) (wire S.state K.state streams.new)) }
    ensures cause { IfErr result (λ status. StatusCause (λ e. ReceiveCut e
        (wire S.state K.state streams.old) (wire S.state K.state streams.new)) status) }
{
    let frame = hear(alloc, streams)?;
    let review = frame_in(alloc, &frame)?;
    Ok(review)
}

// Sends the response of these verdicts.
fn give_response<S: Source, K: Sink>(
    alloc: Global,
    streams: &mut Streams<S, K>,
    mutate: bool,
    review: &PodReview,
    verdicts: &List<Verdict>,
) -> Result<(), Status>
    requires { length verdicts.now ≡ length review.now.images }
    ensures told { OnOk result (ResponseTold mutate review.now verdicts.now
        (wire S.state K.state streams.old) (wire S.state K.state streams.new)) }
    ensures cause { IfErr result (λ status. StatusCause (λ e. ResponseCut mutate review.now verdicts.now e
        (wire S.state K.state streams.old) (wire S.state K.state streams.new)) status) }
{
    let text = respond_verdicts(alloc, review, verdicts, mutate)?;
    let head = response_head(alloc, &text)?;
    tell(alloc, streams, &head, &[])?;
    Ok(())
}

// Sends that the text is not a review.
fn give_unreadable<S: Source, K: Sink>(
    alloc: Global,
    streams: &mut Streams<S, K>,
) -> Result<(), Status>
    ensures told { OnOk result (SendsFrame head_of_none []
        (wire S.state K.state streams.old) (wire S.state K.state streams.new)) }
    ensures cause { IfErr result (λ status. StatusCause (λ e. TellCause (head_of_none, []) e
        (wire S.state K.state streams.old) (wire S.state K.state streams.new)) status) }
{
    let head = unreadable_head(alloc)?;
    tell(alloc, streams, &head, &[])?;
    Ok(())
}

// The response after the decisions.
fn respond<S: Source, K: Sink>(
    alloc: Global,
    streams: Streams<S, K>,
    mutate: bool,
    review: &PodReview,
    verdicts: &List<Verdict>,
) -> Step<S, K>
    requires { length verdicts.now ≡ length review.now.images }
    ensures { Gives (λ done. ResponseTold mutate review.now verdicts.now
        (wire S.state K.state streams) (wire S.state K.state result.streams))
        (λ e. ResponseCut mutate review.now verdicts.now e
        (wire S.state K.state streams) (wire S.state K.state result.streams)) result.outcome }
{
    let mut streams = streams;
    let outcome = give_response(alloc, &mut streams, mutate, review, verdicts);
    stop_with(streams, outcome)
}

// The decisions about a review's images, and the response.
fn answer_review<S: Source, K: Sink>(
    alloc: Global,
    streams: Streams<S, K>,
    rules: &mut Vec<Rule<RuleClient>>,
    frame: &ReviewFrame,
    review: &PodReview,
) -> Step<S, K>
    ensures { Leads rules.old.items rules.new.items (λ before after done.
        Responded before after frame.now review.now
        (wire S.state K.state streams) (wire S.state K.state result.streams))
        (λ before e. RespondedCut before frame.now review.now e
        (wire S.state K.state streams) (wire S.state K.state result.streams)) result.outcome }
{
    let AllJudged { streams, verdicts } = decide_images(
        alloc,
        streams,
        rules,
        frame.moment,
        review.images.as_slice(),
    );
    match verdicts {
        Ok(verdicts) => respond(alloc, streams, frame.mutate, review, &verdicts),
        Err(status) => stop_with(streams, Err(status)),
    }
}

// What a text that is not a review is answered with.
fn answer_none<S: Source, K: Sink>(alloc: Global, streams: Streams<S, K>) -> Step<S, K>
    ensures { Gives (λ done. SendsFrame head_of_none []
        (wire S.state K.state streams) (wire S.state K.state result.streams))
        (λ e. TellCause (head_of_none, []) e
        (wire S.state K.state streams) (wire S.state K.state result.streams)) result.outcome }
{
    let mut streams = streams;
    let outcome = give_unreadable(alloc, &mut streams);
    stop_with(streams, outcome)
}

// What a frame is answered with.
fn answer<S: Source, K: Sink>(
    alloc: Global,
    streams: Streams<S, K>,
    rules: &mut Vec<Rule<RuleClient>>,
    frame: &ReviewFrame,
) -> Step<S, K>
    ensures { Leads rules.old.items rules.new.items (λ before after done.
        Answered before after frame.now (read_plain pod_review_of frame.now.review)
        (wire S.state K.state streams) (wire S.state K.state result.streams))
        (λ before e. AnsweredCut before frame.now (read_plain pod_review_of frame.now.review) e
        (wire S.state K.state streams) (wire S.state K.state result.streams)) result.outcome }
{
    match read_pod_review(alloc, frame.review.as_str().as_bytes()) {
        Ok(Some(review)) => answer_review(alloc, streams, rules, frame, &review),
        Ok(None) => answer_none(alloc, streams),
        Err(_) => stop_with(streams, Err(Status::WantOfMemory)),
    }
}

/// Receives a review, decides about its images, and sends the response.
pub(crate) fn serve_review<S: Source, K: Sink>(
    alloc: Global,
    streams: Streams<S, K>,
    rules: &mut Vec<Rule<RuleClient>>,
) -> Step<S, K>
    ensures { Leads rules.old.items rules.new.items (λ before after done.
        Served before after
        (wire S.state K.state streams) (wire S.state K.state result.streams))
        (λ before e. ReviewCut before e
        (wire S.state K.state streams) (wire S.state K.state result.streams)) result.outcome }
{
    let mut streams = streams;
    match receive(alloc, &mut streams) {
        Ok(frame) => answer(alloc, streams, rules, &frame),
        Err(status) => stop_with(streams, Err(status)),
    }
}
