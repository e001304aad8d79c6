// The decision about an image by the settings of a rule.
ghost use Rattle.std.specs.Prelude.{◌≡◌};
ghost use Rattle.cosign_client.specs.State.{client_state};
ghost use Rattle.live_host.specs.Wire.{wire};
ghost use Rattle.live_pull.specs.Settings.{IsReady};
ghost use Rattle.live_pull.specs.Decided.{Suits, UndecidedFrom};
ghost use Rattle.live_admit.specs.Clients.{Gives};
ghost use Rattle.live_admit.specs.Decided.{DecidedBy, VerdictOf};

use crate::outcome::verdict_of;
use byte_streams::{Sink, Source};
use cosign_chain::VerifiedDocuments;
use cosign_client::{Client, PullRefusal};
use live_host::Streams;
use live_pull::{Decided, LiveSettings, Status, decide_again};
use pod_reviews::Verdict;
use std::alloc::Global;

/// The verdict about an image, or why the conversation ended, and the streams.
#[derive(Drop)]
pub(crate) struct Judged<S, K> {
    pub streams: Streams<S, K>,
    pub verdict: Result<Verdict, Status>,
}

// Dropped in a function without other facts.
fn drop_outcome(_outcome: Result<VerifiedDocuments, PullRefusal>) {}

// The verdict of a decision.
fn judge_outcome<S: Source, K: Sink>(
    alloc: Global,
    streams: Streams<S, K>,
    outcome: Result<VerifiedDocuments, PullRefusal>,
) -> Judged<S, K>
    ensures streams { result.streams ≡ streams }
    ensures verdict { Gives (VerdictOf outcome) (λ e. ⊥) result.verdict }
{
    let verdict = verdict_of(alloc, &outcome);
    drop_outcome(outcome);
    Judged { streams, verdict }
}

/// Decides about the image of these settings, as the frame `documents` does, by a client that has them.
pub(crate) fn decide<S: Source, K: Sink>(
    alloc: Global,
    streams: Streams<S, K>,
    client: &mut Client,
    settings: LiveSettings,
) -> Judged<S, K>
    requires { IsReady settings }
    ensures verdict { Suits settings client.old → Gives (λ v. DecidedBy settings
        (client_state client.old).kept (client_state client.new).kept v
        (wire S.state K.state streams) (wire S.state K.state result.streams))
        (λ e. UndecidedFrom settings (client_state client.old).kept (client_state client.new).kept e
        (wire S.state K.state streams) (wire S.state K.state result.streams)) result.verdict }
    ensures settings { (client_state client.new).settings ≡ (client_state client.old).settings }
    ensures log_keys { client.new.rekor_pub_keys ≡ client.old.rekor_pub_keys }
{
    let Decided { streams, outcome } = decide_again(alloc, streams, client, settings);
    match outcome {
        Ok(outcome) => judge_outcome(alloc, streams, outcome),
        Err(status) => Judged {
            streams,
            verdict: Err(status),
        },
    }
}
