// All reviews.
ghost use Rattle.std.specs.Prelude.{◌≡◌};
ghost use Rattle.live_host.specs.Wire.{wire};
ghost use Rattle.live_admit.specs.Clients.{AreIn, States};
ghost use Rattle.live_admit.specs.Served.{Serves, ServesFrom};

use crate::Rule;
use crate::clients::{RuleClient, open_rules};
use crate::review::{Step, serve_review};
use crate::settings::AdmitSettings;
use byte_streams::{Sink, Source};
use live_host::Streams;
use live_pull::{Ended, Status};
use std::alloc::Global;

// Dropped in functions without other facts.
fn drop_settings(_settings: AdmitSettings) {}

fn drop_clients(_rules: Vec<Rule<RuleClient>>) {}

fn end_with<S, K>(status: Status, streams: Streams<S, K>) -> Ended<S, K>
    ensures { result ≡ record { status = status; streams = streams } }
{
    Ended { status, streams }
}

// The reviews, one after another.
fn serve_each<S: Source, K: Sink>(
    alloc: Global,
    streams: Streams<S, K>,
    rules: &mut Vec<Rule<RuleClient>>,
    reviews: u64,
) -> Ended<S, K>
    ensures { (before : States) → AreIn rules.old.items before → ServesFrom before reviews result.status
        (wire S.state K.state streams) (wire S.state K.state result.streams) }
{
    let mut streams = streams;
    let mut served = 0u64;
    while served < reviews {
        let Step {
            streams: left,
            outcome,
        } = serve_review(alloc, streams, rules);
        streams = left;
        if let Err(status) = outcome {
            return end_with(status, streams);
        }
        served += 1;
    }
    end_with(Status::Pulled, streams)
}

// The same by these clients.
fn serve_opened<S: Source, K: Sink>(
    alloc: Global,
    streams: Streams<S, K>,
    rules: Vec<Rule<RuleClient>>,
    reviews: u64,
) -> Ended<S, K>
    ensures { (before : States) → AreIn rules.items before → ServesFrom before reviews result.status
        (wire S.state K.state streams) (wire S.state K.state result.streams) }
{
    let mut rules = rules;
    let ended = serve_each(alloc, streams, &mut rules, reviews);
    drop_clients(rules);
    ended
}

/// Serves admission reviews after a frame `admit` was received: receives one frame `review` after another, decides
/// about each image of the review under the first rule that covers it, as the frame `documents` does, and sends the
/// response, until as many reviews were served as the settings say, or something broke the streams. Each rule has one
/// client, which caches responses within bounds: what a search requested less than 60 seconds before is not requested
/// again while it is cached. Returns the exit status and the streams.
pub fn serve_admit<S: Source, K: Sink>(
    alloc: Global,
    streams: Streams<S, K>,
    settings: AdmitSettings,
) -> Ended<S, K>
    ensures status { Serves settings.rules settings.reviews result.status
        (wire S.state K.state streams) (wire S.state K.state result.streams) }
{
    let reviews = settings.reviews;
    let opened = open_rules(alloc, settings.rules.as_slice());
    drop_settings(settings);
    match opened {
        Ok(rules) => serve_opened(alloc, streams, rules, reviews),
        Err(_) => end_with(Status::WantOfMemory, streams),
    }
}
