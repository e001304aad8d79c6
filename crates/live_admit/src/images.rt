// The decisions about the images of a review.
ghost use Rattle.std.specs.Prelude.{◌≡◌, Err, IfOk, length};
ghost use Rattle.live_host.specs.Wire.{wire};
ghost use Rattle.live_admit.specs.Clients.{Leads};
ghost use Rattle.live_admit.specs.Decided.{ImagesCut, ImagesDecided};

use crate::Rule;
use crate::clients::RuleClient;
use crate::decision::Judged;
use crate::image::decide_image;
use byte_streams::{Sink, Source};
use json_values::List;
use live_host::Streams;
use live_pull::Status;
use pod_reviews::{PlacedImage, Verdict};
use std::alloc::Global;

/// The verdicts about images, or why the conversation ended, and the streams.
#[derive(Drop)]
pub(crate) struct AllJudged<S, K> {
    pub streams: Streams<S, K>,
    pub verdicts: Result<List<Verdict>, Status>,
}

fn ended<S, K>(streams: Streams<S, K>, status: Status) -> AllJudged<S, K>
    ensures { result ≡ record { streams = streams; verdicts = Err status } }
{
    AllJudged {
        streams,
        verdicts: Err(status),
    }
}

/// Decides about each image, in order.
pub(crate) fn decide_images<S: Source, K: Sink>(
    alloc: Global,
    streams: Streams<S, K>,
    rules: &mut Vec<Rule<RuleClient>>,
    moment: u64,
    images: &[PlacedImage],
) -> AllJudged<S, K>
    ensures decided { Leads rules.old.items rules.new.items (λ before after vs.
        ImagesDecided before after moment images.now vs
        (wire S.state K.state streams) (wire S.state K.state result.streams))
        (λ before e. ImagesCut before moment images.now e
        (wire S.state K.state streams) (wire S.state K.state result.streams)) result.verdicts }
    ensures each { IfOk result.verdicts (λ vs. length vs ≡ length images.now) }
{
    let mut verdicts = List::new(alloc);
    let mut streams = streams;
    let mut rest = images;
    while let Some((image, more)) = rest.split_first() {
        let judged = decide_image(alloc, streams, rules, moment, &image.image);
        let Judged {
            streams: left,
            verdict,
        } = judged;
        streams = left;
        let verdict = match verdict {
            Ok(verdict) => verdict,
            Err(status) => return ended(streams, status),
        };
        let Ok(()) = verdicts.push(verdict) else {
            return ended(streams, Status::WantOfMemory);
        };
        rest = more;
    }
    AllJudged {
        streams,
        verdicts: Ok(verdicts),
    }
}
