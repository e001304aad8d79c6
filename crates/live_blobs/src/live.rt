// A live pull of blobs, from its settings to its end.
ghost use Rattle.std.specs.Prelude.{◌≡◌};
ghost use Rattle.engine_terms.specs.Contexts.{within};
ghost use Rattle.call_laws.specs.Blobs.{descriptors_of, range_of};
ghost use Rattle.live_host.specs.Wire.{wire};
ghost use Rattle.live_blobs.specs.Ends.{EndsBy};
ghost use Rattle.live_blobs.specs.LiveBlobs.{LiveBlobs, LiveBlobsCut, PulledAndCut, PulledAndTold};
ghost use Rattle.live_blobs.specs.Pulled.{IsStoodRange};
ghost use Rattle.live_blobs.specs.Settings.{AreReady};

use crate::delivery::deliver;
use crate::opening::{Opened, open, start};
use crate::pulls::pull;
use crate::settings::BlobSettings;
use byte_streams::{Sink, Source};
use engine_terms::OciDistributionError;
use image_blobs::BlobRange;
use live_host::Streams;
use live_pull::{Ended, Status};
use oci_manifests::OciImageManifest;
use std::alloc::Global;

// Large values are dropped in functions without other facts.
fn drop_outcome(_outcome: Result<(), OciDistributionError>) {}

fn drop_opened(_opened: Opened) {}

fn drop_manifest(_manifest: OciImageManifest) {}

fn end_with<S, K>(status: Status, streams: Streams<S, K>) -> Ended<S, K>
    ensures { result ≡ record { status = status; streams = streams } }
{
    Ended { status, streams }
}

// Returns the range of the blobs that stand: all of it, or as many of the first ones.
fn stood_range(
    range: BlobRange,
    stood: usize,
    outcome: &Result<(), OciDistributionError>,
) -> BlobRange
    ensures { IsStoodRange range stood outcome.now result }
{
    match outcome {
        Ok(()) => range,
        Err(_) => BlobRange {
            first: range.first,
            end: range.end.min(range.first.saturating_add(stood)),
        },
    }
}

// The pull of the range, and what is sent of it.
fn converse<S: Source, K: Sink>(
    alloc: Global,
    streams: Streams<S, K>,
    opened: &mut Opened,
    manifest: &OciImageManifest,
    range: BlobRange,
) -> Ended<S, K>
    ensures { EndsBy (PulledAndTold (within opened.old.settings opened.old.moment) opened.old.image opened.old.state
        (range_of range.first range.end (descriptors_of manifest.now))
        (wire S.state K.state streams) (wire S.state K.state result.streams))
        (λ e. PulledAndCut (within opened.old.settings opened.old.moment) opened.old.image opened.old.state
        (range_of range.first range.end (descriptors_of manifest.now)) e
        (wire S.state K.state streams) (wire S.state K.state result.streams)) result.status }
{
    let (mut streams, stood, outcome) = pull(alloc, streams, opened, manifest, range);
    let stood = stood_range(range, stood, &outcome);
    let status = deliver(alloc, &mut streams, manifest, stood, &outcome);
    drop_outcome(outcome);
    Ended { status, streams }
}

/// Pulls the blobs of a range of an image's manifest: each is requested and checked as it is received, and the digests
/// of those that passed are sent, with the error that ended the pull if one was refused. The host, which received the
/// bytes first, keeps them. Returns the exit status and the streams.
pub fn serve_blobs<S: Source, K: Sink>(
    alloc: Global,
    streams: Streams<S, K>,
    settings: BlobSettings,
) -> Ended<S, K>
    requires { AreReady settings }
    ensures status { EndsBy (λ r. LiveBlobs settings r
        (wire S.state K.state streams) (wire S.state K.state result.streams))
        (λ e. LiveBlobsCut settings e (wire S.state K.state streams) (wire S.state K.state result.streams))
        result.status }
{
    let started = match start(alloc, &settings.settings) {
        Ok(started) => started,
        Err(_) => return end_with(Status::WantOfMemory, streams),
    };
    let BlobSettings {
        settings,
        manifest,
        first,
        end,
    } = settings;
    let mut opened = open(started, settings);
    let range = BlobRange {
        first: first as usize,
        end: end as usize,
    };
    let ended = converse(alloc, streams, &mut opened, &manifest, range);
    drop_opened(opened);
    drop_manifest(manifest);
    ended
}
