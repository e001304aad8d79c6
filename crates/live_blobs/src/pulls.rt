// The pull of blobs, by a transport over the streams.
ghost use Rattle.std.specs.Prelude.{◌≡◌, ◌≤◌, ℕ, take, length, Ok, IfOk, MatchOption};
ghost use Rattle.engine_terms.specs.Contexts.{within};
ghost use Rattle.call_laws.specs.Blobs.{descriptors_of, range_of};
ghost use Rattle.live_host.specs.Wire.{wire};
ghost use Rattle.live_blobs.specs.Pulled.{BlobsPulled, FirstReceived, UnlessMemory};

use crate::discard::DiscardSinks;
use crate::opening::Opened;
use byte_streams::{Sink, Source};
use engine_terms::{Call, OciDistributionError};
use image_blobs::{BlobRange, pull_blobs};
use live_host::Streams;
use live_link::StreamTransport;
use oci_manifests::OciImageManifest;
use std::alloc::Global;

/// Pulls the blobs of a range, and drops their bytes. Returns the streams, how many blobs stand at least, and the
/// result.
pub(crate) fn pull<S: Source, K: Sink>(
    alloc: Global,
    streams: Streams<S, K>,
    opened: &mut Opened,
    manifest: &OciImageManifest,
    range: BlobRange,
) -> (Streams<S, K>, usize, Result<(), OciDistributionError>)
    ensures pulled { UnlessMemory result.2 (BlobsPulled (within opened.old.settings opened.old.moment) opened.old.image
        opened.old.state (range_of range.first range.end (descriptors_of manifest.now)) result.2
        (wire S.state K.state streams) (wire S.state K.state result.0)) }
    ensures received { FirstReceived (range_of range.first range.end (descriptors_of manifest.now)) result.1 result.2
        (wire S.state K.state streams) (wire S.state K.state result.0) }
{
    let Streams { source, sink } = streams;
    let mut transport = StreamTransport::new(source, sink);
    let mut sinks = DiscardSinks::new();
    let call = Call {
        settings: &opened.settings,
        image: &opened.image,
        moment: opened.moment,
    };
    let outcome = pull_blobs(
        alloc,
        &mut transport,
        &mut opened.state,
        &call,
        manifest,
        range,
        &mut sinks,
    );
    let stood = sinks.count();
    let (source, sink) = transport.finish();
    (Streams { source, sink }, stood, outcome)
}
