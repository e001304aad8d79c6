// The calls of a carry, each by a transport of its own over the streams.
ghost use Rattle.std.specs.Prelude.{◌≡◌};
ghost use Rattle.oci_engine.specs.Kept.{auth_state_of};
ghost use Rattle.engine_terms.specs.Contexts.{within};
ghost use Rattle.live_host.specs.Wire.{wire};
ghost use Rattle.live_blobs.specs.Carrying.{Asks, Pushes, Unless};

use crate::source_pieces::SourcePieces;
use byte_streams::{Sink, Source};
use engine_terms::OciDistributionError;
use live_host::Streams;
use live_link::StreamTransport;
use oci_engine::{Client, PushBlobStreamChunkedResponse};
use oci_names::Reference;
use std::alloc::Global;

/// Asks the target whether it has the blob of this digest.
pub(crate) fn ask<S: Source, K: Sink>(
    alloc: Global,
    streams: Streams<S, K>,
    client: &mut Client,
    moment: u64,
    into: &Reference,
    digest: &str,
) -> (Streams<S, K>, Result<bool, OciDistributionError>)
    ensures asked { Unless (λ r. Asks (within client.old.settings moment) into.now digest.now
        (auth_state_of client.old) (auth_state_of client.new) r
        (wire S.state K.state streams) (wire S.state K.state result.0)) result.1 }
    ensures settings { client.new.settings ≡ client.old.settings }
{
    let Streams { source, sink } = streams;
    let mut transport = StreamTransport::new(source, sink);
    let there = client.blob_exists(alloc, &mut transport, moment, into, digest);
    let (source, sink) = transport.finish();
    (Streams { source, sink }, there)
}

/// Pushes what the second source gives to the target, under the digest that is computed from it.
pub(crate) fn push<S: Source, K: Sink, B: Source>(
    alloc: Global,
    streams: Streams<S, K>,
    bytes: B,
    client: &mut Client,
    moment: u64,
    into: &Reference,
) -> (
    Streams<S, K>,
    (
        B,
        Result<PushBlobStreamChunkedResponse, OciDistributionError>,
    ),
)
    ensures { Unless (λ r. Pushes (within client.old.settings moment) into.now (auth_state_of client.old) r
        (B.state bytes) (B.state result.1.0)
        (wire S.state K.state streams) (wire S.state K.state result.0)) result.1.1 }
{
    let Streams { source, sink } = streams;
    let mut transport = StreamTransport::new(source, sink);
    let mut pieces = SourcePieces { source: bytes };
    let pushed = client.push_blob_stream_chunked(alloc, &mut transport, moment, into, &mut pieces);
    let (source, sink) = transport.finish();
    let SourcePieces { source: rest } = pieces;
    (Streams { source, sink }, (rest, pushed))
}
