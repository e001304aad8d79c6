// The pushes of documents, by a transport over the streams.
ghost use Rattle.live_host.specs.Wire.{wire};
ghost use Rattle.live_copy.specs.Course.{UnlessMemory};
ghost use Rattle.live_copy.specs.Parts.{PushedBy};

use crate::opening::Opened;
use byte_streams::{Sink, Source};
use cosign_chain::VerifiedDocuments;
use live_host::Streams;
use live_link::StreamTransport;
use pull_mirror::{DocumentsRefusal, PushReport, push_documents};
use std::alloc::Global;

/// Copies documents to the target. Returns the streams, and the result.
pub(crate) fn push<S: Source, K: Sink>(
    alloc: Global,
    streams: Streams<S, K>,
    opened: &mut Opened,
    found: &VerifiedDocuments,
) -> (Streams<S, K>, Result<PushReport, DocumentsRefusal>)
    ensures { UnlessMemory result.1 (PushedBy opened.old found.now result.1
        (wire S.state K.state streams) (wire S.state K.state result.0)) }
{
    let Streams { source, sink } = streams;
    let mut transport = StreamTransport::new(source, sink);
    let outcome = push_documents(
        alloc,
        &mut opened.client,
        &mut transport,
        opened.moment,
        &opened.to,
        found,
    );
    let (source, sink) = transport.finish();
    (Streams { source, sink }, outcome)
}
