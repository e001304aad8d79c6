// The questions about the target's tags, by a transport over the streams.
ghost use Rattle.live_host.specs.Wire.{wire};
ghost use Rattle.oci_engine.specs.Kept.{auth_state_of};
ghost use Rattle.oci_engine.specs.Refusals.{at_moment};
ghost use Rattle.registry_cache.specs.Auths.{registry_auth};
ghost use Rattle.registry_calls.specs.Direct.{reference_in};
ghost use Rattle.live_copy.specs.Course.{AskedTags, UnlessTagsMemory};
ghost use Rattle.live_copy.specs.Parts.{AskedBy, IsStill};

use crate::opening::Opened;
use crate::{TargetRefusal, free_target};
use byte_streams::{Sink, Source};
use cosign_chain::VerifiedDocuments;
use live_host::Streams;
use live_link::StreamTransport;
use std::alloc::Global;

fn ask_target<S: Source, K: Sink>(
    alloc: Global,
    streams: Streams<S, K>,
    opened: &mut Opened,
    found: &VerifiedDocuments,
) -> (Streams<S, K>, Result<(), TargetRefusal>)
    ensures still { IsStill opened.old opened.new }
    ensures asked { UnlessTagsMemory result.1 (AskedTags (at_moment opened.old.client opened.old.moment)
        (reference_in opened.old.to.image) (registry_auth opened.old.to.auth) found.now
        (auth_state_of opened.old.client) (auth_state_of opened.new.client) result.1
        (wire S.state K.state streams) (wire S.state K.state result.0)) }
{
    let Streams { source, sink } = streams;
    let mut transport = StreamTransport::new(source, sink);
    let outcome = free_target(
        alloc,
        &mut opened.client,
        &mut transport,
        opened.moment,
        &opened.to,
        found,
    );
    let (source, sink) = transport.finish();
    (Streams { source, sink }, outcome)
}

/// Asks what the target's tags name, if one is pushed and may not be replaced. Returns the streams, and the result.
pub(crate) fn ask<S: Source, K: Sink>(
    alloc: Global,
    streams: Streams<S, K>,
    opened: &mut Opened,
    found: &VerifiedDocuments,
) -> (Streams<S, K>, Result<(), TargetRefusal>)
    ensures still { IsStill opened.old opened.new }
    ensures asked { UnlessTagsMemory result.1 (AskedBy opened.old (auth_state_of opened.new.client) found.now result.1
        (wire S.state K.state streams) (wire S.state K.state result.0)) }
{
    if !opened.asks {
        return (streams, Ok(()));
    }
    ask_target(alloc, streams, opened, found)
}
