// The search and the decision, each by a transport of its own over the streams.
ghost use Rattle.std.specs.Prelude.{◌≡◌};
ghost use Rattle.cosign_client.specs.State.{client_state};
ghost use Rattle.live_host.specs.Wire.{wire};
ghost use Rattle.live_pull.specs.Terms.{PulledBy};
ghost use Rattle.live_pull.specs.Rows.{collect_for, decide_for};

use crate::Terms;
use byte_streams::{Sink, Source};
use cosign_chain::VerifiedDocuments;
use cosign_client::{Client, PullRefusal, TrustedLayers};
use live_host::{Answers, Everyone, Streams};
use live_link::StreamTransport;
use std::alloc::Global;

/// Searches the layers that may satisfy the policy, whatever the signatures. The host is not asked yet.
pub(crate) fn collect<S: Source, K: Sink>(
    alloc: Global,
    streams: Streams<S, K>,
    client: &mut Client,
    terms: &Terms,
) -> (Streams<S, K>, Result<TrustedLayers, PullRefusal>)
    ensures collected { PulledBy
        (collect_for (λ b. accepts (b.vtable, b.value)) terms.now client.old.rekor_pub_keys
        (client_state client.old).settings)
        (wire S.state K.state streams) (wire S.state K.state result.0)
        (client_state client.old).kept (client_state client.new).kept result.1 }
    ensures settings { (client_state client.new).settings ≡ (client_state client.old).settings }
    ensures log_keys { client.new.rekor_pub_keys ≡ client.old.rekor_pub_keys }
{
    let Streams { source, sink } = streams;
    let mut transport = StreamTransport::new(source, sink);
    let found = client.collect(
        alloc,
        &mut transport,
        terms.moment,
        &terms.image,
        &terms.auth,
        &terms.policy,
        &Everyone,
        &Everyone,
    );
    let (source, sink) = transport.finish();
    (Streams { source, sink }, found)
}

/// Decides under the host's answers over what was found, and requests the documents only if a layer stands for the
/// digest.
pub(crate) fn decide<S: Source, K: Sink>(
    alloc: Global,
    streams: Streams<S, K>,
    client: &mut Client,
    terms: &Terms,
    answers: &Answers,
    found: TrustedLayers,
) -> (Streams<S, K>, Result<VerifiedDocuments, PullRefusal>)
    ensures decided { PulledBy
        (decide_for (λ b. accepts (b.vtable, b.value)) terms.now client.old.rekor_pub_keys
        (client_state client.old).settings answers.now found)
        (wire S.state K.state streams) (wire S.state K.state result.0)
        (client_state client.old).kept (client_state client.new).kept result.1 }
    ensures settings { (client_state client.new).settings ≡ (client_state client.old).settings }
    ensures log_keys { client.new.rekor_pub_keys ≡ client.old.rekor_pub_keys }
{
    let Streams { source, sink } = streams;
    let mut transport = StreamTransport::new(source, sink);
    let outcome = client.decide(
        alloc,
        &mut transport,
        terms.moment,
        &terms.image,
        &terms.auth,
        &terms.policy,
        answers,
        answers,
        found,
    );
    let (source, sink) = transport.finish();
    (Streams { source, sink }, outcome)
}
