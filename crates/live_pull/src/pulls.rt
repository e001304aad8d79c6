// The search and the pull, each by a transport of its own over the streams.
ghost use Rattle.std.specs.Prelude.{◌≡◌, false, IfOk, IfErr};
ghost use Rattle.engine_terms.specs.Contexts.{within};
ghost use Rattle.registry_calls.specs.Direct.{reference_in};
ghost use Rattle.registry_cache.specs.Auths.{registry_auth};
ghost use Rattle.cosign_rows.specs.Refusal.{is_memory};
ghost use Rattle.cosign_rows.specs.Search.{searched};
ghost use Rattle.cosign_client.specs.State.{client_state};
ghost use Rattle.live_host.specs.Everyone.{everyone};
ghost use Rattle.live_host.specs.Wire.{wire};
ghost use Rattle.live_pull.specs.Pulls.{Collects, IsWhole, Transfer, collected_of};
ghost use Rattle.live_pull.specs.Terms.{row_for, PulledBy};

use byte_streams::{Sink, Source};
use cosign_client::{Client, PullRefusal, TrustedLayers, VerifiedImage};
use cosign_layers::PullPolicy;
use cosign_parts::SignatureLayer;
use json_values::{Copied, List, Text};
use live_host::{Answers, Everyone, Streams};
use live_link::StreamTransport;
use sig_registry::{Auth, OciReference, SigstoreError};
use std::alloc::{AllocError, Global};

/// The arguments of a pull, its moment (in seconds since 1970), and its terms.
#[derive(Drop)]
pub struct Terms {
    pub moment: u64,
    pub image: OciReference,
    pub auth: Auth,
    pub accepted: List<Text>,
    pub policy: PullPolicy,
}

// The layers that were found, none if the search was refused.
fn collected(
    alloc: Global,
    answer: &Result<TrustedLayers, SigstoreError>,
) -> Result<List<SignatureLayer>, AllocError>
    ensures layers { IfOk result (λ layers. layers ≡ collected_of answer.now) }
    ensures whole { IfOk result (λ layers. IsWhole answer.now) }
{
    match answer {
        Ok(found) => found.collected.copy(alloc),
        Err(SigstoreError::WantOfMemory) => Err(AllocError),
        Err(_) => Ok(List::new(alloc)),
    }
}

// In a function of its own, so that no other one has to prove the drop.
fn drop_answer(_answer: Result<TrustedLayers, SigstoreError>) {}

/// Searches the layers that may satisfy the policy, whatever the signatures. The host is not asked yet.
pub(crate) fn search<S: Source, K: Sink>(
    alloc: Global,
    streams: Streams<S, K>,
    client: &mut Client,
    terms: &Terms,
) -> (Streams<S, K>, Result<List<SignatureLayer>, AllocError>)
    ensures found { IfOk result.1 (Collects
        (searched (everyone client.old.rekor_pub_keys)
        (within (client_state client.old).settings terms.now.moment)
        (reference_in terms.now.image) (registry_auth terms.now.auth))
        (wire S.state K.state streams) (wire S.state K.state result.0)
        (client_state client.old).kept (client_state client.new).kept) }
    ensures settings { (client_state client.new).settings ≡ (client_state client.old).settings }
    ensures log_keys { client.new.rekor_pub_keys ≡ client.old.rekor_pub_keys }
{
    let Streams { source, sink } = streams;
    let mut transport = StreamTransport::new(source, sink);
    let answer = client.trusted_signature_layers(
        alloc,
        &mut transport,
        terms.moment,
        &terms.auth,
        &terms.image,
        &Everyone,
        &Everyone,
    );
    let layers = collected(alloc, &answer);
    drop_answer(answer);
    let (source, sink) = transport.finish();
    (Streams { source, sink }, layers)
}

/// Pulls under the host's answers.
pub(crate) fn pull<S: Source, K: Sink>(
    alloc: Global,
    streams: Streams<S, K>,
    client: &mut Client,
    terms: &Terms,
    answers: &Answers,
) -> (Streams<S, K>, Result<VerifiedImage, PullRefusal>)
    ensures pulled { PulledBy
        (row_for (λ b. accepts (b.vtable, b.value)) terms.now answers.now client.old.rekor_pub_keys
        (client_state client.old).settings)
        (wire S.state K.state streams) (wire S.state K.state result.0)
        (client_state client.old).kept (client_state client.new).kept result.1 }
{
    let Streams { source, sink } = streams;
    let mut transport = StreamTransport::new(source, sink);
    let outcome = client.verified_pull(
        alloc,
        &mut transport,
        terms.moment,
        &terms.image,
        &terms.auth,
        terms.accepted.as_slice(),
        &terms.policy,
        answers,
        answers,
    );
    let (source, sink) = transport.finish();
    (Streams { source, sink }, outcome)
}
