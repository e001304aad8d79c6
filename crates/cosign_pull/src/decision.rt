//! The second part, and the whole pull.
ghost use Rattle.std.specs.Prelude.{◌≡◌, true, false, Err, IfOk, IsErr, IsTrue, find};
ghost use Rattle.engine_terms.specs.Contexts.{within};
ghost use Rattle.engine_terms.specs.declared.settings.Settings.{Settings};
ghost use Rattle.oci_names.specs.Reference.{reads_back};
ghost use Rattle.cosign_layers.specs.Satisfying.{policy_context, satisfies_policy};
ghost use Rattle.cosign_parts.specs.Trust.{trust_of};
ghost use Rattle.registry_calls.specs.Clients.{ClientMeets};
ghost use Rattle.cosign_rows.specs.Refusal.{is_memory};
ghost use Rattle.cosign_rows.specs.References.{digest_reference};
ghost use Rattle.cosign_rows.specs.Verified.{is_unconstrained, manifest_digests, signed_digest};
ghost use Rattle.cosign_rows.specs.Rows.{decided, documents_after, documents_row, selected};
ghost use Rattle.cosign_rows.specs.Rows.{signed_documents, signed_or_refused};

use crate::again::read_again;
use crate::collection::{collect, constrained};
use crate::documents::pull_documents;
use cosign_chain::VerifiedDocuments;
use cosign_layers::{PullPolicy, first_satisfying};
use cosign_parts::{Offline, SignatureLayer, SignatureVerifier, Trusted};
use cosign_rows::{
    Asked, PullRefusal, PulledDocuments, PulledManifest, SignedDigest, TrustedLayers,
    digest_reference,
};
use json_values::{Copied, Text};
use oci_names::Reference;
use oci_transport::Transport;
use registry_calls::{ClientCapabilities, SigstoreError};
use std::alloc::{AllocError, Global};

// The first layer that satisfies the policy.
#[tactic(auto, using(cosign_rows::proofs::First::first_at, cosign_rows::proofs::First::none_at))]
fn first_signature<V: SignatureVerifier>(
    alloc: Global,
    verifier: &V,
    policy: &PullPolicy,
    layers: &[SignatureLayer],
) -> Result<Option<SignatureLayer>, AllocError>
    ensures { IfOk result (λ found. found ≡ find (satisfies_policy (V.valid verifier.now) policy.now
        (λ b. accepts (b.vtable, b.value))) layers.now) }
{
    match first_satisfying(alloc, verifier, policy, layers)? {
        Some(place) => match layers.get(place) {
            Some(layer) => Ok(Some(layer.copy(alloc)?)),
            None => Ok(None),
        },
        None => Ok(None),
    }
}

// The digest with its layer, if one satisfies the policy.
fn signed_digest(
    found: TrustedLayers,
    first: Option<SignatureLayer>,
) -> Result<SignedDigest, PullRefusal>
    ensures { result ≡ signed_digest found first }
{
    let TrustedLayers {
        digest,
        collected,
        skipped,
    } = found;
    match first {
        Some(signature) => Ok(SignedDigest { digest, signature }),
        None => Err(PullRefusal::Unsatisfied {
            digest,
            collected,
            skipped,
        }),
    }
}

// The digest of the manifest, and that of the index that led to it.
fn manifest_digests(digest: Text, entry: Option<Text>) -> (Text, Option<Text>)
    ensures { result ≡ manifest_digests digest entry }
{
    match entry {
        Some(entry) => (entry, Some(digest)),
        None => (digest, None),
    }
}

// The documents of the digest, with the signature layer that stands for it. `digest` is a copy that was made before.
fn signed_documents(
    standing: SignedDigest,
    pulled: PulledDocuments,
    digest: Text,
) -> VerifiedDocuments
    requires { digest ≡ standing.digest }
    ensures { result ≡ signed_documents standing pulled }
{
    let SignedDigest {
        digest: answered,
        signature,
    } = standing;
    let PulledDocuments { first, chosen } = pulled;
    let PulledManifest {
        bytes,
        manifest,
        entry,
    } = chosen;
    let digests = manifest_digests(digest, entry);
    let (manifest_digest, list_digest) = digests;
    VerifiedDocuments {
        digest: answered,
        first,
        manifest_bytes: bytes,
        manifest,
        manifest_digest,
        list_digest,
        signature,
    }
}

fn signed_or_refused(
    standing: SignedDigest,
    digest: Text,
    pulled: Result<PulledDocuments, SigstoreError>,
) -> Result<VerifiedDocuments, PullRefusal>
    requires { digest ≡ standing.digest }
    ensures { result ≡ signed_or_refused standing pulled }
{
    match pulled {
        Ok(pulled) => Ok(signed_documents(standing, pulled, digest)),
        Err(error) => Err(PullRefusal::from(error)),
    }
}

// The reference of the digest in the image's repository, and a copy of the digest.
fn named_source(
    alloc: Global,
    image: &Reference,
    digest: &Text,
) -> Result<(Reference, Text), AllocError>
    ensures { IfOk result (λ named. (named.0 ≡ digest_reference image.now digest.now)
        × (named.1 ≡ digest.now)) }
{
    let source = digest_reference(alloc, image, digest.as_str())?;
    let copy = digest.copy(alloc)?;
    Ok((source, copy))
}

// The documents of a digest that a layer stands for.
fn pull_selected<C: ClientCapabilities, T: Transport>(
    alloc: Global,
    client: &mut C,
    transport: &mut T,
    asked: &Asked<'_>,
    standing: SignedDigest,
) -> Result<VerifiedDocuments, PullRefusal>
    ensures { (s : Settings) → ClientMeets is_memory s
        (selected (within s asked.now.moment) asked.now.image.now asked.now.auth.now standing)
        (C.state client.old) (C.state client.new) (T.state transport.old) (T.state transport.new) result }
{
    let named = named_source(alloc, asked.image, &standing.digest)?;
    let (source, digest) = named;
    let pulled = pull_documents(alloc, client, transport, asked, &source);
    signed_or_refused(standing, digest, pulled)
}

// The documents that a layer stands for.
fn pull_after<C: ClientCapabilities, T: Transport, V: SignatureVerifier, O: Offline>(
    alloc: Global,
    client: &mut C,
    transport: &mut T,
    asked: &Asked<'_>,
    policy: &PullPolicy,
    trusted: &Trusted<'_, V, O>,
    found: TrustedLayers,
) -> Result<VerifiedDocuments, PullRefusal>
    ensures { (s : Settings) → ClientMeets is_memory s
        (documents_after (policy_context policy.now (λ b. accepts (b.vtable, b.value))
        (trust_of V.valid O.vouched trusted.now))
        (within s asked.now.moment) asked.now.image.now asked.now.auth.now found)
        (C.state client.old) (C.state client.new) (T.state transport.old) (T.state transport.new) result }
{
    let verifier = trusted.verifier;
    let first = first_signature(alloc, verifier, policy, found.collected.as_slice())?;
    let standing = signed_digest(found, first)?;
    pull_selected(alloc, client, transport, asked, standing)
}

/// Decides over what was collected, and pulls the documents of its digest only if a layer stands for it. The layers are
/// read again from their bytes and annotations under this trust, so that `collect` may have searched under another one,
/// and nothing is searched again. A policy without a constraint is refused before memory is allocated.
///
/// Fails with `EmptyPolicy` if the policy has no constraint, with `Unsatisfied` if no layer satisfies the policy, and
/// with `RegistryPullError` if the documents are not pulled.
pub fn decide<C: ClientCapabilities, T: Transport, V: SignatureVerifier, O: Offline>(
    alloc: Global,
    client: &mut C,
    transport: &mut T,
    asked: &Asked<'_>,
    policy: &PullPolicy,
    trusted: &Trusted<'_, V, O>,
    found: TrustedLayers,
) -> Result<VerifiedDocuments, PullRefusal>
    ensures run { (s : Settings) → ClientMeets is_memory s
        (decided (policy_context policy.now (λ b. accepts (b.vtable, b.value))
        (trust_of V.valid O.vouched trusted.now))
        (within s asked.now.moment) asked.now.image.now asked.now.auth.now found)
        (C.state client.old) (C.state client.new) (T.state transport.old) (T.state transport.new) result }
    ensures unconstrained { IsTrue (is_unconstrained policy.now) →
        (result ≡ Err PullRefusal.EmptyPolicy) × (T.state transport.new ≡ T.state transport.old) }
{
    constrained(policy)?;
    let again = read_again(alloc, trusted, found)?;
    let documents = pull_after(alloc, client, transport, asked, policy, trusted, again)?;
    Ok(documents)
}

/// Pulls the documents of an image only if a layer stands for the digest that is returned for it. No blob of the image
/// is requested. A policy without a constraint is refused before memory is allocated.
///
/// Fails as `collect` does, with `Unsatisfied` if no layer satisfies the policy, and with `RegistryPullError` if the
/// documents are not pulled.
pub fn verified_documents<C: ClientCapabilities, T: Transport, V: SignatureVerifier, O: Offline>(
    alloc: Global,
    client: &mut C,
    transport: &mut T,
    asked: &Asked<'_>,
    policy: &PullPolicy,
    trusted: &Trusted<'_, V, O>,
) -> Result<VerifiedDocuments, PullRefusal>
    ensures run { (s : Settings) → ClientMeets is_memory s
        (documents_row (policy_context policy.now (λ b. accepts (b.vtable, b.value))
        (trust_of V.valid O.vouched trusted.now))
        (within s asked.now.moment) asked.now.image.now asked.now.auth.now)
        (C.state client.old) (C.state client.new) (T.state transport.old) (T.state transport.new) result }
    ensures unconstrained { IsTrue (is_unconstrained policy.now) →
        (result ≡ Err PullRefusal.EmptyPolicy) × (T.state transport.new ≡ T.state transport.old) }
    ensures unread { reads_back asked.now.image.now ≡ false →
        IsErr result × (T.state transport.new ≡ T.state transport.old) }
{
    let found = collect(alloc, client, transport, asked, policy, trusted)?;
    let documents = pull_after(alloc, client, transport, asked, policy, trusted, found)?;
    Ok(documents)
}
