//! The whole pull, with any client.
ghost use Rattle.std.specs.Prelude.{◌≡◌, true, false, Err, IfOk, IsTrue, find};
ghost use Rattle.engine_terms.specs.Contexts.{within};
ghost use Rattle.engine_terms.specs.declared.settings.Settings.{Settings};
ghost use Rattle.oci_names.specs.Reference.{reads_back};
ghost use Rattle.registry_calls.specs.Clients.{ClientMeets};
ghost use Rattle.registry_cache.specs.Auths.{registry_auth};
ghost use Rattle.cosign_layers.specs.Satisfying.{satisfies_policy};
ghost use Rattle.json_values.specs.Refusals.{Matches};
ghost use Rattle.cosign_rows.specs.Refusal.{is_memory};
ghost use Rattle.cosign_rows.specs.Terms.{meaning_of};
ghost use Rattle.cosign_rows.specs.Tails.{after_search, after_selection};
ghost use Rattle.cosign_rows.specs.Verified.{constrained, is_unconstrained};
ghost use Rattle.cosign_rows.specs.References.{digest_reference};
ghost use Rattle.cosign_rows.specs.Verified.{manifest_digests, readable, signed_digest, signed_image};
ghost use Rattle.cosign_rows.specs.Verified.{verified, verified_image};

use crate::pull::pull_image;
use crate::search;
use cosign_chain::VerifiedImage;
use cosign_layers::{PullPolicy, first_satisfying};
use cosign_parts::{Offline, SignatureLayer, SignatureVerifier};
use cosign_rows::{
    Asked, PullRefusal, Pulled, PulledManifest, SignedDigest, Terms, TrustedLayers,
    digest_reference,
};
use json_values::{Copied, Text};
use oci_names::Reference;
use oci_transport::Transport;
use registry_cache::Auth;
use registry_calls::{ClientCapabilities, SigstoreError};
use std::alloc::{AllocError, Global};

// The first layer that satisfies the policy.
#[tactic(auto, using(cosign_rows::proofs::First::first_at, cosign_rows::proofs::First::none_at))]
fn first_signature<V: SignatureVerifier>(
    alloc: Global,
    verifier: &V,
    policy: &PullPolicy,
    layers: &[SignatureLayer],
) -> Result<Option<SignatureLayer>, AllocError>
    ensures { IfOk result (λ found. found ≡ find (satisfies_policy (V.valid verifier.now) policy.now
        (λ b. accepts (b.vtable, b.value))) layers.now) }
{
    match first_satisfying(alloc, verifier, policy, layers)? {
        Some(place) => match layers.get(place) {
            Some(layer) => Ok(Some(layer.copy(alloc)?)),
            None => Ok(None),
        },
        None => Ok(None),
    }
}

// The digest with its layer, if one satisfies the policy.
fn signed_digest(
    found: TrustedLayers,
    first: Option<SignatureLayer>,
) -> Result<SignedDigest, PullRefusal>
    ensures { result ≡ signed_digest found first }
{
    let TrustedLayers {
        digest,
        collected,
        skipped,
    } = found;
    match first {
        Some(signature) => Ok(SignedDigest { digest, signature }),
        None => Err(PullRefusal::Unsatisfied {
            digest,
            collected,
            skipped,
        }),
    }
}

// The digest of the manifest, and that of the index that led to it.
fn manifest_digests(digest: Text, entry: Option<Text>) -> (Text, Option<Text>)
    ensures { result ≡ manifest_digests digest entry }
{
    match entry {
        Some(entry) => (entry, Some(digest)),
        None => (digest, None),
    }
}

// The image of the digest, with the signature layer that stands for it. `digest` is a copy that was made before.
fn verified_image(standing: SignedDigest, pulled: Pulled, digest: Text) -> VerifiedImage
    requires { digest ≡ standing.digest }
    ensures { result ≡ verified_image standing pulled }
{
    let SignedDigest {
        digest: answered,
        signature,
    } = standing;
    let Pulled {
        first,
        chosen,
        config,
        layers,
    } = pulled;
    let PulledManifest {
        bytes,
        manifest,
        entry,
    } = chosen;
    let digests = manifest_digests(digest, entry);
    let (manifest_digest, list_digest) = digests;
    VerifiedImage {
        digest: answered,
        first,
        manifest_bytes: bytes,
        manifest,
        manifest_digest,
        list_digest,
        config,
        layers,
        signature,
    }
}

fn signed_image(
    standing: SignedDigest,
    digest: Text,
    pulled: Result<Pulled, SigstoreError>,
) -> Result<VerifiedImage, PullRefusal>
    requires { digest ≡ standing.digest }
    ensures { result ≡ signed_image standing pulled }
{
    match pulled {
        Ok(pulled) => Ok(verified_image(standing, pulled, digest)),
        Err(error) => Err(PullRefusal::from(error)),
    }
}

// The reference of the digest in the image's repository, and a copy of the digest.
fn named_source(
    alloc: Global,
    image: &Reference,
    digest: &Text,
) -> Result<(Reference, Text), AllocError>
    ensures { IfOk result (λ named. (named.0 ≡ digest_reference image.now digest.now)
        × (named.1 ≡ digest.now)) }
{
    let source = digest_reference(alloc, image, digest.as_str())?;
    let copy = digest.copy(alloc)?;
    Ok((source, copy))
}

// The image of a digest that a layer stands for.
fn pull_signed<C: ClientCapabilities, T: Transport>(
    alloc: Global,
    client: &mut C,
    transport: &mut T,
    asked: &Asked<'_>,
    accepted: &[Text],
    standing: SignedDigest,
) -> Result<VerifiedImage, PullRefusal>
    ensures { (s : Settings) → ClientMeets is_memory s
        (after_selection (within s asked.now.moment) asked.now.image.now asked.now.auth.now accepted.now standing)
        (C.state client.old) (C.state client.new) (T.state transport.old) (T.state transport.new) result }
{
    let named = named_source(alloc, asked.image, &standing.digest)?;
    let (source, digest) = named;
    let pulled = pull_image(alloc, client, transport, asked, &source, accepted);
    signed_image(standing, digest, pulled)
}

// The image that a layer stands for.
fn pull_selected<C: ClientCapabilities, T: Transport, V: SignatureVerifier, O: Offline>(
    alloc: Global,
    client: &mut C,
    transport: &mut T,
    asked: &Asked<'_>,
    terms: &Terms<'_, V, O>,
    found: TrustedLayers,
) -> Result<VerifiedImage, PullRefusal>
    ensures { (s : Settings) → ClientMeets is_memory s
        (after_search (meaning_of V.valid O.vouched (λ b. accepts (b.vtable, b.value)) terms.now)
        (within s asked.now.moment) asked.now.image.now asked.now.auth.now terms.now.accepted.now found)
        (C.state client.old) (C.state client.new) (T.state transport.old) (T.state transport.new) result }
{
    let verifier = terms.trusted.verifier;
    let first = first_signature(alloc, verifier, terms.policy, found.collected.as_slice())?;
    let standing = signed_digest(found, first)?;
    pull_signed(alloc, client, transport, asked, terms.accepted, standing)
}

// Refuses a policy without a constraint.
fn constrained(policy: &PullPolicy) -> Result<(), PullRefusal>
    ensures { result ≡ constrained (is_unconstrained policy.now) }
{
    if policy.constraints.as_slice().is_empty() {
        return Err(PullRefusal::EmptyPolicy);
    }
    Ok(())
}

// Refuses a reference that does not round-trip.
fn readable(alloc: Global, image: &Reference) -> Result<(), PullRefusal>
    ensures { Matches is_memory result (readable image.now) }
{
    let reads_back = image.reads_back(alloc)?;
    if reads_back {
        return Ok(());
    }
    let reference = image.whole(alloc)?;
    Err(PullRefusal::OciReferenceNotValidError { reference })
}

/// Pulls an image only if a layer stands for the digest that is returned for it. A policy without a constraint is
/// refused before memory is allocated.
pub fn pull_verified<C: ClientCapabilities, T: Transport, V: SignatureVerifier, O: Offline>(
    alloc: Global,
    client: &mut C,
    transport: &mut T,
    moment: u64,
    image: &Reference,
    auth: &Auth,
    terms: &Terms<'_, V, O>,
) -> Result<VerifiedImage, PullRefusal>
    ensures run { (s : Settings) → ClientMeets is_memory s
        (verified (meaning_of V.valid O.vouched (λ b. accepts (b.vtable, b.value)) terms.now)
        (within s moment) image.now (registry_auth auth.now) terms.now.accepted.now)
        (C.state client.old) (C.state client.new) (T.state transport.old) (T.state transport.new) result }
    ensures unconstrained { IsTrue (is_unconstrained terms.now.policy.now) →
        (result ≡ Err PullRefusal.EmptyPolicy) × (T.state transport.new ≡ T.state transport.old) }
    ensures unread { reads_back image.now ≡ false → T.state transport.new ≡ T.state transport.old }
{
    constrained(terms.policy)?;
    let auth = auth.to_registry(alloc)?;
    readable(alloc, image)?;
    let asked = Asked {
        moment,
        image,
        auth: &auth,
    };
    let found = search(alloc, client, transport, &asked, &terms.trusted)?;
    let image = pull_selected(alloc, client, transport, &asked, terms, found)?;
    Ok(image)
}
