//! Checks documents again.
ghost use Rattle.std.specs.Prelude.{◌≡◌, ◌↔◌, IfOk, IsTrue, Some, bytes_eq, option_copied};
ghost use Rattle.cosign_chain.specs.Documents.{document_in, is_manifest};
ghost use Rattle.cosign_chain.specs.Links.{named_by};
ghost use Rattle.cosign_chain.specs.SameManifest.{same_option};
ghost use Rattle.cosign_layers.specs.Satisfying.{policy_context};
ghost use Rattle.cosign_parts.specs.Trust.{trust_of};
ghost use Rattle.cosign_chain.specs.VerifiedDocuments.{Documents, LeadsToManifest};
ghost use Rattle.cosign_chain.specs.Tests.{AreNamed, is_first, is_led, is_named, leads};

use crate::verified_documents::VerifiedDocuments;
use crate::{document_in, same_manifest, stands_for};
use cosign_layers::PullPolicy;
use cosign_parts::{Offline, SignatureVerifier, Trusted};
use json_values::Text;
use oci_digests::names_digest;
use oci_manifests::{OciImageIndex, OciImageManifest, OciManifest, ResolverPromise};
use oci_names::Reference;
use std::alloc::{AllocError, Global};

/// Returns whether documents hold, without a client and without requests.
///
/// The digest names the first document, as the reference's digest does if it has one. The first document parses as the
/// manifest, or under a promise as an index of which the promise picks the manifest's digest. The signature layer is
/// what its bytes and annotations state, is about the digest, is signed under its certificate's key or one of the
/// policy's, and is accepted by each constraint of a policy that has at least one. Fails only if memory runs out.
pub fn check_documents<V: SignatureVerifier, O: Offline>(
    alloc: Global,
    image: &Reference,
    promise: Option<&ResolverPromise>,
    policy: &PullPolicy,
    trusted: &Trusted<'_, V, O>,
    found: &VerifiedDocuments,
) -> Result<bool, AllocError>
    ensures { IfOk result (λ holds. IsTrue holds ↔ Documents (policy_context policy.now
        (λ b. accepts (b.vtable, b.value)) (trust_of V.valid O.vouched trusted.now))
        image.now (option_copied promise.entry) found.now) }
{
    if !are_named(image, found) {
        return Ok(false);
    }
    let led = leads_to_manifest(alloc, promise, found)?;
    if !led {
        return Ok(false);
    }
    let (digest, layer) = (found.digest.as_str(), &found.signature);
    let (log_keys, verifier, judge) = (trusted.log_keys, trusted.verifier, trusted.judge);
    let stood = stands_for(alloc, policy, log_keys, verifier, judge, digest, layer)?;
    Ok(stood)
}

// Whether the digest names the first document, as the reference's does if there is one.
fn are_named(image: &Reference, found: &VerifiedDocuments) -> bool
    ensures { IsTrue result ↔ AreNamed image.now found.now }
{
    is_named(image, found)
}

fn is_named(image: &Reference, found: &VerifiedDocuments) -> bool
    ensures { result ≡ is_named image.now found.now }
{
    let first = found.first.as_slice();
    names_digest(found.digest.as_str(), first) && named_by(image.digest(), first)
}

// A digest, if there is one, names the bytes.
fn named_by(digest: Option<&str>, bytes: &[u8]) -> bool
    ensures { result ≡ named_by (option_copied digest.entry) bytes.now }
{
    match digest {
        Some(digest) => names_digest(digest, bytes),
        None => true,
    }
}

// Whether the first document leads to the manifest.
fn leads_to_manifest(
    alloc: Global,
    promise: Option<&ResolverPromise>,
    found: &VerifiedDocuments,
) -> Result<bool, AllocError>
    ensures { IfOk result (λ leads. IsTrue leads ↔ LeadsToManifest (option_copied promise.entry) found.now) }
{
    leads(alloc, promise, found)
}

fn leads(
    alloc: Global,
    promise: Option<&ResolverPromise>,
    found: &VerifiedDocuments,
) -> Result<bool, AllocError>
    ensures { IfOk result (λ led. led ≡ leads (option_copied promise.entry) found.now (document_in found.now.first)) }
{
    match document_in(alloc, &found.first)? {
        Some(OciManifest::Image(manifest)) => Ok(is_first(found, &manifest)),
        Some(OciManifest::ImageIndex(index)) => {
            let led = is_led(alloc, promise, found, &index)?;
            Ok(led)
        }
        None => Ok(false),
    }
}

fn is_first(found: &VerifiedDocuments, manifest: &OciImageManifest) -> bool
    ensures { result ≡ is_first found.now manifest.now }
{
    same_manifest(manifest, &found.manifest)
        && found.manifest_bytes.as_slice() == found.first.as_slice()
        && found.manifest_digest.as_str() == found.digest.as_str()
        && found.list_digest.is_none()
}

fn is_led(
    alloc: Global,
    promise: Option<&ResolverPromise>,
    found: &VerifiedDocuments,
    index: &OciImageIndex,
) -> Result<bool, AllocError>
    ensures { IfOk result (λ led. led ≡ is_led (option_copied promise.entry) found.now index.now) }
{
    let Some(promise) = promise else {
        return Ok(false);
    };
    let digest = found.manifest_digest.as_str();
    if !promise.picks(index.manifests.as_slice(), digest)
        || !names_digest(digest, found.manifest_bytes.as_slice())
    {
        return Ok(false);
    }
    let document = document_in(alloc, &found.manifest_bytes)?;
    Ok(
        is_manifest(&found.manifest, &document)
            && is_listed(&found.list_digest, found.digest.as_str()),
    )
}

fn is_listed(list_digest: &Option<Text>, digest: &str) -> bool
    ensures { result ≡ same_option bytes_eq list_digest.now (Some digest.now) }
{
    match list_digest {
        Some(list_digest) => list_digest.as_str() == digest,
        None => false,
    }
}

fn is_manifest(manifest: &OciImageManifest, document: &Option<OciManifest>) -> bool
    ensures { result ≡ is_manifest manifest.now document.now }
{
    match document {
        Some(OciManifest::Image(own)) => same_manifest(own, manifest),
        _ => false,
    }
}
