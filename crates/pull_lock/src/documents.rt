// Whether the documents of an entry lead to a manifest with layers of accepted types.
ghost use Rattle.std.specs.Prelude.{◌≡◌, ◌↔◌, IfOk, IsTrue, bytes_eq, option_copied};
ghost use Rattle.std.specs.List.{list_all, list_any};
ghost use Rattle.cosign_chain.specs.Documents.{document_in};
ghost use Rattle.pull_lock.specs.Tests.{are_accepted, is_accepted, is_manifest_with, is_first, is_led, leads, HasManifest};

use crate::lock::LockEntry;
use cosign_chain::document_in;
use json_values::{Blob, Text};
use oci_digests::names_digest;
use oci_manifests::{OciDescriptor, OciImageIndex, OciImageManifest, OciManifest, ResolverPromise};
use std::alloc::{AllocError, Global};

/// Returns the document that the text is.
pub(crate) fn document_of(alloc: Global, text: &Text) -> Result<Option<OciManifest>, AllocError>
    ensures { IfOk result (λ document. document ≡ document_in text.now) }
{
    let bytes = Blob::new(alloc, text.as_str().as_bytes())?;
    let document = document_in(alloc, &bytes)?;
    Ok(document)
}

fn is_accepted(accepted: &[Text], descriptor: &OciDescriptor) -> bool
    ensures { result ≡ is_accepted accepted.now descriptor.now }
{
    accepted.iter().any(|allowed| descriptor.media_type.as_str() == allowed.as_str())
}

fn all_accepted(accepted: &[Text], layers: &[OciDescriptor]) -> bool
    ensures { result ≡ list_all (is_accepted accepted.now) layers.now }
{
    layers
        .iter()
        .all(|descriptor| is_accepted(accepted, descriptor))
}

// Whether the manifest has layers, each of an accepted type.
fn are_accepted(accepted: &[Text], manifest: &OciImageManifest) -> bool
    ensures { result ≡ are_accepted accepted.now manifest.now }
{
    let layers = manifest.layers.as_slice();
    0 < layers.len() && all_accepted(accepted, layers)
}

fn is_manifest_with(accepted: &[Text], document: &Option<OciManifest>) -> bool
    ensures { result ≡ is_manifest_with accepted.now document.now }
{
    match document {
        Some(OciManifest::Image(manifest)) => are_accepted(accepted, manifest),
        _ => false,
    }
}

// Whether the first document, parsed as this manifest, is the entry's.
fn is_first(entry: &LockEntry, manifest: &OciImageManifest) -> bool
    ensures { result ≡ is_first entry.now manifest.now }
{
    entry.manifest.as_str() == entry.first.as_str()
        && entry.manifest_digest.as_str() == entry.digest.as_str()
        && are_accepted(entry.accepted.as_slice(), manifest)
}

// Whether the first document, parsed as this index, leads to the entry's manifest.
fn is_led(
    alloc: Global,
    promise: Option<&ResolverPromise>,
    entry: &LockEntry,
    index: &OciImageIndex,
) -> Result<bool, AllocError>
    ensures { IfOk result (λ led. led ≡ is_led (option_copied promise.entry) entry.now index.now) }
{
    let Some(promise) = promise else {
        return Ok(false);
    };
    let digest = entry.manifest_digest.as_str();
    if !promise.picks(index.manifests.as_slice(), digest)
        || !names_digest(digest, entry.manifest.as_str().as_bytes())
    {
        return Ok(false);
    }
    let document = document_of(alloc, &entry.manifest)?;
    Ok(is_manifest_with(entry.accepted.as_slice(), &document))
}

fn leads(
    alloc: Global,
    promise: Option<&ResolverPromise>,
    entry: &LockEntry,
) -> Result<bool, AllocError>
    ensures { IfOk result (λ led. led ≡ leads (option_copied promise.entry) entry.now (document_in entry.now.first)) }
{
    match document_of(alloc, &entry.first)? {
        Some(OciManifest::Image(manifest)) => Ok(is_first(entry, &manifest)),
        Some(OciManifest::ImageIndex(index)) => {
            let led = is_led(alloc, promise, entry, &index)?;
            Ok(led)
        }
        None => Ok(false),
    }
}

/// Returns whether the first document of an entry is its manifest, or under a promise leads to it, and whether the
/// manifest has layers, each of an accepted type.
pub(crate) fn has_manifest(
    alloc: Global,
    promise: Option<&ResolverPromise>,
    entry: &LockEntry,
) -> Result<bool, AllocError>
    ensures { IfOk result (λ b. IsTrue b ↔ HasManifest (option_copied promise.entry) entry.now) }
{
    leads(alloc, promise, entry)
}
