//! Checks what leads from the first document of an image to its manifest.
ghost use Rattle.std.specs.Prelude.{◌≡◌, ◌↔◌, IfOk, IsTrue, Some, true, bytes_eq, option_copied, option_map, unwrap_or};
ghost use Rattle.serde_json.specs.View.{view};
ghost use Rattle.oci_manifests.specs.Document.{document_of};
ghost use Rattle.oci_manifests.specs.Types.{is_manifest_type};
ghost use Rattle.oci_manifests.specs.Versioned.{is_versioned};
ghost use Rattle.cosign_chain.specs.Chain.{LeadsToManifest};
ghost use Rattle.cosign_chain.specs.Documents.{document_in, is_first, is_led, is_manifest, leads};
ghost use Rattle.cosign_chain.specs.SameManifest.{same_option};

use crate::image::VerifiedImage;
use crate::manifest_fields::same_manifest;
use json_values::{Blob, Text, read_json};
use oci_digests::names_digest;
use oci_manifests::{
    OciImageIndex, OciImageManifest, OciManifest, ReadError, ResolverPromise, Versioned,
    is_manifest_media_type,
};
use serde_json::Value;
use std::alloc::{AllocError, Global};

// Whether the first document leads to the manifest.
pub(crate) fn leads_to_manifest(
    alloc: Global,
    promise: Option<&ResolverPromise>,
    found: &VerifiedImage,
) -> Result<bool, AllocError>
    ensures { IfOk result (λ leads. IsTrue leads ↔ LeadsToManifest (option_copied promise.entry) found.now) }
{
    leads(alloc, promise, found)
}

fn leads(
    alloc: Global,
    promise: Option<&ResolverPromise>,
    found: &VerifiedImage,
) -> Result<bool, AllocError>
    ensures { IfOk result (λ led. led ≡ leads (option_copied promise.entry) found.now (document_in found.now.first)) }
{
    match document_in(alloc, &found.first)? {
        Some(OciManifest::Image(manifest)) => Ok(is_first(found, &manifest)),
        Some(OciManifest::ImageIndex(index)) => {
            let led = is_led(alloc, promise, found, &index)?;
            Ok(led)
        }
        None => Ok(false),
    }
}

fn is_first(found: &VerifiedImage, manifest: &OciImageManifest) -> bool
    ensures { result ≡ is_first found.now manifest.now }
{
    same_manifest(manifest, &found.manifest)
        && found.manifest_bytes.as_slice() == found.first.as_slice()
        && found.manifest_digest.as_str() == found.digest.as_str()
        && found.list_digest.is_none()
}

fn is_led(
    alloc: Global,
    promise: Option<&ResolverPromise>,
    found: &VerifiedImage,
    index: &OciImageIndex,
) -> Result<bool, AllocError>
    ensures { IfOk result (λ led. led ≡ is_led (option_copied promise.entry) found.now index.now) }
{
    let Some(promise) = promise else {
        return Ok(false);
    };
    let digest = found.manifest_digest.as_str();
    if !promise.picks(index.manifests.as_slice(), digest)
        || !names_digest(digest, found.manifest_bytes.as_slice())
    {
        return Ok(false);
    }
    let document = document_in(alloc, &found.manifest_bytes)?;
    Ok(
        is_manifest(&found.manifest, &document)
            && is_listed(&found.list_digest, found.digest.as_str()),
    )
}

fn is_listed(list_digest: &Option<Text>, digest: &str) -> bool
    ensures { result ≡ same_option bytes_eq list_digest.now (Some digest.now) }
{
    match list_digest {
        Some(list_digest) => list_digest.as_str() == digest,
        None => false,
    }
}

fn is_manifest(manifest: &OciImageManifest, document: &Option<OciManifest>) -> bool
    ensures { result ≡ is_manifest manifest.now document.now }
{
    match document {
        Some(OciManifest::Image(own)) => same_manifest(own, manifest),
        _ => false,
    }
}

/// Returns the manifest or the index that the bytes are, if they are JSON of the supported version that parses as one
/// and not as the other, and `None` otherwise. Fails only if memory runs out.
pub fn document_in(alloc: Global, bytes: &Blob) -> Result<Option<OciManifest>, AllocError>
    ensures reads { IfOk result (λ document. document ≡ document_in bytes.now) }
{
    let Some(json) = read_json(alloc, bytes.as_slice())? else {
        return Ok(None);
    };
    let versioned = is_versioned(alloc, json.value())?;
    if !versioned {
        return Ok(None);
    }
    let document = document_of(alloc, json.value())?;
    Ok(document)
}

fn is_versioned(alloc: Global, value: &Value) -> Result<bool, AllocError>
    ensures { IfOk result (λ versioned. versioned ≡ is_versioned (view value.now)) }
{
    match Versioned::read(alloc, value) {
        Ok(versioned) => Ok(versioned.schema_version == 2 && is_known(&versioned.media_type)),
        Err(ReadError::WantOfMemory) => Err(AllocError),
        Err(ReadError::Float) => Ok(false),
        Err(ReadError::Shape) => Ok(false),
        Err(ReadError::Ambiguous) => Ok(false),
    }
}

fn is_known(media_type: &Option<Text>) -> bool
    ensures { result ≡ unwrap_or (option_map is_manifest_type media_type.now) true }
{
    match media_type {
        Some(media_type) => is_manifest_media_type(media_type.as_str()),
        None => true,
    }
}

// Parses a value without floats.
#[tactic(auto, using(crate::proofs::DocumentTests::no_table, crate::proofs::DocumentTests::two_tables))]
fn document_of(alloc: Global, value: &Value) -> Result<Option<OciManifest>, AllocError>
    requires { is_versioned (view value.now) ≡ true }
    ensures { IfOk result (λ document. document ≡ document_of (view value.now)) }
{
    match OciManifest::read(alloc, value) {
        Ok(document) => Ok(Some(document)),
        Err(ReadError::WantOfMemory) => Err(AllocError),
        Err(ReadError::Float) => Ok(None),
        Err(ReadError::Shape) => Ok(None),
        Err(ReadError::Ambiguous) => Ok(None),
    }
}
