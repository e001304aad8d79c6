// The referrers of a manifest.
ghost use Rattle.std.specs.Prelude.{◌≡◌, IfOk, filter, option_copied, string_bytes};
ghost use Rattle.json_values.specs.Refusals.{Matches};
ghost use Rattle.engine_terms.specs.Error.{is_memory};
ghost use Rattle.engine_answers.specs.Referrers.{index_in, index_read, referrers_in};
ghost use Rattle.engine_answers.specs.Referrers.{referrers_tag, fallback_reference, no_referrers};
ghost use Rattle.engine_answers.specs.Referrers.{is_absent, is_of_type, restricted, tag_index};
ghost use Rattle.engine_answers.specs.Referrers.{tagged_index};

use crate::answers::{Got, accepted};
use crate::documents::tables_read;
use engine_terms::{OciDistributionError, SpecViolation};
use json_values::{Blob, Copied, List, Text, read_json};
use oci_manifests::{ImageIndexEntry, OCI_IMAGE_INDEX_MEDIA_TYPE, OciImageIndex, OciManifest};
use oci_names::Reference;
use std::alloc::{AllocError, Global};

fn index_in(body: Blob, document: OciManifest) -> Result<OciImageIndex, OciDistributionError>
    ensures { Matches is_memory result (index_in body document) }
{
    match document {
        OciManifest::ImageIndex(index) => Ok(index),
        OciManifest::Image(_) => Err(OciDistributionError::ManifestParsingError(body)),
    }
}

// Parses the index.
fn read_index(alloc: Global, body: Blob) -> Result<OciImageIndex, OciDistributionError>
    ensures { Matches is_memory result (index_read body) }
{
    let json = read_json(alloc, body.as_slice())?;
    let document = tables_read(alloc, &body, &json)?;
    let index = index_in(body, document)?;
    Ok(index)
}

/// Returns the index in a response of status 200. A manifest is refused as `ManifestParsingError`, a document that
/// parses as both as `AmbiguousManifest`.
pub fn referrers_in(alloc: Global, got: Got) -> Result<OciImageIndex, OciDistributionError>
    ensures { Matches is_memory result (referrers_in got) }
{
    let answer = accepted(alloc, 200, got)?;
    let index = read_index(alloc, answer.body)?;
    Ok(index)
}

// Replaces each colon by a dash: a tag has no colon.
fn with_dashes(alloc: Global, digest: &str) -> Result<String, AllocError>
    ensures { IfOk result (λ tag. string_bytes tag ≡ referrers_tag digest.now) }
{
    digest
        .chars()
        .map(|c| if c == ':' { '-' } else { c })
        .collect(alloc)
}

// Returns the tag under which registries without a list of referrers store the index of a digest's referrers.
fn referrers_tag(alloc: Global, digest: &str) -> Result<Text, AllocError>
    ensures { IfOk result (λ tag. tag ≡ referrers_tag digest.now) }
{
    let tag = with_dashes(alloc, digest)?;
    Text::new(alloc, tag.as_str())
}

/// Returns the reference of the tag under which registries without a list of referrers store the index of a digest's.
pub fn fallback_reference(
    alloc: Global,
    image: &Reference,
    digest: &str,
) -> Result<Reference, AllocError>
    ensures { IfOk result (λ tag. tag ≡ fallback_reference image.now digest.now) }
{
    let tag = referrers_tag(alloc, digest)?;
    let registry = Text::new(alloc, image.resolve_registry())?;
    let repository = Text::new(alloc, image.repository())?;
    Ok(Reference::with_tag(registry, repository, tag))
}

fn no_referrers(alloc: Global) -> Result<OciImageIndex, AllocError>
    ensures { IfOk result (λ index. index ≡ no_referrers) }
{
    let media_type = Text::new(alloc, OCI_IMAGE_INDEX_MEDIA_TYPE)?;
    Ok(OciImageIndex {
        schema_version: 2,
        media_type: Some(media_type),
        manifests: List::new(alloc),
        artifact_type: None,
        annotations: None,
    })
}

fn is_absent(error: &OciDistributionError) -> bool
    ensures { result ≡ is_absent error.now }
{
    match error {
        OciDistributionError::RegistryError { .. } => true,
        OciDistributionError::ImageManifestNotFoundError(_) => true,
        OciDistributionError::ServerError { code, .. } => *code == 404,
        _ => false,
    }
}

fn is_of_type(entry: &ImageIndexEntry, artifact_type: &str) -> bool
    ensures { result ≡ is_of_type artifact_type.now entry.now }
{
    match &entry.artifact_type {
        Some(own) => own.as_str() == artifact_type,
        None => false,
    }
}

fn of_type(
    alloc: Global,
    entries: &[ImageIndexEntry],
    artifact_type: &str,
) -> Result<List<ImageIndexEntry>, AllocError>
    ensures { IfOk result (λ kept. kept ≡ filter (is_of_type artifact_type.now) entries.now) }
{
    let mut kept = List::new(alloc);
    for entry in entries {
        if is_of_type(entry, artifact_type) {
            kept.push(entry.copy(alloc)?)?;
        }
    }
    Ok(kept)
}

// Returns the entries of this artifact type, if one is requested.
fn restricted(
    alloc: Global,
    mut index: OciImageIndex,
    artifact_type: Option<&str>,
) -> Result<OciImageIndex, AllocError>
    ensures { IfOk result (λ kept. kept ≡ restricted (option_copied artifact_type.entry) index) }
{
    match artifact_type {
        Some(artifact_type) => {
            index.manifests = of_type(alloc, index.manifests.as_slice(), artifact_type)?;
            Ok(index)
        }
        None => Ok(index),
    }
}

fn tag_index(
    alloc: Global,
    digest: &str,
    artifact_type: Option<&str>,
    document: OciManifest,
) -> Result<OciImageIndex, OciDistributionError>
    ensures { Matches is_memory result (tag_index digest.now (option_copied artifact_type.entry) document) }
{
    match document {
        OciManifest::ImageIndex(index) => {
            let index = restricted(alloc, index, artifact_type)?;
            Ok(index)
        }
        OciManifest::Image(_) => {
            let tag = referrers_tag(alloc, digest)?;
            Err(OciDistributionError::SpecViolationError(SpecViolation::ReferrersTag(tag)))
        }
    }
}

/// Returns the result of the tag's request: its index, restricted to an artifact type if one is given, or an index
/// without entries if the registry states that the tag does not exist. A manifest is refused as `ReferrersTag`.
pub fn tagged_index(
    alloc: Global,
    digest: &str,
    artifact_type: Option<&str>,
    answer: Result<(OciManifest, Text), OciDistributionError>,
) -> Result<OciImageIndex, OciDistributionError>
    ensures { Matches is_memory result (tagged_index digest.now (option_copied artifact_type.entry) answer) }
{
    match answer {
        Ok((document, _)) => {
            let index = tag_index(alloc, digest, artifact_type, document)?;
            Ok(index)
        }
        Err(error) => {
            if is_absent(&error) {
                let none = no_referrers(alloc)?;
                return Ok(none);
            }
            Err(error)
        }
    }
}
