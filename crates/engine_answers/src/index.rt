// Selects the image of an index.
ghost use Rattle.std.specs.Prelude.{◌≡◌, IfOk};
ghost use Rattle.oci_manifests.specs.Promise.{lists};
ghost use Rattle.json_values.specs.Refusals.{Matches};
ghost use Rattle.engine_terms.specs.Error.{is_memory};
ghost use Rattle.engine_answers.specs.Index.{entry_named, entry_found, entry_manifest};
ghost use Rattle.engine_answers.specs.Index.{entry_reference, config_text};

use engine_terms::{GenericCause, OciDistributionError};
use json_values::{Blob, Text};
use oci_manifests::{ImageIndexEntry, OciImageManifest, OciManifest, PlatformResolver};
use oci_names::Reference;
use std::alloc::{AllocError, Global};

fn lists(digest: &str, manifests: &[ImageIndexEntry]) -> bool
    ensures { result ≡ lists digest.now manifests.now }
{
    manifests
        .iter()
        .any(|entry| entry.digest.as_str() == digest)
}

// Returns the digest that the resolver returned, which must be an entry's.
fn entry_named(
    alloc: Global,
    manifests: &[ImageIndexEntry],
    answer: Option<Text>,
) -> Result<Text, OciDistributionError>
    ensures { Matches is_memory result (entry_named manifests.now answer) }
{
    let Some(digest) = answer else {
        let none = Text::new(alloc, "")?;
        return Err(OciDistributionError::ImageManifestNotFoundError(none));
    };
    if lists(digest.as_str(), manifests) {
        return Ok(digest);
    }
    Err(OciDistributionError::ImageManifestNotFoundError(digest))
}

/// Returns the digest of the entry that the resolver selects.
pub fn entry_found(
    alloc: Global,
    resolver: &Option<PlatformResolver>,
    manifests: &[ImageIndexEntry],
) -> Result<Text, OciDistributionError>
    ensures { Matches is_memory result (entry_found resolver.now manifests.now) }
{
    match resolver {
        Some(resolver) => {
            let answer = resolver.resolve(alloc, manifests)?;
            let digest = entry_named(alloc, manifests, answer)?;
            Ok(digest)
        }
        None => Err(OciDistributionError::ImageIndexParsingNoPlatformResolverError),
    }
}

/// Returns the manifest of the entry with this digest, which may not be another index.
pub fn entry_manifest(
    alloc: Global,
    digest: &str,
    document: OciManifest,
) -> Result<OciImageManifest, OciDistributionError>
    ensures { Matches is_memory result (entry_manifest digest.now document) }
{
    match document {
        OciManifest::Image(manifest) => Ok(manifest),
        OciManifest::ImageIndex(_) => {
            let digest = Text::new(alloc, digest)?;
            Err(OciDistributionError::ImageManifestNotFoundError(digest))
        }
    }
}

/// Returns the reference of an entry, in the image's repository and with the same mirror.
pub fn entry_reference(
    alloc: Global,
    image: &Reference,
    digest: &str,
) -> Result<Reference, AllocError>
    ensures { IfOk result (λ entry. entry ≡ entry_reference image.now digest.now) }
{
    let digest = Text::new(alloc, digest)?;
    let entry = image.clone_with_digest(alloc, digest)?;
    Ok(entry)
}

/// Returns a configuration as text.
#[tactic(auto, using(crate::proofs::ConfigTexts::text_is, crate::proofs::ConfigTexts::text_is_not))]
pub fn config_text(alloc: Global, content: &Blob) -> Result<Text, OciDistributionError>
    ensures { Matches is_memory result (config_text content.now) }
{
    match str::from_utf8(content.as_slice()) {
        Ok(text) => {
            let text = Text::new(alloc, text)?;
            Ok(text)
        }
        Err(_) => Err(OciDistributionError::GenericError(GenericCause::ConfigNotText)),
    }
}
