// Where the referrers of a manifest are listed.
ghost use Rattle.std.specs.Prelude.{◌≡◌, IfOk, option_copied};
ghost use Rattle.oci_names.specs.Reference.{digest_of};
ghost use Rattle.json_values.specs.Refusals.{Matches};
ghost use Rattle.engine_terms.specs.Error.{is_memory};
ghost use Rattle.engine_requests.specs.ReferrerLists.{digest_given, referrers_text, with_artifact_type, referrers_url};

use crate::addresses::{base_text, read_url};
use crate::tokens::with_pair;
use engine_terms::{GenericCause, OciDistributionError, Settings};
use json_values::Text;
use oci_names::Reference;
use std::alloc::{AllocError, Global};
use url::Url;

/// Returns the digest of the reference, whose referrers are requested, or `NoDigest`.
pub fn digest_given(alloc: Global, image: &Reference) -> Result<Text, OciDistributionError>
    ensures { Matches is_memory result (digest_given (digest_of image.now)) }
{
    let Some(digest) = image.digest() else {
        return Err(OciDistributionError::GenericError(GenericCause::NoDigest));
    };
    let digest = Text::new(alloc, digest)?;
    Ok(digest)
}

fn referrers_text(
    alloc: Global,
    settings: &Settings,
    image: &Reference,
    digest: &str,
) -> Result<Text, AllocError>
    ensures { IfOk result (λ text. text ≡ referrers_text settings.now image.now digest.now) }
{
    let mut text = base_text(alloc, settings, image)?;
    text.push_str(image.repository())?;
    text.push_str("/referrers/")?;
    text.push_str(digest)?;
    Ok(text)
}

fn with_artifact_type(url: Url, artifact_type: Option<&str>) -> Result<Url, AllocError>
    ensures { IfOk result (λ made. made ≡ with_artifact_type (option_copied artifact_type.entry) url) }
{
    match artifact_type {
        Some(artifact_type) => {
            let url = with_pair(url, "artifactType", artifact_type)?;
            Ok(url)
        }
        None => Ok(url),
    }
}

/// Returns the URL of the list of a digest's referrers, restricted to an artifact type if one is given.
pub fn referrers_url(
    alloc: Global,
    settings: &Settings,
    image: &Reference,
    digest: &str,
    artifact_type: Option<&str>,
) -> Result<Url, OciDistributionError>
    ensures { Matches is_memory result
        (referrers_url settings.now image.now digest.now (option_copied artifact_type.entry)) }
{
    let text = referrers_text(alloc, settings, image, digest)?;
    let url = read_url(alloc, text)?;
    let url = with_artifact_type(url, artifact_type)?;
    Ok(url)
}
