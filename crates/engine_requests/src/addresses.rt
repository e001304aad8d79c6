// Builds the URLs of requests.
ghost use Rattle.std.specs.Prelude.{◌≡◌, ◌++◌, IfOk, OnOk, OnErr, option_copied};
ghost use Rattle.json_values.specs.Refusals.{Matches};
ghost use Rattle.engine_terms.specs.Error.{is_memory};
ghost use Rattle.engine_requests.specs.Addresses.{registry_text, base_text, manifest_name};
ghost use Rattle.engine_requests.specs.Addresses.{mirrored, manifest_text, blob_text, uploads_text, url_read};
ghost use Rattle.oci_names.specs.Reference.{tag_of, digest_of, namespace_of};

use engine_terms::{OciDistributionError, Settings};
use json_values::Text;
use oci_names::Reference;
use oci_transport::{UrlError, request_url};
use std::alloc::{AllocError, Global};
use url::Url;

/// Returns the text of the registry's own URL: scheme, host and port.
pub fn registry_text(
    alloc: Global,
    settings: &Settings,
    image: &Reference,
) -> Result<Text, AllocError>
    ensures { IfOk result (λ text. text ≡ registry_text settings.now image.now) }
{
    let registry = image.resolve_registry();
    let mut text = Text::new(alloc, settings.protocol.scheme_for(registry))?;
    text.push_str("://")?;
    text.push_str(registry)?;
    Ok(text)
}

pub(crate) fn base_text(
    alloc: Global,
    settings: &Settings,
    image: &Reference,
) -> Result<Text, AllocError>
    ensures { IfOk result (λ text. text ≡ base_text settings.now image.now) }
{
    let mut text = registry_text(alloc, settings, image)?;
    text.push_str("/v2/")?;
    Ok(text)
}

fn manifest_name(image: &Reference) -> &str
    ensures { result.now ≡ manifest_name (digest_of image.now) (tag_of image.now) }
{
    if let Some(digest) = image.digest() {
        return digest;
    }
    match image.tag() {
        Some(tag) => tag,
        None => "latest",
    }
}

// Adds the registry that a mirror stands in for to the query.
fn push_mirrored(text: &mut Text, image: &Reference) -> Result<(), AllocError>
    ensures { OnOk result (text.new ≡ text.old ++ mirrored (namespace_of image.now)) }
{
    match image.namespace() {
        Some(registry) => {
            text.push_str("?ns=")?;
            text.push_str(registry)?;
            Ok(())
        }
        None => Ok(()),
    }
}

fn manifest_text(alloc: Global, settings: &Settings, image: &Reference) -> Result<Text, AllocError>
    ensures { IfOk result (λ text. text ≡ manifest_text settings.now image.now) }
{
    let mut text = base_text(alloc, settings, image)?;
    text.push_str(image.repository())?;
    text.push_str("/manifests/")?;
    text.push_str(manifest_name(image))?;
    push_mirrored(&mut text, image)?;
    Ok(text)
}

fn blob_text(
    alloc: Global,
    settings: &Settings,
    image: &Reference,
    digest: &str,
) -> Result<Text, AllocError>
    ensures { IfOk result (λ text. text ≡ blob_text settings.now image.now digest.now) }
{
    let mut text = base_text(alloc, settings, image)?;
    text.push_str(image.repository())?;
    text.push_str("/blobs/")?;
    text.push_str(digest)?;
    push_mirrored(&mut text, image)?;
    Ok(text)
}

fn uploads_text(alloc: Global, settings: &Settings, image: &Reference) -> Result<Text, AllocError>
    ensures { IfOk result (λ text. text ≡ uploads_text settings.now image.now) }
{
    let mut text = base_text(alloc, settings, image)?;
    text.push_str(image.repository())?;
    text.push_str("/blobs/uploads/")?;
    push_mirrored(&mut text, image)?;
    Ok(text)
}

/// Parses the URL, or returns `UrlParseError` if it is malformed.
pub fn read_url(alloc: Global, text: Text) -> Result<Url, OciDistributionError>
    ensures { Matches is_memory result (url_read text) }
{
    match request_url(alloc, text.as_str()) {
        Ok(url) => Ok(url),
        Err(UrlError::Refused) => Err(OciDistributionError::UrlParseError(text)),
        Err(UrlError::WantOfMemory) => Err(OciDistributionError::WantOfMemory),
    }
}

/// Returns the URL of the registry itself: scheme, host and port.
pub fn registry_address(
    alloc: Global,
    settings: &Settings,
    image: &Reference,
) -> Result<Url, OciDistributionError>
    ensures { Matches is_memory result (url_read (registry_text settings.now image.now)) }
{
    let text = registry_text(alloc, settings, image)?;
    let url = read_url(alloc, text)?;
    Ok(url)
}

/// Returns the URL of the registry's `/v2/`.
pub fn base_url(
    alloc: Global,
    settings: &Settings,
    image: &Reference,
) -> Result<Url, OciDistributionError>
    ensures { Matches is_memory result (url_read (base_text settings.now image.now)) }
{
    let text = base_text(alloc, settings, image)?;
    let url = read_url(alloc, text)?;
    Ok(url)
}

/// Returns the URL of the image's manifest.
pub fn manifest_url(
    alloc: Global,
    settings: &Settings,
    image: &Reference,
) -> Result<Url, OciDistributionError>
    ensures { Matches is_memory result (url_read (manifest_text settings.now image.now)) }
{
    let text = manifest_text(alloc, settings, image)?;
    let url = read_url(alloc, text)?;
    Ok(url)
}

/// Returns the URL of a blob of the image's repository.
pub fn blob_url(
    alloc: Global,
    settings: &Settings,
    image: &Reference,
    digest: &str,
) -> Result<Url, OciDistributionError>
    ensures { Matches is_memory result (url_read (blob_text settings.now image.now digest.now)) }
{
    let text = blob_text(alloc, settings, image, digest)?;
    let url = read_url(alloc, text)?;
    Ok(url)
}

/// Returns the URL at which an upload of a blob to the image's repository begins.
pub fn uploads_url(
    alloc: Global,
    settings: &Settings,
    image: &Reference,
) -> Result<Url, OciDistributionError>
    ensures { Matches is_memory result (url_read (uploads_text settings.now image.now)) }
{
    let text = uploads_text(alloc, settings, image)?;
    let url = read_url(alloc, text)?;
    Ok(url)
}
