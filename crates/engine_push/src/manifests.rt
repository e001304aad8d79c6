// Pushes manifests and indexes.
ghost use Rattle.std.specs.Prelude.{◌≡◌, IfOk, None};
ghost use Rattle.std.specs.Option.{option_copied};
ghost use Rattle.url.specs.Parts.{serialize};
ghost use Rattle.oci_names.specs.Reference.{tag_of};
ghost use Rattle.oci_protocol.specs.Runs.{Meets};
ghost use Rattle.engine_terms.specs.Contexts.{context_of};
ghost use Rattle.engine_terms.specs.Error.{is_memory};
ghost use Rattle.engine_requests.specs.Addresses.{manifest_name};
ghost use Rattle.push_rows.specs.Images.{before_end, named_url, is_unlocated, named_for};
ghost use Rattle.push_rows.specs.Images.{push_manifest_raw, push_manifest, push_manifest_list};

use crate::written::{Written, write_document, write_index};
use crate::{Content, sent};
use engine_requests::manifest_url;
use engine_steps::Target;
use engine_terms::{Call, OciDistributionError};
use json_values::{Blob, Text};
use oci_auth::{AuthState, RegistryAuth, store};
use oci_docs::{OciImageIndex, OciManifest, sha256_digest};
use oci_names::Reference;
use oci_transport::{Method, Transport};
use std::alloc::{AllocError, Global};
use url::Url;

fn before_end<'a>(end: &str, text: &'a str) -> Option<&'a str>
    ensures { option_copied result ≡ before_end end.now text.now }
{
    match text.strip_suffix(end) {
        Some(front) => Some(front),
        None => None,
    }
}

fn tag_or_latest(image: &Reference) -> &str
    ensures { result.now ≡ manifest_name None (tag_of image.now) }
{
    match image.tag() {
        Some(tag) => tag,
        None => "latest",
    }
}

// Returns the manifest's URL by the digest of its bytes, if the URL of its request ends in the tag.
fn named_url(
    alloc: Global,
    url: &Url,
    image: &Reference,
    body: &[u8],
) -> Result<Option<Text>, AllocError>
    ensures { IfOk result (λ named. named ≡ named_url (serialize url.now) image.now body.now) }
{
    let Some(front) = before_end(tag_or_latest(image), url.as_str()) else {
        return Ok(None);
    };
    let mut named = Text::new(alloc, front)?;
    let digest = sha256_digest(alloc, body)?;
    named.push_str(digest.as_str())?;
    Ok(Some(named))
}

fn is_unlocated(error: &OciDistributionError) -> bool
    ensures { result ≡ is_unlocated error.now }
{
    matches!(error, OciDistributionError::RegistryNoLocationError)
}

// Returns the URL if the refusal is that the response names no location.
fn named_for(error: &OciDistributionError, named: Option<Text>) -> Option<Text>
    ensures { result ≡ named_for error.now named }
{
    if is_unlocated(error) {
        return named;
    }
    None
}

/// Pushes these bytes as the image's manifest, under this content type, and returns the URL at which it is then: the
/// location in the response, or without one the URL by the SHA-256 digest of the bytes, if the URL of the request ends
/// in the tag, or in `latest` if the reference has no tag. `RegistryNoLocationError` if it does not.
///
/// `GenericError` with `HeaderText` if the content type is not a valid header value.
#[tactic(none)]
pub fn push_manifest_raw<T: Transport>(
    alloc: Global,
    transport: &mut T,
    memory: &mut AuthState,
    call: &Call,
    body: Blob,
    content_type: &str,
) -> Result<Text, OciDistributionError>
    ensures { Meets is_memory (push_manifest_raw (context_of call.now) call.now.image.now body content_type.now)
        (T.state transport.old) (T.state transport.new) memory.old memory.new result }
{
    let url = manifest_url(alloc, call.settings, call.image)?;
    let named = named_url(alloc, &url, call.image, body.as_slice())?;
    let media_type = Text::new(alloc, content_type)?;
    let document = Content::Document {
        media_type,
        bytes: body,
    };
    let target = Target {
        method: Method::Put,
        url: &url,
    };
    let error = match sent(alloc, transport, memory, call, &target, document, 201) {
        Ok(location) => return Ok(location),
        Err(error) => error,
    };
    let Some(location) = named_for(&error, named) else {
        return Err(error);
    };
    Ok(location)
}

/// Pushes the text of a document that was written.
#[tactic(none)]
pub(crate) fn push_written<T: Transport>(
    alloc: Global,
    transport: &mut T,
    memory: &mut AuthState,
    call: &Call,
    document: Written,
) -> Result<Text, OciDistributionError>
    ensures { Meets is_memory
        (push_manifest_raw (context_of call.now) call.now.image.now document.body document.media_type)
        (T.state transport.old) (T.state transport.new) memory.old memory.new result }
{
    let Written { body, media_type } = document;
    let url = push_manifest_raw(alloc, transport, memory, call, body, media_type.as_str())?;
    Ok(url)
}

/// Pushes the text of a manifest or an index, which is written anew: names and strings are in NFC (Unicode Standard Annex
/// 15), so that bytes that were pulled may get another digest; `push_manifest_raw` pushes them as they are. Its content
/// type is its media type, or without one OCI's for a manifest and Docker's for an index.
#[tactic(none)]
pub fn push_manifest<T: Transport>(
    alloc: Global,
    transport: &mut T,
    memory: &mut AuthState,
    call: &Call,
    manifest: &OciManifest,
) -> Result<Text, OciDistributionError>
    ensures { Meets is_memory (push_manifest (context_of call.now) call.now.image.now manifest.now)
        (T.state transport.old) (T.state transport.new) memory.old memory.new result }
{
    let document = write_document(alloc, manifest)?;
    let url = push_written(alloc, transport, memory, call, document)?;
    Ok(url)
}

/// Pushes the text of an index, after storing the credentials unless some are stored for the registry already.
#[tactic(none)]
pub fn push_manifest_list<T: Transport>(
    alloc: Global,
    transport: &mut T,
    memory: &mut AuthState,
    call: &Call,
    auth: &RegistryAuth,
    index: OciImageIndex,
) -> Result<Text, OciDistributionError>
    ensures { Meets is_memory (push_manifest_list (context_of call.now) call.now.image.now auth.now index)
        (T.state transport.old) (T.state transport.new) memory.old memory.new result }
{
    let document = write_index(alloc, index)?;
    store(alloc, memory, call.image.resolve_registry(), auth)?;
    let url = push_written(alloc, transport, memory, call, document)?;
    Ok(url)
}
