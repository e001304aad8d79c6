// Pulls documents and their digests.
ghost use Rattle.std.specs.Prelude.{◌≡◌};
ghost use Rattle.oci_auth.specs.declared.auth_state.AuthState.{AuthState};
ghost use Rattle.oci_protocol.specs.Runs.{Meets};
ghost use Rattle.engine_terms.specs.Contexts.{context_of};
ghost use Rattle.json_values.specs.Refusals.{Matches};
ghost use Rattle.engine_terms.specs.Error.{is_memory};
ghost use Rattle.engine_rows.specs.Pulls.{document, manifest_document, pull_manifest_raw};
ghost use Rattle.engine_rows.specs.Pulls.{digest_by, fetch_manifest_digest, pull_manifest, manifest_asked};

use engine_answers::{accepted, document_in, fits_reference, read_document};
use engine_requests::{MANIFEST_TYPES, manifest_url};
use engine_rows::NamedAnswer;
use engine_steps::{Target, named_after, prepared, whole};
use engine_terms::{Call, OciDistributionError};
use json_values::{Blob, Text};
use oci_auth::{AuthState, RegistryAuth, RegistryOperation, store};
use oci_manifests::OciManifest;
use oci_transport::{Method, Transport};
use std::alloc::Global;
use url::Url;

// Returns a document's bytes with their digest.
fn document<T: Transport>(
    alloc: Global,
    transport: &mut T,
    memory: &mut AuthState,
    call: &Call,
    url: &Url,
    types: &str,
) -> Result<(Blob, Text), OciDistributionError>
    ensures { Meets is_memory (document (context_of call.now) call.now.image.now url.now types.now)
        (T.state transport.old) (T.state transport.new) memory.old memory.new result }
{
    let target = Target {
        method: Method::Get,
        url,
    };
    let request = prepared(
        alloc,
        transport,
        memory,
        call,
        RegistryOperation::Pull,
        &target,
        types,
    )?;
    let got = whole(alloc, transport, 10, &request, call.settings.max_body_bytes)?;
    let found = document_in(alloc, call.image, got)?;
    Ok(found)
}

/// Returns the bytes of the image's manifest or index, with their digest. `types` is what the header `accept` lists.
pub fn manifest_document<T: Transport>(
    alloc: Global,
    transport: &mut T,
    memory: &mut AuthState,
    call: &Call,
    types: &str,
) -> Result<(Blob, Text), OciDistributionError>
    ensures { Meets is_memory (manifest_document (context_of call.now) call.now.image.now types.now)
        (T.state transport.old) (T.state transport.new) memory.old memory.new result }
{
    let url = manifest_url(alloc, call.settings, call.image)?;
    let found = document(alloc, transport, memory, call, &url, types)?;
    Ok(found)
}

/// Returns the same, after storing the credentials unless some are stored for the registry already.
pub fn pull_manifest_raw<T: Transport>(
    alloc: Global,
    transport: &mut T,
    memory: &mut AuthState,
    call: &Call,
    auth: &RegistryAuth,
    types: &str,
) -> Result<(Blob, Text), OciDistributionError>
    ensures { Meets is_memory (pull_manifest_raw (context_of call.now) call.now.image.now auth.now types.now)
        (T.state transport.old) (T.state transport.new) memory.old memory.new result }
{
    store(alloc, memory, call.image.resolve_registry(), auth)?;
    let found = manifest_document(alloc, transport, memory, call, types)?;
    Ok(found)
}

// Returns the digest that a response names, or else the document's.
fn digest_by<T: Transport>(
    alloc: Global,
    transport: &mut T,
    memory: &mut AuthState,
    call: &Call,
    url: &Url,
    named: NamedAnswer,
) -> Result<Text, OciDistributionError>
    ensures { Meets is_memory (digest_by (context_of call.now) call.now.image.now url.now named)
        (T.state transport.old) (T.state transport.new) memory.old memory.new result }
{
    match named {
        NamedAnswer::ByHeader(digest, got) => {
            let _body = accepted(alloc, 200, got)?;
            let digest = fits_reference(alloc, digest, call.image)?;
            Ok(digest)
        }
        NamedAnswer::Unnamed => {
            let found = document(alloc, transport, memory, call, url, MANIFEST_TYPES)?;
            Ok(found.1)
        }
    }
}

/// Returns the digest of the image's manifest or index, as the registry names it.
pub fn fetch_manifest_digest<T: Transport>(
    alloc: Global,
    transport: &mut T,
    memory: &mut AuthState,
    call: &Call,
    auth: &RegistryAuth,
) -> Result<Text, OciDistributionError>
    ensures { Meets is_memory (fetch_manifest_digest (context_of call.now) call.now.image.now auth.now)
        (T.state transport.old) (T.state transport.new) memory.old memory.new result }
{
    store(alloc, memory, call.image.resolve_registry(), auth)?;
    let url = manifest_url(alloc, call.settings, call.image)?;
    let target = Target {
        method: Method::Head,
        url: &url,
    };
    let request = prepared(
        alloc,
        transport,
        memory,
        call,
        RegistryOperation::Pull,
        &target,
        MANIFEST_TYPES,
    )?;
    let named = named_after(alloc, transport, 10, &request, call.settings.max_body_bytes)?;
    let digest = digest_by(alloc, transport, memory, call, &url, named)?;
    Ok(digest)
}

/// Returns the image's manifest or index, with its digest.
pub fn pull_manifest<T: Transport>(
    alloc: Global,
    transport: &mut T,
    memory: &mut AuthState,
    call: &Call,
    auth: &RegistryAuth,
) -> Result<(OciManifest, Text), OciDistributionError>
    ensures { Meets is_memory (pull_manifest (context_of call.now) call.now.image.now auth.now)
        (T.state transport.old) (T.state transport.new) memory.old memory.new result }
{
    let found = pull_manifest_raw(alloc, transport, memory, call, auth, MANIFEST_TYPES)?;
    let document = read_document(alloc, &found.0)?;
    Ok((document, found.1))
}

/// Returns the same, if credentials are already stored.
pub(crate) fn manifest_asked<T: Transport>(
    alloc: Global,
    transport: &mut T,
    memory: &mut AuthState,
    call: &Call,
) -> Result<(OciManifest, Text), OciDistributionError>
    ensures { Meets is_memory (manifest_asked (context_of call.now) call.now.image.now)
        (T.state transport.old) (T.state transport.new) memory.old memory.new result }
{
    let found = manifest_document(alloc, transport, memory, call, MANIFEST_TYPES)?;
    let document = read_document(alloc, &found.0)?;
    Ok((document, found.1))
}
