// Pulls the manifests of images, to which indexes may lead.
ghost use Rattle.std.specs.Prelude.{◌≡◌};
ghost use Rattle.oci_manifests.specs.declared.document.OciManifest.TheVariants.{ImageIndex};
ghost use Rattle.oci_protocol.specs.Runs.{Meets};
ghost use Rattle.engine_terms.specs.Contexts.{context_of};
ghost use Rattle.engine_terms.specs.Error.{is_memory};
ghost use Rattle.engine_rows.specs.Manifests.{pull_entry, manifest_by, pull_image_manifest};
ghost use Rattle.engine_rows.specs.Manifests.{pull_image_manifest_and_list_digest, pull_manifest_and_config};
ghost use Rattle.engine_rows.specs.Manifests.{pull_manifest_and_config_and_list_digest};

use crate::documents::pull_manifest;
use crate::pulled_blob;
use engine_answers::{config_text, entry_found, entry_manifest, entry_reference};
use engine_requests::AsLayerDescriptor;
use engine_terms::{Call, OciDistributionError};
use json_values::Text;
use oci_auth::{AuthState, RegistryAuth};
use oci_manifests::{OciImageIndex, OciImageManifest, OciManifest};
use oci_transport::Transport;
use std::alloc::Global;

// Returns the manifest of the entry with this digest, which may not be another index.
fn pull_entry<T: Transport>(
    alloc: Global,
    transport: &mut T,
    memory: &mut AuthState,
    call: &Call,
    auth: &RegistryAuth,
    digest: &str,
) -> Result<OciImageManifest, OciDistributionError>
    ensures { Meets is_memory (pull_entry (context_of call.now) call.now.image.now auth.now digest.now)
        (T.state transport.old) (T.state transport.new) memory.old memory.new result }
{
    let image = entry_reference(alloc, call.image, digest)?;
    let entry = Call {
        settings: call.settings,
        image: &image,
        moment: call.moment,
    };
    let found = pull_manifest(alloc, transport, memory, &entry, auth)?;
    let (document, _) = found;
    let manifest = entry_manifest(alloc, digest, document)?;
    Ok(manifest)
}

// Returns the manifest of the selected entry of an index.
fn index_manifest<T: Transport>(
    alloc: Global,
    transport: &mut T,
    memory: &mut AuthState,
    call: &Call,
    auth: &RegistryAuth,
    index: &OciImageIndex,
    digest: Text,
) -> Result<(OciImageManifest, Text, Option<Text>), OciDistributionError>
    ensures { Meets is_memory
        (manifest_by (context_of call.now) call.now.image.now auth.now (ImageIndex index.now) digest)
        (T.state transport.old) (T.state transport.new) memory.old memory.new result }
{
    let resolver = &call.settings.platform_resolver;
    let entry = entry_found(alloc, resolver, index.manifests.as_slice())?;
    let manifest = pull_entry(alloc, transport, memory, call, auth, entry.as_str())?;
    Ok((manifest, entry, Some(digest)))
}

// Returns a manifest unchanged, or that of an index's entry.
fn manifest_by<T: Transport>(
    alloc: Global,
    transport: &mut T,
    memory: &mut AuthState,
    call: &Call,
    auth: &RegistryAuth,
    document: OciManifest,
    digest: Text,
) -> Result<(OciImageManifest, Text, Option<Text>), OciDistributionError>
    ensures { Meets is_memory (manifest_by (context_of call.now) call.now.image.now auth.now document digest)
        (T.state transport.old) (T.state transport.new) memory.old memory.new result }
{
    let index = match document {
        OciManifest::Image(manifest) => return Ok((manifest, digest, None)),
        OciManifest::ImageIndex(index) => index,
    };
    let found = index_manifest(alloc, transport, memory, call, auth, &index, digest)?;
    Ok(found)
}

/// Returns the manifest of an image with its digest, and the digest of the index that led to it, if one did. The
/// resolver of the settings selects the entry of an index. `ImageManifestNotFoundError` if it selects none, or if the
/// entry is another index.
pub fn pull_image_manifest_and_list_digest<T: Transport>(
    alloc: Global,
    transport: &mut T,
    memory: &mut AuthState,
    call: &Call,
    auth: &RegistryAuth,
) -> Result<(OciImageManifest, Text, Option<Text>), OciDistributionError>
    ensures { Meets is_memory (pull_image_manifest_and_list_digest (context_of call.now) call.now.image.now auth.now)
        (T.state transport.old) (T.state transport.new) memory.old memory.new result }
{
    let document = pull_manifest(alloc, transport, memory, call, auth)?;
    let (document_read, digest) = document;
    let found = manifest_by(alloc, transport, memory, call, auth, document_read, digest)?;
    Ok(found)
}

/// Returns the manifest of an image with its digest.
pub fn pull_image_manifest<T: Transport>(
    alloc: Global,
    transport: &mut T,
    memory: &mut AuthState,
    call: &Call,
    auth: &RegistryAuth,
) -> Result<(OciImageManifest, Text), OciDistributionError>
    ensures { Meets is_memory (pull_image_manifest (context_of call.now) call.now.image.now auth.now)
        (T.state transport.old) (T.state transport.new) memory.old memory.new result }
{
    let found = pull_image_manifest_and_list_digest(alloc, transport, memory, call, auth)?;
    let (manifest, digest, _) = found;
    Ok((manifest, digest))
}

/// Returns the manifest of an image with its digest, its configuration as text, and the digest of the index that led to
/// it, if one did.
pub fn pull_manifest_and_config_and_list_digest<T: Transport>(
    alloc: Global,
    transport: &mut T,
    memory: &mut AuthState,
    call: &Call,
    auth: &RegistryAuth,
) -> Result<(OciImageManifest, Text, Text, Option<Text>), OciDistributionError>
    ensures { Meets is_memory
        (pull_manifest_and_config_and_list_digest (context_of call.now) call.now.image.now auth.now)
        (T.state transport.old) (T.state transport.new) memory.old memory.new result }
{
    let found = pull_image_manifest_and_list_digest(alloc, transport, memory, call, auth)?;
    let (manifest, digest, list_digest) = found;
    let blob = manifest.config.as_layer_descriptor();
    let content = pulled_blob(alloc, transport, memory, call, &blob)?;
    let config = config_text(alloc, &content)?;
    Ok((manifest, digest, config, list_digest))
}

/// Returns the manifest of an image with its digest, and its configuration as text.
pub fn pull_manifest_and_config<T: Transport>(
    alloc: Global,
    transport: &mut T,
    memory: &mut AuthState,
    call: &Call,
    auth: &RegistryAuth,
) -> Result<(OciImageManifest, Text, Text), OciDistributionError>
    ensures { Meets is_memory (pull_manifest_and_config (context_of call.now) call.now.image.now auth.now)
        (T.state transport.old) (T.state transport.new) memory.old memory.new result }
{
    let found = pull_manifest_and_config_and_list_digest(alloc, transport, memory, call, auth)?;
    let (manifest, digest, config, _) = found;
    Ok((manifest, digest, config))
}
