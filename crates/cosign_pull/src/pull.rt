//! The image of a digest that a signature stands for.
ghost use Rattle.std.specs.Prelude.{◌≡◌, IfOk};
ghost use Rattle.engine_terms.specs.Contexts.{within};
ghost use Rattle.oci_names.specs.Reference.{digest_of, whole_text};
ghost use Rattle.engine_terms.specs.declared.settings.Settings.{Settings};
ghost use Rattle.json_values.specs.Refusals.{Matches};
ghost use Rattle.engine_terms.specs.Error.{is_memory as engine_is_memory};
ghost use Rattle.engine_requests.specs.Requests.{listed, manifest_types};
ghost use Rattle.engine_answers.specs.Index.{entry_found};
ghost use Rattle.registry_calls.specs.Error.{is_memory};
ghost use Rattle.registry_calls.specs.ErrorContext.{with_error_context};
ghost use Rattle.registry_calls.specs.declared.error_context.Called.TheVariants.{Pull};
ghost use Rattle.registry_calls.specs.Clients.{ClientMeets};
ghost use Rattle.cosign_rows.specs.Image.{named_by_reference, document_in, entry_in, layers_row, blobs_row};
ghost use Rattle.cosign_rows.specs.Image.{with_image, entry_call, entry_row, manifest_row};
ghost use Rattle.cosign_rows.specs.Image.{after_document, image_row};

use cosign_rows::{Asked, Pulled, PulledManifest};
use engine_answers::{entry_found, entry_manifest, entry_reference, read_document};
use engine_rows::{config_of, layer_of, layers_accepted};
use engine_terms::OciDistributionError;
use json_values::{Blob, Copied, List, Text};
use oci_digests::{DigestError, validate_digest};
use oci_manifests::blob::Config;
use oci_manifests::{
    IMAGE_MANIFEST_LIST_MEDIA_TYPE, IMAGE_MANIFEST_MEDIA_TYPE, ImageIndexEntry, ImageLayer,
    OCI_IMAGE_INDEX_MEDIA_TYPE, OCI_IMAGE_MEDIA_TYPE, OciDescriptor, OciImageManifest, OciManifest,
    PlatformResolver,
};
use oci_names::Reference;
use oci_transport::Transport;
use registry_calls::{Called, ClientCapabilities, SigstoreError, with_error_context};
use std::alloc::{AllocError, Global};

// The four media types of manifests and indexes.
fn manifest_types(alloc: Global) -> Result<List<Text>, AllocError>
    ensures { IfOk result (λ types. listed types ≡ manifest_types) }
{
    let mut types = List::new(alloc);
    types.push(Text::new(alloc, IMAGE_MANIFEST_MEDIA_TYPE)?)?;
    types.push(Text::new(alloc, IMAGE_MANIFEST_LIST_MEDIA_TYPE)?)?;
    types.push(Text::new(alloc, OCI_IMAGE_MEDIA_TYPE)?)?;
    types.push(Text::new(alloc, OCI_IMAGE_INDEX_MEDIA_TYPE)?)?;
    Ok(types)
}

// If the requested reference has a digest, it names the document.
fn named_by_reference(
    alloc: Global,
    image: &Reference,
    bytes: &Blob,
) -> Result<(), OciDistributionError>
    ensures { Matches engine_is_memory result (named_by_reference (digest_of image.now) bytes.now) }
{
    let Some(digest) = image.digest() else {
        return Ok(());
    };
    match validate_digest(alloc, bytes.as_slice(), None, Some(digest)) {
        Ok(_) => Ok(()),
        Err(DigestError::WantOfMemory) => Err(OciDistributionError::WantOfMemory),
        Err(error) => Err(OciDistributionError::DigestError(error)),
    }
}

/// Returns the manifest or the index that the bytes are. Fails with the error of the comparison if the reference has a
/// digest that does not name the bytes, then as `read_document` fails on the bytes.
pub fn document_in(
    alloc: Global,
    image: &Reference,
    bytes: &Blob,
) -> Result<OciManifest, OciDistributionError>
    ensures reads { Matches engine_is_memory result (document_in image.now bytes.now) }
{
    named_by_reference(alloc, image, bytes)?;
    let document = read_document(alloc, bytes)?;
    Ok(document)
}

// The manifest in an entry's document, which must not be an index itself.
fn entry_in(
    alloc: Global,
    entry: &str,
    bytes: &Blob,
) -> Result<OciImageManifest, OciDistributionError>
    ensures { Matches engine_is_memory result (entry_in entry.now bytes.now) }
{
    let document = read_document(alloc, bytes)?;
    let manifest = entry_manifest(alloc, entry, document)?;
    Ok(manifest)
}

// Appends each descriptor's blob to the layers.
fn pull_layers<C: ClientCapabilities, T: Transport>(
    alloc: Global,
    client: &mut C,
    transport: &mut T,
    moment: u64,
    source: &Reference,
    descriptors: &[OciDescriptor],
    mut layers: List<ImageLayer>,
) -> Result<List<ImageLayer>, SigstoreError>
    ensures { (s : Settings) → ClientMeets is_memory s
        (layers_row (within s moment) source.now descriptors.now layers)
        (C.state client.old) (C.state client.new) (T.state transport.old) (T.state transport.new) result }
{
    for descriptor in descriptors {
        let content = client.pull_blob(alloc, transport, moment, source, descriptor)?;
        let layer = layer_of(alloc, descriptor, content)?;
        layers.push(layer)?;
    }
    Ok(layers)
}

// The configuration and the layers that a manifest names.
fn pull_blobs<C: ClientCapabilities, T: Transport>(
    alloc: Global,
    client: &mut C,
    transport: &mut T,
    moment: u64,
    source: &Reference,
    accepted: &[Text],
    manifest: &OciImageManifest,
) -> Result<(Config, List<ImageLayer>), SigstoreError>
    ensures { (s : Settings) → ClientMeets is_memory s
        (blobs_row (within s moment) source.now accepted.now manifest.now)
        (C.state client.old) (C.state client.new) (T.state transport.old) (T.state transport.new) result }
{
    let content = client.pull_blob(alloc, transport, moment, source, &manifest.config)?;
    let descriptors = manifest.layers.as_slice();
    let checked = layers_accepted(alloc, accepted, descriptors);
    with_error_context(alloc, Called::Pull, source, checked)?;
    let layers = pull_layers(
        alloc,
        client,
        transport,
        moment,
        source,
        descriptors,
        List::new(alloc),
    )?;
    let config = config_of(alloc, manifest, content)?;
    Ok((config, layers))
}

// The platform resolver of the client's configuration.
fn platform_resolver<C: ClientCapabilities>(
    alloc: Global,
    client: &C,
) -> Result<Option<PlatformResolver>, AllocError>
    ensures { IfOk result (λ resolver. resolver ≡ (C.state client.now).settings.platform_resolver) }
{
    match client.platform_resolver() {
        Some(resolver) => Ok(Some(resolver.copy(alloc)?)),
        None => Ok(None),
    }
}

// The digest of the entry that the client's configuration selects.
fn entry_of<C: ClientCapabilities>(
    alloc: Global,
    client: &C,
    source: &Reference,
    entries: &[ImageIndexEntry],
) -> Result<Text, SigstoreError>
    ensures { Matches is_memory result (with_error_context Pull (whole_text source.now)
        (entry_found (C.state client.now).settings.platform_resolver entries.now)) }
{
    let resolver = platform_resolver(alloc, client)?;
    let found = entry_found(alloc, &resolver, entries);
    with_error_context(alloc, Called::Pull, source, found)
}

// Converts the error of a pull to one that names the source.
fn with_image(
    alloc: Global,
    source: &Reference,
    found: Result<(Blob, Text), SigstoreError>,
) -> Result<(Blob, Text), SigstoreError>
    ensures { Matches is_memory result (with_image (whole_text source.now) found) }
{
    match found {
        Ok(found) => Ok(found),
        Err(SigstoreError::RegistryPullError { error, .. }) => {
            let image = source.whole(alloc)?;
            Err(SigstoreError::RegistryPullError { image, error })
        }
        Err(SigstoreError::OciReferenceNotValidError { reference }) => {
            Err(SigstoreError::OciReferenceNotValidError { reference })
        }
        Err(SigstoreError::RegistryFetchManifestError { image, error }) => {
            Err(SigstoreError::RegistryFetchManifestError { image, error })
        }
        Err(SigstoreError::RegistryPullManifestError { image, error }) => {
            Err(SigstoreError::RegistryPullManifestError { image, error })
        }
        Err(SigstoreError::RegistryPushError { image, error }) => {
            Err(SigstoreError::RegistryPushError { image, error })
        }
        Err(SigstoreError::WantOfMemory) => Err(SigstoreError::WantOfMemory),
    }
}

// The document of an entry, in the source's repository.
fn pull_entry_document<C: ClientCapabilities, T: Transport>(
    alloc: Global,
    client: &mut C,
    transport: &mut T,
    asked: &Asked<'_>,
    source: &Reference,
    entry: &str,
) -> Result<(Blob, Text), SigstoreError>
    ensures { (s : Settings) → ClientMeets is_memory s
        (entry_call (within s asked.now.moment) source.now asked.now.auth.now entry.now)
        (C.state client.old) (C.state client.new) (T.state transport.old) (T.state transport.new) result }
{
    let types = manifest_types(alloc)?;
    let reference = entry_reference(alloc, source, entry)?;
    let found = client.pull_manifest_raw(
        alloc,
        transport,
        asked.moment,
        &reference,
        asked.auth,
        types.as_slice(),
    );
    with_image(alloc, source, found)
}

// The manifest of the entry that the client's configuration selects.
fn pull_entry<C: ClientCapabilities, T: Transport>(
    alloc: Global,
    client: &mut C,
    transport: &mut T,
    asked: &Asked<'_>,
    source: &Reference,
    entries: &[ImageIndexEntry],
) -> Result<PulledManifest, SigstoreError>
    ensures { (s : Settings) → ClientMeets is_memory s
        (entry_row (within s asked.now.moment) source.now asked.now.auth.now entries.now)
        (C.state client.old) (C.state client.new) (T.state transport.old) (T.state transport.new) result }
{
    let entry = entry_of(alloc, client, source, entries)?;
    let found = pull_entry_document(alloc, client, transport, asked, source, entry.as_str())?;
    let (bytes, _) = found;
    let read = entry_in(alloc, entry.as_str(), &bytes);
    let manifest = with_error_context(alloc, Called::Pull, source, read)?;
    Ok(PulledManifest {
        bytes,
        manifest,
        entry: Some(entry),
    })
}

/// Returns the document's own manifest with the bytes `first`, or that of the entry of the index that the client's
/// platform resolver selects, requested by its digest in the source's repository. Fails as the client's
/// `pull_manifest_raw` fails, and if the resolver selects no entry or the entry's document is no manifest; an error
/// names the source.
pub fn pull_chosen<C: ClientCapabilities, T: Transport>(
    alloc: Global,
    client: &mut C,
    transport: &mut T,
    asked: &Asked<'_>,
    source: &Reference,
    first: &Blob,
    document: OciManifest,
) -> Result<PulledManifest, SigstoreError>
    ensures run { (s : Settings) → ClientMeets is_memory s
        (manifest_row (within s asked.now.moment) source.now asked.now.auth.now first.now document)
        (C.state client.old) (C.state client.new) (T.state transport.old) (T.state transport.new) result }
{
    match document {
        OciManifest::Image(manifest) => {
            let bytes = first.copy(alloc)?;
            Ok(PulledManifest {
                bytes,
                manifest,
                entry: None,
            })
        }
        OciManifest::ImageIndex(index) => {
            let entries = index.manifests.as_slice();
            pull_entry(alloc, client, transport, asked, source, entries)
        }
    }
}

// The manifest of a document, and its blobs.
fn after_document<C: ClientCapabilities, T: Transport>(
    alloc: Global,
    client: &mut C,
    transport: &mut T,
    asked: &Asked<'_>,
    source: &Reference,
    accepted: &[Text],
    first: Blob,
) -> Result<Pulled, SigstoreError>
    ensures { (s : Settings) → ClientMeets is_memory s
        (after_document (within s asked.now.moment) asked.now.image.now source.now asked.now.auth.now
        accepted.now first)
        (C.state client.old) (C.state client.new) (T.state transport.old) (T.state transport.new) result }
{
    let read = document_in(alloc, asked.image, &first);
    let document = with_error_context(alloc, Called::Pull, source, read)?;
    let chosen = pull_chosen(alloc, client, transport, asked, source, &first, document)?;
    let moment = asked.moment;
    let manifest = &chosen.manifest;
    let blobs = pull_blobs(alloc, client, transport, moment, source, accepted, manifest)?;
    let (config, layers) = blobs;
    Ok(Pulled {
        first,
        chosen,
        config,
        layers,
    })
}

/// Returns the document of the source's digest, its manifest, and that manifest's blobs. `asked` holds the requested
/// reference.
pub fn pull_image<C: ClientCapabilities, T: Transport>(
    alloc: Global,
    client: &mut C,
    transport: &mut T,
    asked: &Asked<'_>,
    source: &Reference,
    accepted: &[Text],
) -> Result<Pulled, SigstoreError>
    ensures { (s : Settings) → ClientMeets is_memory s
        (image_row (within s asked.now.moment) asked.now.image.now source.now asked.now.auth.now accepted.now)
        (C.state client.old) (C.state client.new) (T.state transport.old) (T.state transport.new) result }
{
    let types = manifest_types(alloc)?;
    let found = client.pull_manifest_raw(
        alloc,
        transport,
        asked.moment,
        source,
        asked.auth,
        types.as_slice(),
    )?;
    let (first, _) = found;
    after_document(alloc, client, transport, asked, source, accepted, first)
}
