//! The documents of a digest that a signature stands for.
ghost use Rattle.std.specs.Prelude.{◌≡◌, IfOk};
ghost use Rattle.engine_terms.specs.Contexts.{within};
ghost use Rattle.engine_terms.specs.declared.settings.Settings.{Settings};
ghost use Rattle.engine_requests.specs.Requests.{listed, manifest_types};
ghost use Rattle.registry_calls.specs.Error.{is_memory};
ghost use Rattle.registry_calls.specs.Clients.{ClientMeets};
ghost use Rattle.cosign_rows.specs.Rows.{documents_in, image_documents};

use crate::{document_in, pull_chosen};
use cosign_rows::{Asked, PulledDocuments};
use json_values::{Blob, List, Text};
use oci_manifests::{
    IMAGE_MANIFEST_LIST_MEDIA_TYPE, IMAGE_MANIFEST_MEDIA_TYPE, OCI_IMAGE_INDEX_MEDIA_TYPE,
    OCI_IMAGE_MEDIA_TYPE,
};
use oci_names::Reference;
use oci_transport::Transport;
use registry_calls::{Called, ClientCapabilities, SigstoreError, with_error_context};
use std::alloc::{AllocError, Global};

// The four media types of manifests and indexes.
fn manifest_types(alloc: Global) -> Result<List<Text>, AllocError>
    ensures { IfOk result (λ types. listed types ≡ manifest_types) }
{
    let mut types = List::new(alloc);
    types.push(Text::new(alloc, IMAGE_MANIFEST_MEDIA_TYPE)?)?;
    types.push(Text::new(alloc, IMAGE_MANIFEST_LIST_MEDIA_TYPE)?)?;
    types.push(Text::new(alloc, OCI_IMAGE_MEDIA_TYPE)?)?;
    types.push(Text::new(alloc, OCI_IMAGE_INDEX_MEDIA_TYPE)?)?;
    Ok(types)
}

// The document, read, and the manifest that it is or leads to.
fn documents_in<C: ClientCapabilities, T: Transport>(
    alloc: Global,
    client: &mut C,
    transport: &mut T,
    asked: &Asked<'_>,
    source: &Reference,
    first: Blob,
) -> Result<PulledDocuments, SigstoreError>
    ensures { (s : Settings) → ClientMeets is_memory s
        (documents_in (within s asked.now.moment) asked.now.image.now source.now asked.now.auth.now first)
        (C.state client.old) (C.state client.new) (T.state transport.old) (T.state transport.new) result }
{
    let read = document_in(alloc, asked.image, &first);
    let document = with_error_context(alloc, Called::Pull, source, read)?;
    let chosen = pull_chosen(alloc, client, transport, asked, source, &first, document)?;
    Ok(PulledDocuments { first, chosen })
}

/// Returns the document of the source's digest, and the manifest that it is or leads to. `asked` holds the requested
/// reference. No blob is requested.
///
/// Fails with `RegistryPullError`, which names the source, if a document is not returned, is not named by its digest or
/// by that of the requested reference, or is no manifest of the supported version, and if the client's platform
/// resolver selects no entry of an index.
pub fn pull_documents<C: ClientCapabilities, T: Transport>(
    alloc: Global,
    client: &mut C,
    transport: &mut T,
    asked: &Asked<'_>,
    source: &Reference,
) -> Result<PulledDocuments, SigstoreError>
    ensures { (s : Settings) → ClientMeets is_memory s
        (image_documents (within s asked.now.moment) asked.now.image.now source.now asked.now.auth.now)
        (C.state client.old) (C.state client.new) (T.state transport.old) (T.state transport.new) result }
{
    let types = manifest_types(alloc)?;
    let found = client.pull_manifest_raw(
        alloc,
        transport,
        asked.moment,
        source,
        asked.auth,
        types.as_slice(),
    )?;
    let (first, _) = found;
    documents_in(alloc, client, transport, asked, source, first)
}
