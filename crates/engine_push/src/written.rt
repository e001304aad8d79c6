// The text of a document that is pushed.
ghost use Rattle.std.specs.Prelude.{IfOk};
ghost use Rattle.oci_manifests.specs.declared.document.OciManifest.TheVariants.{Image, ImageIndex};
ghost use Rattle.engine_push.specs.Plans.{IsWritten};

use json_values::{Blob, Text};
use oci_docs::{OciImageIndex, OciImageManifest, OciManifest, manifest_text};
use std::alloc::{AllocError, Global};

/// The text of a document, and its content type.
#[derive(Drop)]
pub(crate) struct Written {
    pub body: Blob,
    pub media_type: Text,
}

/// Writes a document.
pub(crate) fn write_document(alloc: Global, document: &OciManifest) -> Result<Written, AllocError>
    ensures { IfOk result (IsWritten document.now) }
{
    let body = manifest_text(alloc, document)?;
    let media_type = Text::new(alloc, document.content_type())?;
    Ok(Written { body, media_type })
}

/// Writes a manifest, which is dropped here.
pub(crate) fn write_image(alloc: Global, manifest: OciImageManifest) -> Result<Written, AllocError>
    ensures { IfOk result (IsWritten (Image manifest)) }
{
    let document = OciManifest::Image(manifest);
    let found = write_document(alloc, &document);
    found
}

/// Writes an index, which is dropped here.
pub(crate) fn write_index(alloc: Global, index: OciImageIndex) -> Result<Written, AllocError>
    ensures { IfOk result (IsWritten (ImageIndex index)) }
{
    let document = OciManifest::ImageIndex(index);
    let found = write_document(alloc, &document);
    found
}
