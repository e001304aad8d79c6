ghost use Rattle.std.specs.Prelude.{◌≡◌, unwrap_or, IfOk, Ok};
ghost use Rattle.serde_json.specs.View.{view};
ghost use Rattle.oci_manifests.specs.Document.{ReadsManifest, content_type_of};

use crate::index::OciImageIndex;
use crate::manifest::OciImageManifest;
use crate::{IMAGE_MANIFEST_LIST_MEDIA_TYPE, OCI_IMAGE_MEDIA_TYPE};
use json_tables::{ReadError, holds_float, read_or_none};
use json_values::{Copied, Text, ToValue};
use serde_json::Value;
use std::alloc::{AllocError, Global};

/// An image manifest or an image index.
#[derive(Debug, Drop)]
pub enum OciManifest {
    Image(OciImageManifest),
    ImageIndex(OciImageIndex),
}

impl OciManifest {
    /// Reads a document. Returns `Float` if and only if the value contains a float, else `Ambiguous` if it matches both
    /// tables, else `Shape` if it matches neither.
    #[tactic(auto, unfolding(crate::specs::Document::document_of))]
    pub fn read(alloc: Global, value: &Value) -> Result<OciManifest, ReadError>
        ensures { ReadsManifest result (view value.now) }
    {
        if holds_float(value) {
            return Err(ReadError::Float);
        }
        let manifest: Option<OciImageManifest> = read_or_none(alloc, value)?;
        let index: Option<OciImageIndex> = read_or_none(alloc, value)?;
        match (manifest, index) {
            (Some(manifest), None) => Ok(OciManifest::Image(manifest)),
            (None, Some(index)) => Ok(OciManifest::ImageIndex(index)),
            (Some(_), Some(_)) => Err(ReadError::Ambiguous),
            (None, None) => Err(ReadError::Shape),
        }
    }

    /// Returns the media type, or if there is none OCI's for a manifest and Docker's for an index.
    pub fn content_type(&self) -> &str
        ensures { result.now ≡ content_type_of self.now }
    {
        match self {
            OciManifest::Image(manifest) => text_or(&manifest.media_type, OCI_IMAGE_MEDIA_TYPE),
            OciManifest::ImageIndex(index) => text_or(
                &index.media_type,
                IMAGE_MANIFEST_LIST_MEDIA_TYPE,
            ),
        }
    }
}

fn text_or<'a>(text: &'a Option<Text>, other: &'a str) -> &'a str
    ensures { result.now ≡ unwrap_or text.now other.now }
{
    match text {
        Some(text) => text.as_str(),
        None => other,
    }
}

impl ToValue for OciManifest {
    ghost use Rattle.oci_manifests.specs.Document.{document_written};

    ghost written = { document_written };

    /// Writes the document without its members that are `None`. The result matches the table of this document only.
    #[tactic(auto, using(crate::proofs::Meanings::image_again, crate::proofs::Meanings::image_index_again))]
    fn to_value(&self, alloc: Global) -> Result<Value, AllocError>
        ensures exact { IfOk result (λ v. view v ≡ document_written self.now) }
        ensures reads_back { IfOk result (λ v. ReadsManifest (Ok self.now) (view v)) }
    {
        match self {
            OciManifest::Image(manifest) => {
                let value = manifest.to_value(alloc)?;
                Ok(value)
            }
            OciManifest::ImageIndex(index) => {
                let value = index.to_value(alloc)?;
                Ok(value)
            }
        }
    }
}

impl Copied for OciManifest {
    fn copy(&self, alloc: Global) -> Result<OciManifest, AllocError> {
        match self {
            OciManifest::Image(manifest) => Ok(OciManifest::Image(manifest.copy(alloc)?)),
            OciManifest::ImageIndex(index) => Ok(OciManifest::ImageIndex(index.copy(alloc)?)),
        }
    }
}

impl From<OciImageManifest> for OciManifest {
    ghost use Rattle.std.specs.Prelude.{◌≡◌};
    ghost use Rattle.oci_manifests.specs.declared.document.OciManifest.TheVariants.{Image};

    ghost from_gives = { λ manifest document. document ≡ Image manifest };

    fn from(manifest: OciImageManifest) -> OciManifest {
        OciManifest::Image(manifest)
    }
}

impl From<OciImageIndex> for OciManifest {
    ghost use Rattle.std.specs.Prelude.{◌≡◌};
    ghost use Rattle.oci_manifests.specs.declared.document.OciManifest.TheVariants.{ImageIndex};

    ghost from_gives = { λ index document. document ≡ ImageIndex index };

    fn from(index: OciImageIndex) -> OciManifest {
        OciManifest::ImageIndex(index)
    }
}
