ghost use Rattle.std.specs.Prelude.{◌≡◌, IfOk, Ok};
ghost use Rattle.serde_json.specs.View.{view};
ghost use Rattle.json_tables.specs.Outcomes.{ReadsDocument};

use crate::ImageIndexEntry;
use json_tables::{ReadError, Reads, object, read_document, read_row};
use json_values::{Annotations, Copied, List, Text, ToValue, copied, row};
use serde_json::Value;
use std::alloc::{AllocError, Global};

/// An image index (OCI image specification, image-index.md).
#[derive(Debug, Drop)]
pub struct OciImageIndex {
    pub schema_version: u8,
    pub media_type: Option<Text>,
    pub manifests: List<ImageIndexEntry>,
    pub artifact_type: Option<Text>,
    pub annotations: Option<Annotations>,
}

impl OciImageIndex {
    ghost use Rattle.oci_manifests.specs.Index.{index_of};

    /// Reads an index. Returns `Float` if and only if it contains a float, otherwise `Shape` if it does not match.
    pub fn read(alloc: Global, value: &Value) -> Result<OciImageIndex, ReadError>
        ensures { ReadsDocument result index_of (view value.now) }
    {
        read_document(alloc, value)
    }
}

impl Reads for OciImageIndex {
    ghost use Rattle.oci_manifests.specs.Index.{index_of};

    ghost reading = { index_of };

    #[tactic(auto, unfolding(crate::specs::Index::index_of))]
    fn read_value(alloc: Global, value: &Value) -> Result<OciImageIndex, ReadError> {
        let row![
            schema_version,
            media_type,
            manifests,
            artifact_type,
            annotations
        ] = read_row::<Self, _>(
            alloc,
            value,
            &[
                "schemaVersion",
                "mediaType",
                "manifests",
                "artifactType",
                "annotations",
            ],
        )?;
        Ok(OciImageIndex {
            schema_version,
            media_type,
            manifests,
            artifact_type,
            annotations,
        })
    }
}

impl ToValue for OciImageIndex {
    ghost use Rattle.oci_manifests.specs.Index.{index_of, index_written};

    ghost written = { index_written };

    /// Writes the index without its members that are `None`. The result round-trips.
    #[tactic(auto, unfolding(crate::specs::Index::index_written))]
    fn to_value(&self, alloc: Global) -> Result<Value, AllocError>
        ensures exact { IfOk result (λ v. view v ≡ index_written self.now) }
        ensures reads_back { IfOk result (λ v. ReadsDocument (Ok self.now) index_of (view v)) }
    {
        let value = object!(alloc, {
            "schemaVersion": &self.schema_version,
            "mediaType": &self.media_type,
            "manifests": &self.manifests,
            "artifactType": &self.artifact_type,
            "annotations": &self.annotations,
        })?;
        Ok(value)
    }
}

impl Copied for OciImageIndex {
    fn copy(&self, alloc: Global) -> Result<OciImageIndex, AllocError> {
        copied!(
            alloc,
            self,
            OciImageIndex {
                schema_version,
                media_type,
                manifests,
                artifact_type,
                annotations
            }
        )
    }
}
