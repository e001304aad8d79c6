ghost use Rattle.std.specs.Prelude.{◌≡◌, IfOk, Ok};
ghost use Rattle.serde_json.specs.View.{view};
ghost use Rattle.json_tables.specs.Outcomes.{ReadsDocument};

use crate::platform::Platform;
use json_tables::{Member, ReadError, Reads, Writes, object, present, read_document, read_row};
use json_values::{Annotations, Copied, Text, ToValue, copied, row};
use serde_json::Value;
use std::alloc::{AllocError, Global};

/// An entry of an image index (OCI image specification, image-index.md).
#[derive(Debug, Drop)]
pub struct ImageIndexEntry {
    pub media_type: Text,
    pub digest: Text,
    pub size: i64,
    pub platform: Option<Platform>,
    pub annotations: Option<Annotations>,
    pub artifact_type: Option<Text>,
}

impl ImageIndexEntry {
    ghost use Rattle.oci_manifests.specs.IndexEntry.{entry_of};

    /// Reads an entry. Returns `Float` if and only if it contains a float, otherwise `Shape` if it does not match.
    pub fn read(alloc: Global, value: &Value) -> Result<ImageIndexEntry, ReadError>
        ensures { ReadsDocument result entry_of (view value.now) }
    {
        read_document(alloc, value)
    }
}

impl Reads for ImageIndexEntry {
    ghost use Rattle.oci_manifests.specs.IndexEntry.{entry_of};

    ghost reading = { entry_of };

    #[tactic(auto, unfolding(crate::specs::IndexEntry::entry_of))]
    fn read_value(alloc: Global, value: &Value) -> Result<ImageIndexEntry, ReadError> {
        let row![
            media_type,
            digest,
            size,
            platform,
            annotations,
            artifact_type
        ] = read_row::<Self, _>(
            alloc,
            value,
            &[
                "mediaType",
                "digest",
                "size",
                "platform",
                "annotations",
                "artifactType",
            ],
        )?;
        Ok(ImageIndexEntry {
            media_type,
            digest,
            size,
            platform,
            annotations,
            artifact_type,
        })
    }
}

impl Member for ImageIndexEntry {
    ghost use Rattle.json_tables.specs.Member.{present};
    ghost use Rattle.oci_manifests.specs.IndexEntry.{entry_of};

    ghost found = { present entry_of };

    fn read_member(alloc: Global, member: Option<&Value>) -> Result<ImageIndexEntry, ReadError> {
        present(alloc, member)
    }
}

impl Writes for ImageIndexEntry {
    ghost use Rattle.oci_manifests.specs.IndexEntry.{entry_written};

    ghost written = { entry_written };

    #[tactic(auto, unfolding(crate::specs::IndexEntry::entry_written))]
    fn write_value(&self, alloc: Global) -> Result<Value, AllocError> {
        let value = object!(alloc, {
            "mediaType": &self.media_type,
            "digest": &self.digest,
            "size": &self.size,
            "platform": &self.platform,
            "annotations": &self.annotations,
            "artifactType": &self.artifact_type,
        })?;
        Ok(value)
    }
}

impl ToValue for ImageIndexEntry {
    ghost use Rattle.oci_manifests.specs.IndexEntry.{entry_of, entry_written};

    ghost written = { entry_written };

    /// Writes the entry without its members that are `None`. The result round-trips.
    #[tactic(auto, using(json_tables::proofs::Whole::document_again))]
    fn to_value(&self, alloc: Global) -> Result<Value, AllocError>
        ensures exact { IfOk result (λ v. view v ≡ entry_written self.now) }
        ensures reads_back { IfOk result (λ v. ReadsDocument (Ok self.now) entry_of (view v)) }
    {
        let value = self.write_value(alloc)?;
        Ok(value)
    }
}

impl Copied for ImageIndexEntry {
    fn copy(&self, alloc: Global) -> Result<ImageIndexEntry, AllocError> {
        copied!(
            alloc,
            self,
            ImageIndexEntry {
                media_type,
                digest,
                size,
                platform,
                annotations,
                artifact_type
            }
        )
    }
}
