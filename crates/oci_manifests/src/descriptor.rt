ghost use Rattle.std.specs.Prelude.{◌≡◌, IfOk, Ok};
ghost use Rattle.serde_json.specs.View.{view};
ghost use Rattle.json_tables.specs.Outcomes.{ReadsDocument};

use crate::media_types::IMAGE_CONFIG_MEDIA_TYPE;
use json_tables::{Member, ReadError, Reads, Writes, object, present, read_document, read_row};
use json_values::{Annotations, Copied, List, Text, ToValue, copied, row};
use serde_json::Value;
use std::alloc::{AllocError, Global};

/// A descriptor (OCI image specification, descriptor.md).
#[derive(Debug, Drop)]
pub struct OciDescriptor {
    /// The media type of the bytes.
    pub media_type: Text,
    /// The digest of the bytes.
    pub digest: Text,
    /// The number of bytes.
    pub size: i64,
    /// Other locations of the bytes.
    pub urls: Option<List<Text>>,
    pub annotations: Option<Annotations>,
    /// The type of the artifact to which the descriptor leads.
    pub artifact_type: Option<Text>,
}

impl OciDescriptor {
    ghost use Rattle.oci_manifests.specs.Descriptor.{descriptor_of, empty_descriptor};

    /// Reads a descriptor. Returns `Float` if and only if it contains a float, otherwise `Shape` if it does not match.
    pub fn read(alloc: Global, value: &Value) -> Result<OciDescriptor, ReadError>
        ensures { ReadsDocument result descriptor_of (view value.now) }
    {
        read_document(alloc, value)
    }

    /// Returns the empty descriptor, with the media type of OCI's configurations.
    pub fn default(alloc: Global) -> Result<OciDescriptor, AllocError>
        ensures { IfOk result (λ descriptor. descriptor ≡ empty_descriptor) }
    {
        let media_type = Text::new(alloc, IMAGE_CONFIG_MEDIA_TYPE)?;
        let digest = Text::new(alloc, "")?;
        Ok(OciDescriptor {
            media_type,
            digest,
            size: 0,
            urls: None,
            annotations: None,
            artifact_type: None,
        })
    }
}

impl Reads for OciDescriptor {
    ghost use Rattle.oci_manifests.specs.Descriptor.{descriptor_of};

    ghost reading = { descriptor_of };

    #[tactic(auto, unfolding(crate::specs::Descriptor::descriptor_of))]
    fn read_value(alloc: Global, value: &Value) -> Result<OciDescriptor, ReadError> {
        let row![media_type, digest, size, urls, annotations, artifact_type] = read_row::<Self, _>(
            alloc,
            value,
            &[
                "mediaType",
                "digest",
                "size",
                "urls",
                "annotations",
                "artifactType",
            ],
        )?;
        Ok(OciDescriptor {
            media_type,
            digest,
            size,
            urls,
            annotations,
            artifact_type,
        })
    }
}

impl Member for OciDescriptor {
    ghost use Rattle.json_tables.specs.Member.{present};
    ghost use Rattle.oci_manifests.specs.Descriptor.{descriptor_of};

    ghost found = { present descriptor_of };

    fn read_member(alloc: Global, member: Option<&Value>) -> Result<OciDescriptor, ReadError> {
        present(alloc, member)
    }
}

impl Writes for OciDescriptor {
    ghost use Rattle.oci_manifests.specs.Descriptor.{descriptor_written};

    ghost written = { descriptor_written };

    #[tactic(auto, unfolding(crate::specs::Descriptor::descriptor_written))]
    fn write_value(&self, alloc: Global) -> Result<Value, AllocError> {
        let value = object!(alloc, {
            "mediaType": &self.media_type,
            "digest": &self.digest,
            "size": &self.size,
            "urls": &self.urls,
            "annotations": &self.annotations,
            "artifactType": &self.artifact_type,
        })?;
        Ok(value)
    }
}

impl ToValue for OciDescriptor {
    ghost use Rattle.oci_manifests.specs.Descriptor.{descriptor_of, descriptor_written};

    ghost written = { descriptor_written };

    /// Writes the descriptor without its members that are `None`. The result round-trips.
    #[tactic(auto, using(json_tables::proofs::Whole::document_again))]
    fn to_value(&self, alloc: Global) -> Result<Value, AllocError>
        ensures exact { IfOk result (λ v. view v ≡ descriptor_written self.now) }
        ensures reads_back { IfOk result (λ v. ReadsDocument (Ok self.now) descriptor_of (view v)) }
    {
        let value = self.write_value(alloc)?;
        Ok(value)
    }
}

impl Copied for OciDescriptor {
    fn copy(&self, alloc: Global) -> Result<OciDescriptor, AllocError> {
        copied!(
            alloc,
            self,
            OciDescriptor {
                media_type,
                digest,
                size,
                urls,
                annotations,
                artifact_type
            }
        )
    }
}
