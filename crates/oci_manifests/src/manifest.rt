ghost use Rattle.std.specs.Prelude.{◌≡◌, IfOk, Ok};
ghost use Rattle.serde_json.specs.View.{view};
ghost use Rattle.json_tables.specs.Outcomes.{ReadsDocument};

use crate::OciDescriptor;
use json_tables::{ReadError, Reads, Required, object, read_document, read_row};
use json_values::{Annotations, Copied, List, Text, ToValue, copied, row};
use serde_json::Value;
use std::alloc::{AllocError, Global};

/// An image manifest (OCI image specification, manifest.md).
#[derive(Debug, Drop)]
pub struct OciImageManifest {
    pub schema_version: u8,
    pub media_type: Option<Text>,
    pub config: OciDescriptor,
    pub layers: List<OciDescriptor>,
    pub subject: Option<OciDescriptor>,
    pub artifact_type: Option<Text>,
    pub annotations: Option<Annotations>,
}

impl OciImageManifest {
    ghost use Rattle.oci_manifests.specs.Manifest.{manifest_of};

    /// Reads a manifest. Returns `Float` if and only if it contains a float, otherwise `Shape` if it does not match.
    pub fn read(alloc: Global, value: &Value) -> Result<OciImageManifest, ReadError>
        ensures { ReadsDocument result manifest_of (view value.now) }
    {
        read_document(alloc, value)
    }
}

impl Reads for OciImageManifest {
    ghost use Rattle.oci_manifests.specs.Manifest.{manifest_of};

    ghost reading = { manifest_of };

    #[tactic(auto, unfolding(crate::specs::Manifest::manifest_of))]
    fn read_value(alloc: Global, value: &Value) -> Result<OciImageManifest, ReadError> {
        let row![
            schema_version,
            media_type,
            config,
            layers,
            subject,
            artifact_type,
            annotations
        ] = read_row::<Self, _>(
            alloc,
            value,
            &[
                "schemaVersion",
                "mediaType",
                "config",
                "layers",
                "subject",
                "artifactType",
                "annotations",
            ],
        )?;
        Ok(OciImageManifest {
            schema_version,
            media_type,
            config,
            layers,
            subject,
            artifact_type,
            annotations,
        })
    }
}

impl ToValue for OciImageManifest {
    ghost use Rattle.oci_manifests.specs.Manifest.{manifest_of, manifest_written};

    ghost written = { manifest_written };

    /// Writes the manifest without its members that are `None`. The result round-trips.
    #[tactic(auto, unfolding(crate::specs::Manifest::manifest_written))]
    fn to_value(&self, alloc: Global) -> Result<Value, AllocError>
        ensures exact { IfOk result (λ v. view v ≡ manifest_written self.now) }
        ensures reads_back { IfOk result (λ v. ReadsDocument (Ok self.now) manifest_of (view v)) }
    {
        let value = object!(alloc, {
            "schemaVersion": &self.schema_version,
            "mediaType": &self.media_type,
            "config": &Required(&self.config),
            "layers": &self.layers,
            "subject": &self.subject,
            "artifactType": &self.artifact_type,
            "annotations": &self.annotations,
        })?;
        Ok(value)
    }
}

impl Copied for OciImageManifest {
    fn copy(&self, alloc: Global) -> Result<OciImageManifest, AllocError> {
        copied!(
            alloc,
            self,
            OciImageManifest {
                schema_version,
                media_type,
                config,
                layers,
                subject,
                artifact_type,
                annotations
            }
        )
    }
}
