ghost use Rattle.std.specs.Prelude.{◌≡◌};
ghost use Rattle.serde_json.specs.View.{view};
ghost use Rattle.json_tables.specs.Outcomes.{ReadsDocument};
ghost use Rattle.oci_manifests.specs.Types.{is_manifest_type};

use crate::media_types;
use json_tables::{ReadError, Reads, read_document, read_row};
use json_values::{Copied, Text, row};
use serde_json::Value;
use std::alloc::{AllocError, Global};

/// The common first members of every manifest: the schema version and the media type.
#[derive(Debug, Drop)]
pub struct Versioned {
    pub schema_version: i32,
    pub media_type: Option<Text>,
}

impl Versioned {
    ghost use Rattle.oci_manifests.specs.Versioned.{versioned_of};

    /// Reads the members. Returns `Float` if and only if a float is present, otherwise `Shape` if they do not match.
    pub fn read(alloc: Global, value: &Value) -> Result<Versioned, ReadError>
        ensures { ReadsDocument result versioned_of (view value.now) }
    {
        read_document(alloc, value)
    }
}

impl Reads for Versioned {
    ghost use Rattle.oci_manifests.specs.Versioned.{versioned_of};

    ghost reading = { versioned_of };

    #[tactic(auto, unfolding(crate::specs::Versioned::versioned_of))]
    fn read_value(alloc: Global, value: &Value) -> Result<Versioned, ReadError> {
        let row![schema_version, media_type] = read_row::<Self, _>(
            alloc,
            value,
            &["schemaVersion", "mediaType"],
        )?;
        Ok(Versioned {
            schema_version,
            media_type,
        })
    }
}

impl Copied for Versioned {
    fn copy(&self, alloc: Global) -> Result<Versioned, AllocError> {
        let media_type = self.media_type.copy(alloc)?;
        Ok(Versioned {
            schema_version: self.schema_version,
            media_type,
        })
    }
}

/// Returns whether a media type is that of an image manifest or an image index, of Docker or OCI.
pub fn is_manifest_media_type(text: &str) -> bool
    ensures { result ≡ is_manifest_type text.now }
{
    text == media_types::IMAGE_MANIFEST_MEDIA_TYPE
        || text == media_types::IMAGE_MANIFEST_LIST_MEDIA_TYPE
        || text == media_types::OCI_IMAGE_MEDIA_TYPE
        || text == media_types::OCI_IMAGE_INDEX_MEDIA_TYPE
}
