// The settings of a pull of blobs.
ghost use Rattle.std.specs.Prelude.{IfOk, codes};
ghost use Rattle.serde_json.specs.View.{view};
ghost use Rattle.json_tables.specs.Member.{required};
ghost use Rattle.json_tables.specs.Outcomes.{ReadsTo};
ghost use Rattle.live_pull.specs.Settings.{documents_of};
ghost use Rattle.live_blobs.specs.Settings.{blobs_of, AreReady};

use json_tables::{ReadError, only, required};
use live_host::is_frame;
use live_pull::{LiveSettings, read_document_settings};
use oci_manifests::OciImageManifest;
use serde_json::Value;
use std::alloc::Global;

/// Which blobs are pulled: the frame `blobs`, with one member for each field, of the field's name.
#[derive(Drop)]
pub struct BlobSettings {
    /// The frame `documents` of the image. Its reference, protocol, credentials, limit and moment matter here.
    pub settings: LiveSettings,
    /// The image's manifest, as a JSON object.
    pub manifest: OciImageManifest,
    /// The index of the first blob: 0 is the configuration, and the layers follow.
    pub first: u64,
    /// The index after the last one.
    pub end: u64,
}

const NAMES: &[&str] = &["settings", "manifest", "first", "end", "frame"];

/// Reads the frame `documents` in the member `settings`. Returns `Shape` if and only if there is none.
pub fn documents_in(alloc: Global, value: &Value) -> Result<LiveSettings, ReadError>
    ensures { ReadsTo result (required documents_of (codes "settings") (view value.now)) }
{
    let Some(frame) = value.get("settings") else {
        return Err(ReadError::Shape);
    };
    let settings = read_document_settings(alloc, frame)?;
    Ok(settings)
}

// The settings in the frame `blobs`.
#[tactic(auto, unfolding(crate::specs::Settings::blobs_of))]
fn blob_settings(alloc: Global, value: &Value) -> Result<BlobSettings, ReadError>
    ensures { ReadsTo result (blobs_of (view value.now)) }
{
    only(value, NAMES)?;
    if !is_frame(value, "blobs") {
        return Err(ReadError::Shape);
    }
    let first = required(alloc, value, "first")?;
    let end = required(alloc, value, "end")?;
    let manifest = required(alloc, value, "manifest")?;
    let settings = documents_in(alloc, value)?;
    Ok(BlobSettings {
        settings,
        manifest,
        first,
        end,
    })
}

/// Reads the settings of a pull of blobs. Returns `Shape` if and only if the value is not a frame `blobs` with the
/// members of `BlobSettings`.
pub fn read_blob_settings(alloc: Global, value: &Value) -> Result<BlobSettings, ReadError>
    ensures exact { ReadsTo result (blobs_of (view value.now)) }
    ensures ready { IfOk result AreReady }
{
    let settings = blob_settings(alloc, value)?;
    Ok(settings)
}
