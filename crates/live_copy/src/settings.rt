// The settings of a copy.
ghost use Rattle.std.specs.Prelude.{IfOk, codes};
ghost use Rattle.serde_json.specs.View.{view};
ghost use Rattle.json_tables.specs.Member.{required};
ghost use Rattle.json_tables.specs.Outcomes.{ReadsTo};
ghost use Rattle.live_pull.specs.Settings.{documents_of};
ghost use Rattle.live_copy.specs.Settings.{copy_of, AreReady};

use json_tables::{ReadError, only, required};
use live_host::is_frame;
use live_pull::{LiveSettings, TargetSettings, read_document_settings};
use serde_json::Value;
use std::alloc::Global;

/// What to copy, under which policy, and where: the frame `copy`, with one member for each field, of the field's name.
#[derive(Drop)]
pub struct CopySettings {
    /// The frame `documents` of the image at the source.
    pub settings: LiveSettings,
    pub target: TargetSettings,
    /// Whether tags of the target that name other digests are replaced; otherwise they refuse the copy.
    pub replace: bool,
    /// Whether the tag and the signature are pushed; otherwise only the manifest is.
    pub tag: bool,
}

const NAMES: &[&str] = &["settings", "target", "replace", "tag", "frame"];

// The frame `documents` in the member `settings`.
fn documents_in(alloc: Global, value: &Value) -> Result<LiveSettings, ReadError>
    ensures { ReadsTo result (required documents_of (codes "settings") (view value.now)) }
{
    let Some(frame) = value.get("settings") else {
        return Err(ReadError::Shape);
    };
    let settings = read_document_settings(alloc, frame)?;
    Ok(settings)
}

// The settings in the frame `copy`.
#[tactic(auto, unfolding(crate::specs::Settings::copy_of))]
fn copy_settings(alloc: Global, value: &Value) -> Result<CopySettings, ReadError>
    ensures { ReadsTo result (copy_of (view value.now)) }
{
    only(value, NAMES)?;
    if !is_frame(value, "copy") {
        return Err(ReadError::Shape);
    }
    let replace = required(alloc, value, "replace")?;
    let tag = required(alloc, value, "tag")?;
    let target = required(alloc, value, "target")?;
    let settings = documents_in(alloc, value)?;
    Ok(CopySettings {
        settings,
        target,
        replace,
        tag,
    })
}

/// Reads the settings of a copy. Returns `Shape` if and only if the value is not a frame `copy` with the members of
/// `CopySettings`.
pub fn read_copy_settings(alloc: Global, value: &Value) -> Result<CopySettings, ReadError>
    ensures exact { ReadsTo result (copy_of (view value.now)) }
    ensures ready { IfOk result AreReady }
{
    let settings = copy_settings(alloc, value)?;
    Ok(settings)
}
