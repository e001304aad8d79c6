// What is checked, under which policy.
ghost use Rattle.std.specs.Prelude.{codes};
ghost use Rattle.serde_json.specs.View.{view};
ghost use Rattle.json_tables.specs.Member.{required};
ghost use Rattle.json_tables.specs.Outcomes.{ReadsTo};
ghost use Rattle.live_pull.specs.Settings.{documents_of};
ghost use Rattle.live_check.specs.Settings.{check_of};

use json_tables::{ReadError, only, required};
use live_host::is_frame;
use live_pull::{LiveSettings, read_document_settings};
use pull_lock::LockEntry;
use serde_json::Value;
use std::alloc::Global;

/// An image that the host has, and the settings that it is checked under: the frame `check`, with one member for each
/// field, of the field's name.
#[derive(Drop)]
pub struct CheckSettings {
    /// The documents of the image and its signature layer, as an entry of a lock file has them.
    pub entry: LockEntry,
    /// A frame `documents`, of which the platform, the keys, the constraints and the keys of logs count.
    pub settings: LiveSettings,
    /// The index of the first blob that is checked: 0 is the configuration, and the layers follow.
    pub first: u64,
    /// The index after the last one.
    pub end: u64,
}

const NAMES: &[&str] = &["entry", "settings", "first", "end", "frame"];

// The frame `documents` in the member `settings`.
fn documents_in(alloc: Global, value: &Value) -> Result<LiveSettings, ReadError>
    ensures { ReadsTo result (required documents_of (codes "settings") (view value.now)) }
{
    let Some(frame) = value.get("settings") else {
        return Err(ReadError::Shape);
    };
    let settings = read_document_settings(alloc, frame)?;
    Ok(settings)
}

/// Reads the frame `check`. Returns `Shape` if and only if the value is not one.
#[tactic(auto, unfolding(crate::specs::Settings::check_of))]
pub fn read_check_settings(alloc: Global, value: &Value) -> Result<CheckSettings, ReadError>
    ensures exact { ReadsTo result (check_of (view value.now)) }
{
    only(value, NAMES)?;
    if !is_frame(value, "check") {
        return Err(ReadError::Shape);
    }
    let first = required(alloc, value, "first")?;
    let end = required(alloc, value, "end")?;
    let entry = required(alloc, value, "entry")?;
    let settings = documents_in(alloc, value)?;
    Ok(CheckSettings {
        entry,
        settings,
        first,
        end,
    })
}
