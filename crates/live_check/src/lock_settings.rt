// What is checked, under which policy.
ghost use Rattle.std.specs.Prelude.{IfOk};
ghost use Rattle.serde_json.specs.View.{view};
ghost use Rattle.json_tables.specs.Outcomes.{ReadsTo};
ghost use Rattle.json_tables.specs.Member.{required};
ghost use Rattle.std.specs.Prelude.{codes};
ghost use Rattle.live_pull.specs.Settings.{documents_of};
ghost use Rattle.live_check.specs.LockSettings.{lock_settings_of};

use json_tables::{ReadError, only, required};
use json_values::Text;
use live_host::is_frame;
use live_pull::{LiveSettings, read_document_settings};
use serde_json::Value;
use std::alloc::Global;

/// A lock file, and the settings that it is checked under: the frame `lockcheck`, with the members `lock` and
/// `settings`.
#[derive(Drop)]
pub struct LockSettings {
    /// A string, the text of the file.
    pub lock: Text,
    /// A frame `documents`, of which the platform, the keys, the constraints and the keys of logs count.
    pub settings: LiveSettings,
}

fn read_nested(alloc: Global, value: &Value) -> Result<LiveSettings, ReadError>
    ensures { ReadsTo result (required documents_of (codes "settings") (view value.now)) }
{
    match value.get("settings") {
        Some(settings) => read_document_settings(alloc, settings),
        None => Err(ReadError::Shape),
    }
}

/// Reads the frame `lockcheck`. Returns `Shape` if and only if the value is not one.
#[tactic(auto, unfolding(crate::specs::LockSettings::lock_settings_of))]
pub fn read_lock_settings(alloc: Global, value: &Value) -> Result<LockSettings, ReadError>
    ensures exact { ReadsTo result (lock_settings_of (view value.now)) }
{
    only(value, &["frame", "lock", "settings"])?;
    if !is_frame(value, "lockcheck") {
        return Err(ReadError::Shape);
    }
    let lock: Text = required(alloc, value, "lock")?;
    let settings = read_nested(alloc, value)?;
    Ok(LockSettings { lock, settings })
}
