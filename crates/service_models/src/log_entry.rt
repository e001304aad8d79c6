use crate::single::single;
use json_tables::{ReadError, Reads, an_object};
use json_values::{Copied, Json, Text, copied};
use serde_json::Value;
use std::alloc::{AllocError, Global};

/// An entry of the log, under its name there (Rekor's API, `LogEntry`).
#[derive(Debug, Drop)]
pub struct LogEntry {
    pub uuid: Text,
    /// The entry with its `verification`, an object.
    pub entry: Json,
}

impl Reads for LogEntry {
    ghost use Rattle.service_models.specs.LogEntry.{log_entry_of};

    ghost reading = { log_entry_of };

    #[tactic(auto, unfolding(crate::specs::LogEntry::log_entry_of))]
    fn read_value(alloc: Global, value: &Value) -> Result<LogEntry, ReadError> {
        let Some((name, member)) = single(value) else {
            return Err(ReadError::Shape);
        };
        an_object(member)?;
        let entry = Json::new(member.clone()?);
        let uuid = Text::new(alloc, name)?;
        Ok(LogEntry { uuid, entry })
    }
}

impl Copied for LogEntry {
    fn copy(&self, alloc: Global) -> Result<LogEntry, AllocError> {
        copied!(alloc, self, LogEntry { uuid, entry })
    }
}
