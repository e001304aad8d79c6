// Keys as base64 strings.
ghost use Rattle.serde_json.specs.View.{items_view, members_view};
ghost use Rattle.std.specs.FinMap.{empty};
ghost use Rattle.json_tables.specs.Outcomes.{ReadsTo};
ghost use Rattle.json_tables.specs.Reading.{items_by, members_by};
ghost use Rattle.json_tables.specs.Member.{present};
ghost use Rattle.recorded_case.specs.Members.{unless_absent};
ghost use Rattle.live_pull.specs.Settings.{key_of, keys_of, log_keys_of};
ghost use Rattle.serde_json.specs.View.{view};

use cosign_parts::LogKeys;
use json_tables::{Member, ReadError, decode_base64};
use json_values::{Blob, List, Text, TextMap};
use serde_json::{Map, Value};
use std::alloc::Global;
use std::marker::Model;

/// A list of keys. A contract sees the list of their bytes.
#[derive(Drop)]
pub(crate) struct KeyList {
    pub list: List<Blob>,
}

impl Model for KeyList {
    ghost use Rattle.std.specs.Prelude.{ℕ, List};

    ghost Value = { List (List ℕ) };

    ghost view = { λ keys. keys.list };
}

impl Member for KeyList {
    ghost found = { present keys_of };

    fn read_member(alloc: Global, member: Option<&Value>) -> Result<KeyList, ReadError> {
        let Some(Value::Array(items)) = member else {
            return Err(ReadError::Shape);
        };
        let list = read_keys(alloc, items.as_slice())?;
        Ok(KeyList { list })
    }
}

fn read_keys(alloc: Global, items: &[Value]) -> Result<List<Blob>, ReadError>
    ensures { ReadsTo result (items_by key_of (items_view items.now)) }
{
    let mut list = List::new(alloc);
    for item in items {
        list.push(read_key(alloc, item)?)?;
    }
    Ok(list)
}

/// Keys by the ids of transparency logs, none if the member is absent. A contract sees the map of their bytes.
#[derive(Drop)]
pub(crate) struct KeyMap {
    pub map: LogKeys,
}

impl Model for KeyMap {
    ghost use Rattle.std.specs.Prelude.{ℕ, List};
    ghost use Rattle.std.specs.FinMap.{FinMap, code};
    ghost use Rattle.std.specs.Coded.{coded_ℕ, coded_list};
    ghost use Rattle.json_values.specs.Places.{by_bytes};

    ghost Value = { FinMap by_bytes (List ℕ) };

    ghost coded = { code (coded_list coded_ℕ) (coded_list coded_ℕ) };

    ghost view = { λ keys. keys.map };
}

impl Member for KeyMap {
    ghost found = { unless_absent empty log_keys_of };

    fn read_member(alloc: Global, member: Option<&Value>) -> Result<KeyMap, ReadError> {
        match member {
            None => Ok(KeyMap {
                map: TextMap::new(alloc),
            }),
            Some(Value::Object(members)) => {
                let map = read_log_keys(alloc, members)?;
                Ok(KeyMap { map })
            }
            Some(_) => Err(ReadError::Shape),
        }
    }
}

fn read_log_keys(alloc: Global, members: &Map<String, Value>) -> Result<LogKeys, ReadError>
    ensures { ReadsTo result (members_by key_of empty (members_view members.now.entries)) }
{
    let mut found = TextMap::new(alloc);
    for (name, member) in members.iter() {
        let key = read_key(alloc, member)?;
        found.insert(Text::new(alloc, name.as_str())?, key)?;
    }
    Ok(found)
}

#[tactic(auto, unfolding(crate::specs::Settings::key_of))]
fn read_key(alloc: Global, value: &Value) -> Result<Blob, ReadError>
    ensures { ReadsTo result (key_of (view value.now)) }
{
    let Value::String(text) = value else {
        return Err(ReadError::Shape);
    };
    match decode_base64(alloc, text.as_str())? {
        Some(bytes) => Ok(bytes),
        None => Err(ReadError::Shape),
    }
}
