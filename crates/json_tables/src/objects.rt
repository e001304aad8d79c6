ghost use Rattle.std.specs.Prelude.{◌≡◌, map};
ghost use Rattle.std.specs.List.{list_any};
ghost use Rattle.std.specs.Str.{bytes_eq};
ghost use Rattle.serde_json.specs.View.{view, members_view};
ghost use Rattle.json_tables.specs.Outcomes.{ReadsTo};
ghost use Rattle.json_tables.specs.Objects.{an_object, only, names_within};

use crate::error::ReadError;
use serde_json::{Map, Value};

/// Accepts an object with any members.
pub fn an_object(value: &Value) -> Result<(), ReadError>
    ensures { ReadsTo result (an_object (view value.now)) }
{
    if value.is_object() {
        Ok(())
    } else {
        Err(ReadError::Shape)
    }
}

/// Accepts an object with no other members than these.
pub fn only(value: &Value, names: &[&str]) -> Result<(), ReadError>
    ensures { ReadsTo result (only (map (λ name. name.now) names.now) (view value.now)) }
{
    match value.as_object() {
        Some(members) if are_within(members, names) => Ok(()),
        _ => Err(ReadError::Shape),
    }
}

fn are_within(members: &Map<String, Value>, names: &[&str]) -> bool
    ensures { result ≡ names_within (map (λ name. name.now) names.now)
        (members_view members.now.entries) }
{
    for (name, _member) in members.iter() {
        if !is_among(name.as_str(), names) {
            return false;
        }
    }
    true
}

fn is_among(name: &str, names: &[&str]) -> bool
    ensures { result ≡ list_any (bytes_eq name.now) (map (λ name. name.now) names.now) }
{
    for other in names {
        if name == *other {
            return true;
        }
    }
    false
}
