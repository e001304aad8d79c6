// Finds the first number of a value that has no canonical text.
ghost use Rattle.std.specs.Prelude.{◌≡◌, IfNone};
ghost use Rattle.serde_json.specs.View.{view, number_view, items_view, members_view};
ghost use Rattle.json_events.specs.Refused.{refused, refused_items, refused_members, refused_by};
ghost use Rattle.json_events.specs.Values.{IsValue, AreValues, AreMembers};
ghost use Rattle.serde_json.specs.Find.{as_integer};

use json_events::{CanonError, refused_integer};
use serde_json::{Map, Number, Value};

/// Inspects items by index, and members by the bytes of their names.
#[cycle(walk)]
pub(crate) fn refusal(value: &Value) -> Option<CanonError>
    ensures first { result ≡ refused (view value.now) }
    ensures value { IfNone result (IsValue (view value.now)) }
{
    match value {
        Value::Null | Value::Bool(_) => None,
        Value::String(_text) => None,
        Value::Number(number) => refused_number(number),
        Value::Array(items) => refusal_of_items(items),
        Value::Object(members) => refusal_of_members(members),
    }
}

#[cycle(walk)]
fn refusal_of_items(items: &Vec<Value>) -> Option<CanonError>
    ensures first { result ≡ refused_items (items_view items.now.items) }
    ensures value { IfNone result (AreValues (items_view items.now.items)) }
{
    for item in items {
        if let Some(refused) = refusal(item) {
            return Some(refused);
        }
    }
    None
}

#[cycle(walk)]
fn refusal_of_members(members: &Map<String, Value>) -> Option<CanonError>
    ensures first { result ≡ refused_members (members_view members.now.entries) }
    ensures value { IfNone result (AreMembers (members_view members.now.entries)) }
{
    for (_name, member) in members.iter() {
        match refusal(member) {
            Some(refused) => return Some(refused),
            None => {}
        }
    }
    None
}

pub(crate) fn refused_number(number: &Number) -> Option<CanonError>
    ensures { result ≡ refused_by (as_integer (number_view number.now)) }
{
    match number.as_i128() {
        None => Some(CanonError::Float),
        Some(z) => refused_integer(z),
    }
}
