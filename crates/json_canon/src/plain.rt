// Whether the compact text of a value is its canonical text: no number is refused, and all names are ASCII, whose order
// by bytes is that by UTF-16 units.
ghost use Rattle.std.specs.Prelude.{IsTrue};
ghost use Rattle.serde_json.specs.View.{view, items_view, members_view};
ghost use Rattle.json_canon.specs.Plain.{IsPlain, ArePlain, ArePlainMembers};

use crate::walk::refused_number;
use serde_json::{Map, Value};

#[cycle(plain)]
pub(crate) fn is_plain(value: &Value) -> bool
    ensures { IsTrue result → IsPlain (view value.now) }
{
    match value {
        Value::Null | Value::Bool(_) => true,
        Value::String(_text) => true,
        Value::Number(number) => refused_number(number).is_none(),
        Value::Array(items) => are_plain(items),
        Value::Object(members) => are_plain_members(members),
    }
}

#[cycle(plain)]
fn are_plain(items: &Vec<Value>) -> bool
    ensures { IsTrue result → ArePlain (items_view items.now.items) }
{
    for item in items {
        if !is_plain(item) {
            return false;
        }
    }
    true
}

#[cycle(plain)]
fn are_plain_members(members: &Map<String, Value>) -> bool
    ensures { IsTrue result → ArePlainMembers (members_view members.now.entries) }
{
    for (name, member) in members.iter() {
        if !name.as_str().is_ascii() {
            return false;
        }
        if !is_plain(member) {
            return false;
        }
    }
    true
}
