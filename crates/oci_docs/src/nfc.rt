// JSON with all names and strings in NFC (Unicode Standard Annex 15).
ghost use Rattle.std.specs.Prelude.{◌≡◌, IfOk, false};
ghost use Rattle.serde_json.specs.Data.{no_members};
ghost use Rattle.serde_json.specs.View.{view, items_view, members_view};
ghost use Rattle.serde_json.specs.Written.{has_float, compact_text};
ghost use Rattle.oci_docs.specs.Nfc.{composed, composed_items, composed_members};

use json_values::Blob;
use serde_json::{Map, Value, put};
use std::alloc::{AllocError, Global};
use unicode_normalization::to_nfc;

/// Returns the text of a value with names and strings in NFC, without white space, names in the order of their bytes.
/// The value must not contain a float.
pub(crate) fn composed_text(alloc: Global, value: &Value) -> Result<Blob, AllocError>
    ensures { IfOk result (λ text. has_float (view value.now) ≡ false
        → text ≡ compact_text (composed (view value.now))) }
{
    let value = compose(alloc, value)?;
    let text = value.to_string(alloc)?;
    let bytes = Blob::new(alloc, text.as_str().as_bytes())?;
    Ok(bytes)
}

/// Puts all names and strings into NFC (Unicode Standard Annex 15). Of two names that are equal in NFC, the value of
/// the one that is later in byte order is kept.
#[cycle(composed)]
pub(crate) fn compose(alloc: Global, value: &Value) -> Result<Value, AllocError>
    ensures { IfOk result (λ v. view v ≡ composed (view value.now)) }
{
    match value {
        Value::String(text) => {
            let text = to_nfc(alloc, text.as_str())?;
            Ok(Value::String(text))
        }
        Value::Array(items) => {
            let items = compose_items(alloc, items)?;
            Ok(Value::Array(items))
        }
        Value::Object(members) => {
            let members = compose_members(alloc, members)?;
            Ok(Value::Object(members))
        }
        _ => {
            let value = value.clone()?;
            Ok(value)
        }
    }
}

#[cycle(composed)]
fn compose_items(alloc: Global, items: &Vec<Value>) -> Result<Vec<Value>, AllocError>
    ensures { IfOk result (λ v. items_view v.items ≡ composed_items (items_view items.now.items)) }
{
    let mut values = Vec::new(alloc);
    for item in items {
        let value = compose(alloc, item)?;
        values.push(value)?;
    }
    Ok(values)
}

#[cycle(composed)]
fn compose_members(
    alloc: Global,
    members: &Map<String, Value>,
) -> Result<Map<String, Value>, AllocError>
    ensures { IfOk result (λ m. members_view m.entries
        ≡ composed_members no_members (members_view members.now.entries)) }
{
    let mut found = Map::new(alloc);
    for (name, member) in members.iter() {
        let name = to_nfc(alloc, name.as_str())?;
        let value = compose(alloc, member)?;
        put(&mut found, alloc, name.as_str(), value)?;
    }
    Ok(found)
}
