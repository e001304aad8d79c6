// The definition as a plain program: a value's text by recursion, without a formatter.
use json_canon::JsonProperty;
use json_values::{Blob, write_quoted};
use serde_json::{Map, Value};
use std::alloc::{AllocError, Global};
use std::collections::BTreeSet;

#[cycle(plain)]
pub(crate) fn write_value(alloc: Global, out: &mut Blob, value: &Value) -> Result<(), AllocError> {
    match value {
        Value::Null | Value::Bool(_) | Value::Number(_) | Value::String(_) => {
            let text = value.to_string(alloc)?;
            out.append(text.as_bytes())
        }
        Value::Array(items) => write_items(alloc, out, items),
        Value::Object(members) => write_members(alloc, out, members),
    }
}

#[cycle(plain)]
fn write_items(alloc: Global, out: &mut Blob, items: &Vec<Value>) -> Result<(), AllocError> {
    let mut before = b"[".as_slice();
    for item in items {
        out.append(before)?;
        write_value(alloc, out, item)?;
        before = b",".as_slice();
    }
    out.append(if items.is_empty() {
        b"[]".as_slice()
    } else {
        b"]".as_slice()
    })
}

#[cycle(plain)]
fn write_members(
    alloc: Global,
    out: &mut Blob,
    members: &Map<String, Value>,
) -> Result<(), AllocError> {
    let mut sorted = BTreeSet::new(alloc);
    for (name, member) in members.iter() {
        let mut text = Blob::empty(alloc);
        write_value(alloc, &mut text, member)?;
        let quoted = write_quoted(alloc, name.as_str())?;
        let key = Blob::new(alloc, quoted.as_str().as_bytes())?;
        sorted.insert(JsonProperty::new(alloc, name.as_str(), key, text)?)?;
    }
    write_sorted(out, &sorted)
}

fn write_sorted(out: &mut Blob, sorted: &BTreeSet<JsonProperty>) -> Result<(), AllocError> {
    let mut before = b"{".as_slice();
    for member in sorted.iter() {
        out.append(before)?;
        out.append(member.key.as_slice())?;
        out.append(b":")?;
        out.append(member.value.as_slice())?;
        before = b",".as_slice();
    }
    out.append(if sorted.is_empty() {
        b"{}".as_slice()
    } else {
        b"}".as_slice()
    })
}
