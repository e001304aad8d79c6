// Bytes read as JSON without floats.
ghost use Rattle.std.specs.Prelude.{◌≡◌, IfOk};
ghost use Rattle.json_values.specs.JsonText.{plain_json_of};
ghost use Rattle.json_tables.specs.Plain.{read_plain};

use crate::document::read_or_none;
use crate::floats::holds_float;
use crate::reads::Reads;
use json_values::{Json, read_json};
use std::alloc::{AllocError, Global};

/// Parses JSON (RFC 8259) without floats. Returns `None` if the bytes are not UTF-8, are not JSON, nest deeper than
/// 127, or contain a float.
pub fn read_plain_json(alloc: Global, bytes: &[u8]) -> Result<Option<Json>, AllocError>
    ensures { IfOk result (λ json. json ≡ plain_json_of bytes.now) }
{
    let Some(json) = read_json(alloc, bytes)? else {
        return Ok(None);
    };
    if holds_float(json.value()) {
        return Ok(None);
    }
    Ok(Some(json))
}

/// Reads a document from JSON without floats. Returns `None` if the bytes are not such JSON, or do not match the
/// document's table.
pub fn read_plain<T: Reads + Drop>(alloc: Global, bytes: &[u8]) -> Result<Option<T>, AllocError>
    ensures { IfOk result (λ found. found ≡ read_plain T.reading bytes.now) }
{
    let Some(json) = read_plain_json(alloc, bytes)? else {
        return Ok(None);
    };
    let found = read_or_none(alloc, json.value())?;
    Ok(found)
}
