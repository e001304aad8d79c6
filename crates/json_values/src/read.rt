ghost use Rattle.std.specs.Prelude.{◌≡◌, IfOk};
ghost use Rattle.json_values.specs.JsonText.{json_of};

use crate::json_value::Json;
use serde_json::Value;
use std::alloc::{AllocError, Global};

/// Parses JSON (RFC 8259). Returns `None` if the bytes are not UTF-8, are not JSON, or nest deeper than 127.
pub fn read_json(alloc: Global, bytes: &[u8]) -> Result<Option<Json>, AllocError>
    ensures { IfOk result (λ found. found ≡ json_of bytes.now) }
{
    match Value::from_slice(alloc, bytes) {
        Ok(value) => Ok(Some(Json::new(value))),
        Err(error) if error.is_memory() => Err(AllocError),
        Err(_) => Ok(None),
    }
}
