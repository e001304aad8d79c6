ghost use Rattle.std.specs.Prelude.{◌≡◌, IfOk};
ghost use Rattle.serde_json.specs.View.{view};
ghost use Rattle.json_tables.specs.Outcomes.{ReadsDocument};

use crate::error::ReadError;
use crate::floats::holds_float;
use crate::reads::Reads;
use serde_json::Value;
use std::alloc::{AllocError, Global};

/// Reads a document that must not contain a float.
pub fn read_document<T: Reads + Drop>(alloc: Global, value: &Value) -> Result<T, ReadError>
    ensures { ReadsDocument result T.reading (view value.now) }
{
    if holds_float(value) {
        return Err(ReadError::Float);
    }
    T::read_value(alloc, value)
}

/// Reads a value. Returns `None` if its table does not match it.
pub fn read_or_none<T: Reads + Drop>(alloc: Global, value: &Value) -> Result<Option<T>, AllocError>
    ensures { IfOk result (λ found. found ≡ T.reading (view value.now)) }
{
    match T::read_value(alloc, value) {
        Ok(document) => Ok(Some(document)),
        Err(ReadError::Shape) => Ok(None),
        Err(_) => Err(AllocError),
    }
}
