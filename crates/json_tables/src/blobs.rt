// Bytes encoded in JSON.
ghost use Rattle.std.specs.Prelude.{◌≡◌, IfOk};
ghost use Rattle.serde_json.specs.View.{view};
ghost use Rattle.base64.specs.Engines.{standard};
ghost use Rattle.base64.specs.GeneralPurpose.{decoded_of};
ghost use Rattle.json_tables.specs.Outcomes.{ReadsTo};
ghost use Rattle.json_tables.specs.Member.{required, present};
ghost use Rattle.json_tables.specs.Bytes.{bytes_of, base64_of};

use crate::error::ReadError;
use crate::member::{Member, present};
use crate::objects::only;
use crate::reads::Reads;
use base64::DecodeAllocError;
use base64::engine::general_purpose::STANDARD;
use json_values::Blob;
use serde_json::Value;
use std::alloc::{AllocError, Global};

impl Reads for Blob {
    ghost reading = { bytes_of };

    fn read_value(alloc: Global, value: &Value) -> Result<Blob, ReadError> {
        if let Value::String(text) = value {
            return Ok(Blob::new(alloc, text.as_bytes())?);
        }
        only(value, &["base64"])?;
        required_base64(alloc, value, "base64")
    }
}

impl Member for Blob {
    ghost found = { present bytes_of };

    fn read_member(alloc: Global, member: Option<&Value>) -> Result<Blob, ReadError> {
        present(alloc, member)
    }
}

/// Reads a member that must be present: a string in padded standard base64 (RFC 4648, 4).
pub fn required_base64(alloc: Global, value: &Value, name: &str) -> Result<Blob, ReadError>
    ensures { ReadsTo result (required base64_of name.now (view value.now)) }
{
    let Some(Value::String(text)) = value.get(name) else {
        return Err(ReadError::Shape);
    };
    match decode_base64(alloc, text.as_str())? {
        Some(bytes) => Ok(bytes),
        None => Err(ReadError::Shape),
    }
}

/// Decodes padded standard base64 (RFC 4648, 4). Returns `None` if the text is malformed.
#[tactic(auto, unfolding(base64::specs::GeneralPurpose::decoded_of))]
pub fn decode_base64(alloc: Global, text: &str) -> Result<Option<Blob>, AllocError>
    ensures { IfOk result (λ found. found ≡ decoded_of standard text.now) }
{
    match STANDARD.decode(alloc, text.as_bytes()) {
        Ok(bytes) => Ok(Some(Blob::from_vec(bytes))),
        Err(DecodeAllocError::DecodeError(_)) => Ok(None),
        Err(DecodeAllocError::OutOfMemory) => Err(AllocError),
    }
}
