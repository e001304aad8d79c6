ghost use Rattle.std.specs.Prelude.{◌≡◌, IfOk};
ghost use Rattle.json_values.specs.Canon.{quoted_text};

use crate::text::Text;
use serde_json::Value;
use std::alloc::{AllocError, Global};

/// Returns the canonical string of a text: in quotes, escaped by RFC 8785, 3.2.2.2.
pub fn write_quoted(alloc: Global, text: &str) -> Result<Text, AllocError>
    ensures { IfOk result (λ t. t ≡ quoted_text text.now) }
{
    let value = Value::String(String::from_str(alloc, text)?);
    let written = value.to_string(alloc)?;
    Text::new(alloc, written.as_str())
}
