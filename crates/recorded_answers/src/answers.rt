// Results as `bool`.
use json_values::ToValue;
use serde_json::Value;
use std::alloc::{AllocError, Global};

/// Returns whether a result is `Ok(true)`.
pub fn holds(answer: Result<bool, AllocError>) -> bool {
    match answer {
        Ok(holds) => holds,
        Err(_) => false,
    }
}

/// Returns whether the value is written as this text.
pub fn is_written<V: ToValue>(alloc: Global, value: &V, want: &str) -> bool {
    match text_of(alloc, value) {
        Ok(text) => text.as_str() == want,
        Err(_) => false,
    }
}

fn text_of<V: ToValue>(alloc: Global, value: &V) -> Result<String, AllocError> {
    let value = value.to_value(alloc)?;
    let text = value.to_string(alloc)?;
    Ok(text)
}

/// Returns the value of a JSON text, or null.
pub fn json(alloc: Global, text: &str) -> Value {
    match Value::from_str(alloc, text) {
        Ok(value) => value,
        Err(_) => Value::Null,
    }
}
