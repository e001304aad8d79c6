//! How the bodies of answers are parsed.
ghost use Rattle.std.specs.Prelude.{◌≡◌, ℕ, List, Option, IfOk};
ghost use Rattle.json_tables.specs.Plain.{read_plain};
ghost use Rattle.json_tables.specs.Reading.{list_of, text_of};
ghost use Rattle.service_models.specs.LogEntry.{log_entry_of};
ghost use Rattle.sig_services.specs.Body.{text_body, json_body};

use json_tables::{read_plain, read_plain_json};
use json_values::{Json, List, Text};
use service_models::LogEntry;
use std::alloc::{AllocError, Global};

/// A type that is parsed from the body of a successful answer.
pub trait Body: Sized {
    ghost body: { List ℕ → Option Self };

    /// Parses the body. Returns `None` if it is malformed.
    fn from_body(alloc: Global, bytes: &[u8]) -> Result<Option<Self>, AllocError>
        ensures { IfOk result (λ found. found ≡ body bytes.now) };
}

/// JSON without floats: an object with one member, whose value is an object.
impl Body for LogEntry {
    ghost body = { read_plain log_entry_of };

    fn from_body(alloc: Global, bytes: &[u8]) -> Result<Option<LogEntry>, AllocError> {
        read_plain(alloc, bytes)
    }
}

/// JSON without floats: a list of strings.
impl Body for List<Text> {
    ghost body = { read_plain (list_of text_of) };

    fn from_body(alloc: Global, bytes: &[u8]) -> Result<Option<List<Text>>, AllocError> {
        read_plain(alloc, bytes)
    }
}

/// JSON without floats: an object.
impl Body for Json {
    ghost body = { json_body };

    fn from_body(alloc: Global, bytes: &[u8]) -> Result<Option<Json>, AllocError> {
        let Some(json) = read_plain_json(alloc, bytes)? else {
            return Ok(None);
        };
        if json.value().is_object() {
            return Ok(Some(json));
        }
        Ok(None)
    }
}

/// UTF-8.
impl Body for Text {
    ghost body = { text_body };

    fn from_body(alloc: Global, bytes: &[u8]) -> Result<Option<Text>, AllocError> {
        match std::str::from_utf8(bytes) {
            Ok(text) => {
                let text = Text::new(alloc, text)?;
                Ok(Some(text))
            }
            Err(_) => Ok(None),
        }
    }
}
