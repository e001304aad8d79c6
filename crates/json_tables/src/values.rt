// Strings, and values that are stored verbatim.
ghost use Rattle.std.specs.Prelude.{Some};
ghost use Rattle.json_tables.specs.Reading.{text_of};
ghost use Rattle.json_tables.specs.Member.{present};

use crate::error::ReadError;
use crate::member::{Member, present};
use crate::reads::Reads;
use json_values::{Json, Text};
use serde_json::Value;
use std::alloc::Global;

impl Reads for Text {
    ghost reading = { text_of };

    fn read_value(alloc: Global, value: &Value) -> Result<Text, ReadError> {
        match value.as_str() {
            Some(text) => Ok(Text::new(alloc, text)?),
            None => Err(ReadError::Shape),
        }
    }
}

impl Member for Text {
    ghost found = { present text_of };

    fn read_member(alloc: Global, member: Option<&Value>) -> Result<Text, ReadError> {
        present(alloc, member)
    }
}

impl Reads for Json {
    ghost reading = { λ d. Some d };

    fn read_value(_alloc: Global, value: &Value) -> Result<Json, ReadError> {
        Ok(Json::new(value.clone()?))
    }
}
