ghost use Rattle.std.specs.FinMap.{empty};
ghost use Rattle.serde_json.specs.View.{members_view};
ghost use Rattle.json_tables.specs.Outcomes.{ReadsTo};
ghost use Rattle.json_tables.specs.Reading.{members_by};
ghost use Rattle.json_tables.specs.Objects.{an_object, set_of};

use crate::error::ReadError;
use crate::objects::an_object;
use crate::reads::Reads;
use json_values::{Text, TextSet};
use serde_json::{Map, Value};
use std::alloc::Global;

/// A set is read from an object with objects as values.
impl Reads for TextSet {
    ghost reading = { set_of };

    fn read_value(alloc: Global, value: &Value) -> Result<TextSet, ReadError> {
        match value.as_object() {
            Some(members) => read_names(alloc, members),
            None => Err(ReadError::Shape),
        }
    }
}

fn read_names(alloc: Global, members: &Map<String, Value>) -> Result<TextSet, ReadError>
    ensures { ReadsTo result (members_by an_object empty (members_view members.now.entries)) }
{
    let mut found = TextSet::new(alloc);
    for (name, member) in members.iter() {
        an_object(member)?;
        found.insert(Text::new(alloc, name.as_str())?)?;
    }
    Ok(found)
}
