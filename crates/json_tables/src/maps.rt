ghost use Rattle.std.specs.FinMap.{empty};
ghost use Rattle.serde_json.specs.View.{view, members_view};
ghost use Rattle.json_tables.specs.Outcomes.{ReadsTo};
ghost use Rattle.json_tables.specs.Reading.{map_of, members_by};
ghost use Rattle.json_tables.specs.Member.{present};

use crate::error::ReadError;
use crate::member::{Member, present};
use crate::reads::Reads;
use json_values::{Text, TextMap};
use serde_json::{Map, Value};
use std::alloc::Global;

impl<V: Reads + Drop> Reads for TextMap<V> {
    ghost reading = { map_of V.reading };

    fn read_value(alloc: Global, value: &Value) -> Result<TextMap<V>, ReadError> {
        match value.as_object() {
            Some(members) => read_members(alloc, members),
            None => Err(ReadError::Shape),
        }
    }
}

impl<V: Reads + Drop> Member for TextMap<V> {
    ghost found = { present (map_of V.reading) };

    fn read_member(alloc: Global, member: Option<&Value>) -> Result<TextMap<V>, ReadError> {
        present(alloc, member)
    }
}

fn read_members<V: Reads + Drop>(
    alloc: Global,
    members: &Map<String, Value>,
) -> Result<TextMap<V>, ReadError>
    ensures { ReadsTo result (members_by V.reading empty (members_view members.now.entries)) }
{
    let mut found = TextMap::new(alloc);
    for (name, member) in members.iter() {
        let value = V::read_value(alloc, member)?;
        found.insert(Text::new(alloc, name.as_str())?, value)?;
    }
    Ok(found)
}
