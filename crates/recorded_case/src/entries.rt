// Members and lists whose values have types of other crates.
ghost use Rattle.serde_json.specs.Data.{Data};
ghost use Rattle.serde_json.specs.View.{view, items_view, members_view};
ghost use Rattle.std.specs.Prelude.{◌≡◌, Option};
ghost use Rattle.std.specs.FinMap.{empty};
ghost use Rattle.json_tables.specs.Outcomes.{ReadsTo};
ghost use Rattle.json_tables.specs.Reading.{items_by, list_of, map_of, members_by};
ghost use Rattle.json_tables.specs.Member.{present};
ghost use Rattle.recorded_case.specs.Members.{unless_absent};

use json_tables::{Member, ReadError};
use json_values::{List, Text, TextMap};
use serde_json::{Map, Value};
use std::alloc::Global;
use std::marker::Model;

/// The type of a member, or of an entry of a list.
pub trait Entry: Sized {
    /// What a JSON value parses as.
    ghost entry: { Data → Option Self };

    /// Parses a value. Returns `Shape` if and only if the value does not match.
    fn read_entry(alloc: Global, value: &Value) -> Result<Self, ReadError>
        ensures { ReadsTo result (entry (view value.now)) };
}

/// A list of entries. A contract sees the list of their values.
#[derive(Drop)]
pub struct Entries<T> {
    pub list: List<T>,
}

impl<T> Model for Entries<T> {
    ghost use Rattle.std.specs.Prelude.{List};

    ghost Value = { List T };

    ghost view = { λ entries. entries.list };
}

impl<T: Entry + Drop> Member for Entries<T> {
    ghost found = { present (list_of T.entry) };

    fn read_member(alloc: Global, member: Option<&Value>) -> Result<Entries<T>, ReadError> {
        let Some(Value::Array(items)) = member else {
            return Err(ReadError::Shape);
        };
        let list = read_entries(alloc, items.as_slice())?;
        Ok(Entries { list })
    }
}

fn read_entries<T: Entry + Drop>(alloc: Global, items: &[Value]) -> Result<List<T>, ReadError>
    ensures { ReadsTo result (items_by T.entry (items_view items.now)) }
{
    let mut list = List::new(alloc);
    for item in items {
        list.push(T::read_entry(alloc, item)?)?;
    }
    Ok(list)
}

/// Entries by name. A contract sees the map of their values.
#[derive(Drop)]
pub struct EntryMap<T> {
    pub map: TextMap<T>,
}

impl<T> Model for EntryMap<T> {
    ghost use Rattle.std.specs.FinMap.{FinMap, code};
    ghost use Rattle.std.specs.Coded.{coded_ℕ, coded_list};
    ghost use Rattle.json_values.specs.Places.{by_bytes};

    ghost Value = { FinMap by_bytes T };

    ghost coded = { code (coded_list coded_ℕ) T.code };

    ghost view = { λ entries. entries.map };
}

impl<T: Entry + Drop> Member for EntryMap<T> {
    ghost found = { present (map_of T.entry) };

    fn read_member(alloc: Global, member: Option<&Value>) -> Result<EntryMap<T>, ReadError> {
        let Some(Value::Object(members)) = member else {
            return Err(ReadError::Shape);
        };
        let map = read_map(alloc, members)?;
        Ok(EntryMap { map })
    }
}

fn read_map<T: Entry + Drop>(
    alloc: Global,
    members: &Map<String, Value>,
) -> Result<TextMap<T>, ReadError>
    ensures { ReadsTo result (members_by T.entry empty (members_view members.now.entries)) }
{
    let mut found = TextMap::new(alloc);
    for (name, member) in members.iter() {
        let value = T::read_entry(alloc, member)?;
        found.insert(Text::new(alloc, name.as_str())?, value)?;
    }
    Ok(found)
}

/// The value of an absent member.
pub trait Usual: Entry {
    ghost usual: { Self };

    fn usual(alloc: Global) -> Self
        ensures { result ≡ usual };
}

/// A member that may be absent, but not null. A contract sees its value.
#[derive(Drop)]
pub struct OrUsual<T> {
    pub value: T,
}

impl<T> Model for OrUsual<T> {
    ghost Value = { T };

    ghost view = { λ member. member.value };
}

impl<T: Usual + Drop> Member for OrUsual<T> {
    ghost found = { unless_absent T.usual T.entry };

    fn read_member(alloc: Global, member: Option<&Value>) -> Result<OrUsual<T>, ReadError> {
        let Some(value) = member else {
            return Ok(OrUsual {
                value: T::usual(alloc),
            });
        };
        let value = T::read_entry(alloc, value)?;
        Ok(OrUsual { value })
    }
}
