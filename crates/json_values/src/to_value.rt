ghost use Rattle.std.specs.Prelude.{◌≡◌, IfOk, map};
ghost use Rattle.serde_json.specs.Data.{Data, string, number, unsigned, boolean, object, no_members};
ghost use Rattle.serde_json.specs.Find.{of_integer};
ghost use Rattle.serde_json.specs.View.{view, items_of, items_view, members_view};
ghost use Rattle.json_values.specs.Places.{Sorted};
ghost use Rattle.json_values.specs.Writing.{null_or, listed, map_written, set_written, members_list, empty_object};

use crate::json_value::Json;
use crate::list::List;
use crate::map::TextMap;
use crate::set::TextSet;
use crate::text::Text;
use serde_json::{Map, Value, put};
use std::alloc::{AllocError, Global};

/// A type whose values are written as JSON values.
pub trait ToValue: Sized {
    /// The data of that value.
    ghost written: { Self → Data };

    fn to_value(&self, alloc: Global) -> Result<Value, AllocError>
        ensures { IfOk result (λ v. view v ≡ written self.now) };
}

impl ToValue for Value {
    ghost written = { view };

    fn to_value(&self, _alloc: Global) -> Result<Value, AllocError> {
        self.clone()
    }
}

impl ToValue for Json {
    ghost written = { λ d. d };

    fn to_value(&self, _alloc: Global) -> Result<Value, AllocError> {
        self.value().clone()
    }
}

impl ToValue for Text {
    ghost written = { string };

    fn to_value(&self, alloc: Global) -> Result<Value, AllocError> {
        Ok(Value::String(String::from_str(alloc, self.as_str())?))
    }
}

impl ToValue for bool {
    ghost written = { boolean };

    fn to_value(&self, _alloc: Global) -> Result<Value, AllocError> {
        Ok(Value::Bool(*self))
    }
}

impl ToValue for i64 {
    ghost written = { λ z. number (of_integer z) };

    fn to_value(&self, _alloc: Global) -> Result<Value, AllocError> {
        Ok(Value::from(*self))
    }
}

impl ToValue for u64 {
    ghost written = { λ n. number (unsigned n) };

    fn to_value(&self, _alloc: Global) -> Result<Value, AllocError> {
        Ok(Value::from(*self))
    }
}

/// `None` is written as null.
impl<T: ToValue> ToValue for Option<T> {
    ghost written = { null_or T.written };

    fn to_value(&self, alloc: Global) -> Result<Value, AllocError> {
        match self {
            None => Ok(Value::Null),
            Some(value) => value.to_value(alloc),
        }
    }
}

impl<T: ToValue + Drop> ToValue for List<T> {
    ghost written = { listed T.written };

    fn to_value(&self, alloc: Global) -> Result<Value, AllocError> {
        Ok(Value::Array(items_to_values(alloc, self.as_slice())?))
    }
}

impl<V: ToValue + Drop> ToValue for TextMap<V> {
    ghost written = { map_written V.written };

    fn to_value(&self, alloc: Global) -> Result<Value, AllocError> {
        Ok(Value::Object(entries_to_members(alloc, self.entries())?))
    }
}

/// A set is written as an object: its names, each with an empty object.
impl ToValue for TextSet {
    ghost written = { set_written };

    fn to_value(&self, alloc: Global) -> Result<Value, AllocError> {
        Ok(Value::Object(names_to_members(alloc, self.entries())?))
    }
}

fn items_to_values<T: ToValue>(alloc: Global, items: &[T]) -> Result<Vec<Value>, AllocError>
    ensures { IfOk result (λ v. items_view v.items ≡ items_of (map T.written items.now)) }
{
    let mut values = Vec::new(alloc);
    for item in items {
        values.push(item.to_value(alloc)?)?;
    }
    Ok(values)
}

fn entries_to_members<V: ToValue>(
    alloc: Global,
    entries: &[(Text, V)],
) -> Result<Map<String, Value>, AllocError>
    requires { Sorted entries.now }
    ensures { IfOk result (λ m. members_view m.entries ≡ members_list V.written entries.now) }
{
    let mut members = Map::new(alloc);
    for entry in entries {
        let value = entry.1.to_value(alloc)?;
        put(&mut members, alloc, entry.0.as_str(), value)?;
    }
    Ok(members)
}

fn names_to_members(alloc: Global, names: &[(Text, ())]) -> Result<Map<String, Value>, AllocError>
    requires { Sorted names.now }
    ensures { IfOk result (λ m. members_view m.entries ≡ members_list empty_object names.now) }
{
    let mut members = Map::new(alloc);
    for entry in names {
        let value = no_members(alloc);
        put(&mut members, alloc, entry.0.as_str(), value)?;
    }
    Ok(members)
}

fn no_members(alloc: Global) -> Value
    ensures { view result ≡ object no_members }
{
    Value::Object(Map::new(alloc))
}
