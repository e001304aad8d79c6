ghost use Rattle.std.specs.Prelude.{◌≡◌, Some, IfOk, OnOk, Bool, false, map, All, refl};
ghost use Rattle.std.specs.List.{list_any};
ghost use Rattle.serde_json.specs.Data.{Data, string, number, unsigned, boolean};
ghost use Rattle.serde_json.specs.Find.{of_integer};
ghost use Rattle.serde_json.specs.View.{view, items_view, items_of};
ghost use Rattle.serde_json.specs.Written.{has_float};
ghost use Rattle.json_values.specs.Writing.{listed, map_written, set_written};
ghost use Rattle.json_tables.specs.Again.{ReadsAgain};

use crate::reads::Reads;
use json_values::{List, Text, TextMap, TextSet, ToValue};
use serde_json::Value;
use std::alloc::{AllocError, Global};

/// A type that is written as a JSON value and round-trips.
pub trait Writes: Reads {
    /// The data that is written.
    ghost written: { Self → Data };

    /// Its normal form: the value that is read from the written data.
    ghost normal: { Self → Self } = { λ x. x };

    /// Whether the written data contains a float.
    ghost floats: { Self → Bool } = { λ _. false };

    fn write_value(&self, alloc: Global) -> Result<Value, AllocError>
        ensures exact { IfOk result (λ v. view v ≡ written self.now) }
        ensures again { OnOk result (ReadsAgain Self.reading (written self.now) (normal self.now) (floats self.now)) };
}

/// A type whose values always round-trip to themselves, and contain no float.
pub trait Lasting: Reads + ToValue {
    ghost reads_back: { (x : Self) → Self.reading (Self.written x) ≡ Some x };

    ghost plain: { (x : Self) → has_float (Self.written x) ≡ false };
}

impl Lasting for Text {
    ghost reads_back = { λ _. refl };

    ghost plain = { λ _. refl };
}

impl Writes for bool {
    ghost written = { boolean };

    fn write_value(&self, _alloc: Global) -> Result<Value, AllocError> {
        Ok(Value::Bool(*self))
    }
}

impl Writes for u8 {
    ghost written = { λ n. number (unsigned n) };

    fn write_value(&self, _alloc: Global) -> Result<Value, AllocError> {
        Ok(Value::from(*self))
    }
}

impl Writes for i64 {
    ghost written = { λ z. number (of_integer z) };

    fn write_value(&self, _alloc: Global) -> Result<Value, AllocError> {
        Ok(Value::from(*self))
    }
}

impl Writes for Text {
    ghost written = { string };

    fn write_value(&self, alloc: Global) -> Result<Value, AllocError> {
        self.to_value(alloc)
    }
}

impl<V: Lasting + Drop> Writes for TextMap<V> {
    ghost written = { map_written V.written };

    fn write_value(&self, alloc: Global) -> Result<Value, AllocError> {
        let value = self.to_value(alloc)?;
        Ok(value)
    }
}

impl Writes for TextSet {
    ghost written = { set_written };

    fn write_value(&self, alloc: Global) -> Result<Value, AllocError> {
        let value = self.to_value(alloc)?;
        Ok(value)
    }
}

impl<T: Writes + Drop> Writes for List<T> {
    ghost written = { listed T.written };

    ghost normal = { map T.normal };

    ghost floats = { list_any T.floats };

    fn write_value(&self, alloc: Global) -> Result<Value, AllocError> {
        Ok(Value::Array(write_items(alloc, self.as_slice())?))
    }
}

fn write_items<T: Writes + Drop>(alloc: Global, items: &[T]) -> Result<Vec<Value>, AllocError>
    ensures exact { IfOk result (λ v. items_view v.items ≡ items_of (map T.written items.now)) }
    ensures again { OnOk result (All
        (λ x. ReadsAgain T.reading (T.written x) (T.normal x) (T.floats x)) items.now) }
{
    let mut values = Vec::new(alloc);
    for item in items {
        let value = item.write_value(alloc)?;
        values.push(value)?;
    }
    Ok(values)
}
