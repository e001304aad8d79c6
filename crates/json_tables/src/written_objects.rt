//! Objects with members in a row, so that the writer of a document has one exit.
ghost use Rattle.std.specs.Prelude.{◌≡◌, ℕ, List, Option, IfOk, OnOk, ⊤, map};
ghost use Rattle.serde_json.specs.View.{view, members_view};
ghost use Rattle.json_tables.specs.Fields.{Field, fields, with_fields};
ghost use Rattle.json_tables.specs.WrittenRows.{no_fields, fields_of};

use crate::field::Field;
use serde_json::{Map, Value};
use std::alloc::{AllocError, Global};

/// References in a row: none, or a reference to a value that is written as a member and the rest of the row.
pub trait FieldRow: Sized {
    /// How the members are written under these names.
    ghost written: { List (List ℕ) → Self → List Field };

    /// A property of the members that writing establishes.
    ghost Known: { Self → Type 0 };

    /// Adds the members under these names, without those that are none. There is one name for each.
    fn put_row(
        self,
        alloc: Global,
        members: &mut Map<String, Value>,
        names: &[&str],
    ) -> Result<(), AllocError>
        ensures exact { OnOk result (members_view members.new.entries
            ≡ with_fields (members_view members.old.entries) (written (map (λ name. name.now) names.now) self)) }
        ensures known { OnOk result (Known self) };
}

impl FieldRow for () {
    ghost written = { no_fields };

    ghost Known = { λ _. ⊤ };

    fn put_row(
        self,
        _alloc: Global,
        _members: &mut Map<String, Value>,
        _names: &[&str],
    ) -> Result<(), AllocError> {
        Ok(())
    }
}

impl<'a, A: Field, B: FieldRow + Drop> FieldRow for (&'a A, B) {
    ghost written = { λ names row. fields_of A.field B.written names row.0.now row.1 };

    ghost Known = { λ row. A.Known row.0.now × B.Known row.1 };

    fn put_row(
        self,
        alloc: Global,
        members: &mut Map<String, Value>,
        names: &[&str],
    ) -> Result<(), AllocError> {
        let (first, others) = self;
        let (name, names) = match names.split_first() {
            Some((name, names)) => (*name, names),
            None => ("", names),
        };
        first.put_in(alloc, members, name)?;
        others.put_row(alloc, members, names)
    }
}

/// Returns an object of these members, without those that are none.
pub fn write_object<R: FieldRow>(alloc: Global, names: &[&str], row: R) -> Result<Value, AllocError>
    ensures exact { IfOk result (λ v. view v ≡ fields (R.written (map (λ name. name.now) names.now) row)) }
    ensures each { OnOk result (R.Known row) }
{
    let mut members = Map::new(alloc);
    row.put_row(alloc, &mut members, names)?;
    Ok(Value::Object(members))
}

/// Writes an object: `object!(alloc, { "x": &self.x, "y": &self.y })`.
#[macro_export]
macro_rules! object {
    ($alloc:expr, { $($name:literal: $member:expr),* $(,)? }) => {
        $crate::write_object($alloc, &[$($name),*], $crate::object_row!($($member),*))
    };
}

/// Builds a row.
#[macro_export]
macro_rules! object_row {
    () => { () };
    ($first:expr $(, $rest:expr)*) => { ($first, $crate::object_row!($($rest),*)) };
}
