ghost use Rattle.std.specs.Prelude.{◌≡◌, OnOk, Option, option_map, unwrap_or, Bool, false};
ghost use Rattle.std.specs.FinMap.{entries};
ghost use Rattle.serde_json.specs.Data.{Data};
ghost use Rattle.json_tables.specs.Member.{unless_null};
ghost use Rattle.json_tables.specs.Fields.{no_entries, unless_empty};
ghost use Rattle.json_tables.specs.Again.{MemberReadsAgain};

use crate::field::{Field, put_field};
use crate::writes::Writes;
use json_values::{List, TextMap, TextSet};
use serde_json::{Map, Value};
use std::alloc::{AllocError, Global};

/// A type that holds any number of items.
pub trait Holder {
    ghost holds_none: { Self → Bool };

    fn is_empty(&self) -> bool
        ensures { result ≡ holds_none self.now };
}

impl<T: Drop> Holder for List<T> {
    ghost holds_none = { no_entries };

    fn is_empty(&self) -> bool {
        self.as_slice().is_empty()
    }
}

impl<V: Drop> Holder for TextMap<V> {
    ghost holds_none = { λ m. no_entries (entries m) };

    fn is_empty(&self) -> bool {
        self.entries().is_empty()
    }
}

impl Holder for TextSet {
    ghost holds_none = { λ m. no_entries (entries m) };

    fn is_empty(&self) -> bool {
        self.name_at(0).is_none()
    }
}

/// A member that is omitted if it is none or empty.
#[derive(Drop)]
pub struct UnlessEmpty<'a, T>(pub &'a Option<T>);

impl<'a, T: Writes + Holder + Drop> Field for UnlessEmpty<'a, T> {
    ghost field = { λ member. option_map T.written (unless_empty T.holds_none member.0.now) };

    ghost Known = { λ member. MemberReadsAgain (unless_null T.reading)
        (option_map T.written (unless_empty T.holds_none member.0.now))
        (option_map T.normal (unless_empty T.holds_none member.0.now))
        (unwrap_or (option_map T.floats member.0.now) false) };

    fn put_in(
        &self,
        alloc: Global,
        members: &mut Map<String, Value>,
        name: &str,
    ) -> Result<(), AllocError> {
        match self.0 {
            Some(value) if !value.is_empty() => put_field(alloc, members, name, value),
            _ => Ok(()),
        }
    }
}
