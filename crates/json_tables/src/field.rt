ghost use Rattle.std.specs.Prelude.{◌≡◌, OnOk, Some, Option, option_map, unwrap_or, false, map};
ghost use Rattle.std.specs.List.{list_any};
ghost use Rattle.serde_json.specs.Data.{Data, string, number, unsigned};
ghost use Rattle.serde_json.specs.Find.{of_integer};
ghost use Rattle.serde_json.specs.View.{members_view};
ghost use Rattle.serde_json.specs.Written.{has_float};
ghost use Rattle.json_values.specs.Writing.{listed};
ghost use Rattle.json_tables.specs.Reading.{text_of, u8_of, i64_of, list_of};
ghost use Rattle.json_tables.specs.Member.{or_null, present, unless_null};
ghost use Rattle.json_tables.specs.Fields.{put_some};
ghost use Rattle.json_tables.specs.Again.{ReadsAgain, MemberReadsAgain};

use crate::writes::Writes;
use json_values::{Json, List, Text};
use serde_json::{Map, Value, put};
use std::alloc::{AllocError, Global};

/// A type that is written as a member, or omitted if it is none.
pub trait Field {
    ghost field: { Self → Option Data };

    /// A property of the member that writing establishes.
    ghost Known: { Self → Type 0 };

    fn put_in(
        &self,
        alloc: Global,
        members: &mut Map<String, Value>,
        name: &str,
    ) -> Result<(), AllocError>
        ensures ok { OnOk result (members_view members.new.entries
            ≡ put_some name.now (field self.now) (members_view members.old.entries)) }
        ensures known { OnOk result (Known self.now) };
}

impl Field for Text {
    ghost field = { λ t. Some (string t) };

    ghost Known = { λ t. MemberReadsAgain (present text_of) (Some (string t)) t false };

    fn put_in(
        &self,
        alloc: Global,
        members: &mut Map<String, Value>,
        name: &str,
    ) -> Result<(), AllocError> {
        put_field(alloc, members, name, self)
    }
}

/// A borrowed text.
impl<'a> Field for &'a str {
    ghost field = { λ t. Some (string t.now) };

    ghost Known = { λ t. MemberReadsAgain (present text_of) (Some (string t.now)) t.now false };

    fn put_in(
        &self,
        alloc: Global,
        members: &mut Map<String, Value>,
        name: &str,
    ) -> Result<(), AllocError> {
        let text = String::from_str(alloc, *self)?;
        put(members, alloc, name, Value::String(text))
    }
}

impl Field for u8 {
    ghost field = { λ n. Some (number (unsigned n)) };

    ghost Known = { λ n. MemberReadsAgain (present u8_of) (Some (number (unsigned n))) n false };

    fn put_in(
        &self,
        alloc: Global,
        members: &mut Map<String, Value>,
        name: &str,
    ) -> Result<(), AllocError> {
        put_field(alloc, members, name, self)
    }
}

impl Field for i64 {
    ghost field = { λ z. Some (number (of_integer z)) };

    ghost Known = { λ z. MemberReadsAgain (present i64_of) (Some (number (of_integer z))) z false };

    fn put_in(
        &self,
        alloc: Global,
        members: &mut Map<String, Value>,
        name: &str,
    ) -> Result<(), AllocError> {
        put_field(alloc, members, name, self)
    }
}

/// Any value, including null.
impl Field for Json {
    ghost field = { λ d. Some d };

    ghost Known = { λ d. MemberReadsAgain or_null (Some d) d (has_float d) };

    fn put_in(
        &self,
        alloc: Global,
        members: &mut Map<String, Value>,
        name: &str,
    ) -> Result<(), AllocError> {
        let value = self.value().clone()?;
        put(members, alloc, name, value)
    }
}

impl<T: Writes + Drop> Field for List<T> {
    ghost field = { λ xs. Some (listed T.written xs) };

    ghost Known = { λ xs. MemberReadsAgain (present (list_of T.reading))
        (Some (listed T.written xs)) (map T.normal xs) (list_any T.floats xs) };

    fn put_in(
        &self,
        alloc: Global,
        members: &mut Map<String, Value>,
        name: &str,
    ) -> Result<(), AllocError> {
        put_field(alloc, members, name, self)
    }
}

/// A member that must be present.
#[derive(Drop)]
pub struct Required<'a, T>(pub &'a T);

impl<'a, T: Writes + Drop> Field for Required<'a, T> {
    ghost field = { λ member. Some (T.written member.0.now) };

    ghost Known = { λ member. MemberReadsAgain (present T.reading) (Some (T.written member.0.now))
        (T.normal member.0.now) (T.floats member.0.now) };

    fn put_in(
        &self,
        alloc: Global,
        members: &mut Map<String, Value>,
        name: &str,
    ) -> Result<(), AllocError> {
        put_field(alloc, members, name, self.0)
    }
}

/// `None` is omitted.
impl<T: Writes + Drop> Field for Option<T> {
    ghost field = { option_map T.written };

    ghost Known = { λ x. MemberReadsAgain (unless_null T.reading) (option_map T.written x)
        (option_map T.normal x) (unwrap_or (option_map T.floats x) false) };

    fn put_in(
        &self,
        alloc: Global,
        members: &mut Map<String, Value>,
        name: &str,
    ) -> Result<(), AllocError> {
        match self {
            None => Ok(()),
            Some(value) => put_field(alloc, members, name, value),
        }
    }
}

/// Adds a member.
pub fn put_field<T: Writes + Drop>(
    alloc: Global,
    members: &mut Map<String, Value>,
    name: &str,
    value: &T,
) -> Result<(), AllocError>
    ensures ok { OnOk result (members_view members.new.entries
        ≡ put_some name.now (Some (T.written value.now)) (members_view members.old.entries)) }
    ensures known { OnOk result (ReadsAgain T.reading (T.written value.now) (T.normal value.now) (T.floats value.now)) }
{
    let value = value.write_value(alloc)?;
    put(members, alloc, name, value)
}
