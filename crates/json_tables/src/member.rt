ghost use Rattle.std.specs.Prelude.{◌≡◌, Option, IfOk, Some, option_map};
ghost use Rattle.serde_json.specs.Data.{Data};
ghost use Rattle.serde_json.specs.View.{view};
ghost use Rattle.json_tables.specs.Outcomes.{ReadsTo};
ghost use Rattle.json_tables.specs.Member.{required, optional, unless_null, present, or_null};

use crate::error::ReadError;
use crate::reads::Reads;
use json_values::Json;
use serde_json::Value;
use std::alloc::{AllocError, Global};

/// A type that is read from a member: a value that must be present, or an option that is empty if missing or null.
pub trait Member: Sized {
    /// What is read from the member.
    ghost found: { Option Data → Option Self };

    /// Returns `Shape` if and only if the member does not match.
    fn read_member(alloc: Global, member: Option<&Value>) -> Result<Self, ReadError>
        ensures { ReadsTo result (found (option_map (λ v. view v.now) member.entry)) };
}

impl<T: Reads + Drop> Member for Option<T> {
    ghost found = { unless_null T.reading };

    fn read_member(alloc: Global, member: Option<&Value>) -> Result<Option<T>, ReadError> {
        match member {
            None | Some(Value::Null) => Ok(None),
            Some(member) => Ok(Some(T::read_value(alloc, member)?)),
        }
    }
}

/// Any value; null if the member is missing.
impl Member for Json {
    ghost found = { or_null };

    fn read_member(_alloc: Global, member: Option<&Value>) -> Result<Json, ReadError> {
        match member {
            Some(value) => Ok(Json::new(value.clone()?)),
            None => Ok(Json::new(Value::Null)),
        }
    }
}

/// Reads a value that must be present.
pub fn present<T: Reads + Drop>(alloc: Global, member: Option<&Value>) -> Result<T, ReadError>
    ensures { ReadsTo result (present T.reading (option_map (λ v. view v.now) member.entry)) }
{
    match member {
        Some(member) => T::read_value(alloc, member),
        None => Err(ReadError::Shape),
    }
}

/// Copies the value, or returns null if it is missing.
pub fn or_null(member: Option<&Value>) -> Result<Json, AllocError>
    ensures { IfOk result (λ json. or_null (option_map (λ v. view v.now) member.entry) ≡ Some json) }
{
    match member {
        Some(value) => Ok(Json::new(value.clone()?)),
        None => Ok(Json::new(Value::Null)),
    }
}

/// Reads a member that must be present.
pub fn required<T: Reads + Drop>(alloc: Global, value: &Value, name: &str) -> Result<T, ReadError>
    ensures { ReadsTo result (required T.reading name.now (view value.now)) }
{
    present(alloc, value.get(name))
}

/// Reads a member that may be missing or null.
pub fn optional<T: Reads + Drop>(
    alloc: Global,
    value: &Value,
    name: &str,
) -> Result<Option<T>, ReadError>
    ensures { ReadsTo result (optional T.reading name.now (view value.now)) }
{
    Member::read_member(alloc, value.get(name))
}
