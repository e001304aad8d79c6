// Numbers and `bool`.
ghost use Rattle.json_tables.specs.Reading.{bool_of, u8_of, u16_of, u32_of, u64_of, i32_of, i64_of};
ghost use Rattle.json_tables.specs.Member.{present};

use crate::error::ReadError;
use crate::member::{Member, present};
use crate::reads::Reads;
use serde_json::Value;
use std::alloc::Global;

impl Reads for bool {
    ghost reading = { bool_of };

    fn read_value(_alloc: Global, value: &Value) -> Result<bool, ReadError> {
        value.as_bool().ok_or(ReadError::Shape)
    }
}

impl Member for bool {
    ghost found = { present bool_of };

    fn read_member(alloc: Global, member: Option<&Value>) -> Result<bool, ReadError> {
        present(alloc, member)
    }
}

impl Reads for u8 {
    ghost reading = { u8_of };

    fn read_value(_alloc: Global, value: &Value) -> Result<u8, ReadError> {
        match value.as_u64() {
            Some(n) if n < 256 => Ok(n as u8),
            _ => Err(ReadError::Shape),
        }
    }
}

impl Member for u8 {
    ghost found = { present u8_of };

    fn read_member(alloc: Global, member: Option<&Value>) -> Result<u8, ReadError> {
        present(alloc, member)
    }
}

impl Reads for u16 {
    ghost reading = { u16_of };

    fn read_value(_alloc: Global, value: &Value) -> Result<u16, ReadError> {
        match value.as_u64() {
            Some(n) if n < 65536 => Ok(n as u16),
            _ => Err(ReadError::Shape),
        }
    }
}

impl Member for u16 {
    ghost found = { present u16_of };

    fn read_member(alloc: Global, member: Option<&Value>) -> Result<u16, ReadError> {
        present(alloc, member)
    }
}

impl Reads for u32 {
    ghost reading = { u32_of };

    fn read_value(_alloc: Global, value: &Value) -> Result<u32, ReadError> {
        match value.as_u64() {
            Some(n) if n < 4294967296 => Ok(n as u32),
            _ => Err(ReadError::Shape),
        }
    }
}

impl Member for u32 {
    ghost found = { present u32_of };

    fn read_member(alloc: Global, member: Option<&Value>) -> Result<u32, ReadError> {
        present(alloc, member)
    }
}

impl Reads for u64 {
    ghost reading = { u64_of };

    fn read_value(_alloc: Global, value: &Value) -> Result<u64, ReadError> {
        value.as_u64().ok_or(ReadError::Shape)
    }
}

impl Member for u64 {
    ghost found = { present u64_of };

    fn read_member(alloc: Global, member: Option<&Value>) -> Result<u64, ReadError> {
        present(alloc, member)
    }
}

impl Reads for i32 {
    ghost reading = { i32_of };

    fn read_value(_alloc: Global, value: &Value) -> Result<i32, ReadError> {
        match value.as_i64() {
            Some(n) if -2147483648 <= n && n <= 2147483647 => Ok(n as i32),
            _ => Err(ReadError::Shape),
        }
    }
}

impl Member for i32 {
    ghost found = { present i32_of };

    fn read_member(alloc: Global, member: Option<&Value>) -> Result<i32, ReadError> {
        present(alloc, member)
    }
}

impl Reads for i64 {
    ghost reading = { i64_of };

    fn read_value(_alloc: Global, value: &Value) -> Result<i64, ReadError> {
        value.as_i64().ok_or(ReadError::Shape)
    }
}

impl Member for i64 {
    ghost found = { present i64_of };

    fn read_member(alloc: Global, member: Option<&Value>) -> Result<i64, ReadError> {
        present(alloc, member)
    }
}
