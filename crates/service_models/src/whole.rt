// Numbers as members of models.
ghost use Rattle.std.specs.Prelude.{◌≡◌, IfOk, Some, false};
ghost use Rattle.serde_json.specs.Data.{number, unsigned};
ghost use Rattle.serde_json.specs.Find.{of_integer};
ghost use Rattle.json_tables.specs.Reading.{i32_of, u64_of};
ghost use Rattle.json_tables.specs.Member.{present};
ghost use Rattle.json_tables.specs.Again.{MemberReadsAgain};

use json_tables::{Field, ReadError, Reads, Writes};
use json_values::List;
use serde_json::{Map, Value, put};
use std::alloc::{AllocError, Global};
use std::marker::Model;

/// A 32-bit integer. A contract sees the number.
#[derive(Drop)]
pub(crate) struct WholeNumber {
    inner: i32,
}

impl Model for WholeNumber {
    ghost use Rattle.std.specs.Prelude.{ℤ};

    ghost Value = { ℤ };

    ghost view = { λ whole. whole.inner };
}

impl Reads for WholeNumber {
    ghost reading = { i32_of };

    fn read_value(alloc: Global, value: &Value) -> Result<WholeNumber, ReadError> {
        let inner = i32::read_value(alloc, value)?;
        Ok(WholeNumber { inner })
    }
}

impl Writes for WholeNumber {
    ghost written = { λ z. number (of_integer z) };

    fn write_value(&self, _alloc: Global) -> Result<Value, AllocError> {
        Ok(Value::from(self.inner as i64))
    }
}

pub(crate) fn whole(number: &Option<i32>) -> Option<WholeNumber>
    ensures { result ≡ number.now }
{
    match number {
        Some(number) => Some(WholeNumber { inner: *number }),
        None => None,
    }
}

fn whole_items(alloc: Global, numbers: &[i32]) -> Result<List<WholeNumber>, AllocError>
    ensures { IfOk result (λ items. items ≡ numbers.now) }
{
    let mut items = List::new(alloc);
    for number in numbers {
        items.push(WholeNumber { inner: *number })?;
    }
    Ok(items)
}

pub(crate) fn wholes(
    alloc: Global,
    numbers: &Option<List<i32>>,
) -> Result<Option<List<WholeNumber>>, AllocError>
    ensures { IfOk result (λ items. items ≡ numbers.now) }
{
    match numbers {
        Some(numbers) => {
            let items = whole_items(alloc, numbers.as_slice())?;
            Ok(Some(items))
        }
        None => Ok(None),
    }
}

/// A non-negative integer of 64 bits.
#[derive(Drop)]
pub(crate) struct Size {
    pub size: u64,
}

impl Field for Size {
    ghost field = { λ s. Some (number (unsigned s.size)) };

    ghost Known = { λ s. MemberReadsAgain (present u64_of) (Some (number (unsigned s.size))) s.size false };

    fn put_in(
        &self,
        alloc: Global,
        members: &mut Map<String, Value>,
        name: &str,
    ) -> Result<(), AllocError> {
        put(members, alloc, name, Value::from(self.size))
    }
}
