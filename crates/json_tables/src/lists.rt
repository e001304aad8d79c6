ghost use Rattle.serde_json.specs.View.{view, items_view};
ghost use Rattle.json_tables.specs.Outcomes.{ReadsTo};
ghost use Rattle.json_tables.specs.Reading.{list_of, items_by, pair_of, two_by};
ghost use Rattle.json_tables.specs.Member.{present};

use crate::error::ReadError;
use crate::member::{Member, present};
use crate::reads::Reads;
use json_values::List;
use serde_json::Value;
use std::alloc::Global;

impl<T: Reads + Drop> Reads for List<T> {
    ghost reading = { list_of T.reading };

    fn read_value(alloc: Global, value: &Value) -> Result<List<T>, ReadError> {
        match value.as_array() {
            Some(items) => read_items(alloc, items.as_slice()),
            None => Err(ReadError::Shape),
        }
    }
}

impl<T: Reads + Drop> Member for List<T> {
    ghost found = { present (list_of T.reading) };

    fn read_member(alloc: Global, member: Option<&Value>) -> Result<List<T>, ReadError> {
        present(alloc, member)
    }
}

fn read_items<T: Reads + Drop>(alloc: Global, items: &[Value]) -> Result<List<T>, ReadError>
    ensures { ReadsTo result (items_by T.reading (items_view items.now)) }
{
    let mut list = List::new(alloc);
    for item in items {
        list.push(T::read_value(alloc, item)?)?;
    }
    Ok(list)
}

impl<T: Reads + Drop, U: Reads + Drop> Reads for (T, U) {
    ghost reading = { pair_of T.reading U.reading };

    fn read_value(alloc: Global, value: &Value) -> Result<(T, U), ReadError> {
        match value.as_array() {
            Some(items) => read_two(alloc, items.as_slice()),
            None => Err(ReadError::Shape),
        }
    }
}

fn read_two<T: Reads + Drop, U: Reads + Drop>(
    alloc: Global,
    items: &[Value],
) -> Result<(T, U), ReadError>
    ensures { ReadsTo result (two_by T.reading U.reading (items_view items.now)) }
{
    let [first, second, rest @ ..] = items else {
        return Err(ReadError::Shape);
    };
    if !rest.is_empty() {
        return Err(ReadError::Shape);
    }
    let first = T::read_value(alloc, first)?;
    let second = U::read_value(alloc, second)?;
    Ok((first, second))
}
