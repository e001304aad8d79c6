// Items that are taken one after another.
ghost use Rattle.std.specs.Prelude.{◌≡◌, [], ◌∷◌, ◌++◌, OnOk, OnErr};
ghost use Rattle.serde_json.specs.View.{items_view};
ghost use Rattle.json_tables.specs.Outcomes.{ReadsTo};
ghost use Rattle.json_tables.specs.Reading.{list_of, items_by};

use json_tables::{ReadError, Reads};
use serde_json::Value;
use std::alloc::{AllocError, Global};
use std::marker::Model;

/// Items that are taken one after another. A contract sees their list.
#[derive(Drop)]
pub struct Queue<T> {
    inner: Vec<T>,
}

impl<T> Model for Queue<T> {
    ghost use Rattle.std.specs.Prelude.{List};

    ghost Value = { List T };

    ghost view = { λ q. q.inner.items };
}

impl<T: Drop> Queue<T> {
    /// Returns an empty queue.
    pub fn new(alloc: Global) -> Queue<T>
        ensures { result ≡ [] }
    {
        Queue {
            inner: Vec::new(alloc),
        }
    }

    /// Appends an item.
    pub fn push(&mut self, item: T) -> Result<(), AllocError>
        ensures ok { OnOk result (self.new ≡ self.old ++ item ∷ []) }
        ensures err { OnErr result (self.new ≡ self.old) }
    {
        self.inner.push(item)?;
        Ok(())
    }

    /// Returns the items in order.
    pub fn as_slice(&self) -> &[T]
        ensures { result.now ≡ self.now }
    {
        self.inner.as_slice()
    }

    /// Returns the items in order, to be taken.
    pub fn into_vec(self) -> Vec<T>
        ensures { result.items ≡ self }
    {
        self.inner
    }
}

impl<T: Reads + Drop> Reads for Queue<T> {
    ghost reading = { list_of T.reading };

    fn read_value(alloc: Global, value: &Value) -> Result<Queue<T>, ReadError> {
        match value.as_array() {
            Some(items) => read_items(alloc, items.as_slice()),
            None => Err(ReadError::Shape),
        }
    }
}

fn read_items<T: Reads + Drop>(alloc: Global, items: &[Value]) -> Result<Queue<T>, ReadError>
    ensures { ReadsTo result (items_by T.reading (items_view items.now)) }
{
    let mut list = Queue::new(alloc);
    for item in items {
        list.push(T::read_value(alloc, item)?)?;
    }
    Ok(list)
}
