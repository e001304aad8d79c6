// The entries of a cache, the latest last.
ghost use Rattle.std.specs.Prelude.{◌≡◌, ◌≤◌, ◌<◌, [], ◌∷◌, ◌++◌, not, filter, length, option_copied};
ghost use Rattle.std.specs.Prelude.{drop as rest_from};
ghost use Rattle.std.specs.Prelude.{Some, OnOk, OnErr, vec_len, vec_capacity};
ghost use Rattle.std.specs.List.{find};
ghost use Rattle.registry_cache.specs.Answers.{is_of, replaced, within};

use crate::answer::Kind;
use crate::answers::{Bounds, Entry};
use crate::weights::Weighs;
use std::alloc::{AllocError, Global};
use std::marker::Model;

/// Entries, the oldest first. A contract sees them as a list.
#[derive(Drop)]
pub struct Row<T> {
    inner: Vec<T>,
}

impl<T> Model for Row<T> {
    ghost use Rattle.std.specs.Prelude.{List};

    ghost Value = { List T };

    ghost view = { λ row. row.inner.items };
}

pub type Entries = Row<Entry>;

fn without(entries: &mut Vec<Entry>, kind: Kind, key: &[u8])
    ensures others { entries.new.items ≡ filter (λ e. not (is_of kind key.now e)) entries.old.items }
    ensures count { vec_len entries.new ≤ vec_len entries.old }
    ensures room { vec_capacity entries.new ≡ vec_capacity entries.old }
{
    entries.retain(|entry| !entry.is_of(kind, key));
}

// The first index from which the entries are within the bounds.
fn fits_from(entries: &[Entry], bounds: &Bounds) -> usize
    ensures bound { result ≤ length entries.now }
    ensures rest { within (Some bounds.now) entries.now ≡ rest_from result entries.now }
{
    let mut start = entries.len();
    let mut weight = 0u128;
    while 0 < start {
        let count = entries.len() - (start - 1);
        weight = weight.saturating_add(entries[start - 1].weight());
        if bounds.answers < count as u64 || (bounds.bytes as u128) < weight {
            return start;
        }
        start -= 1;
    }
    0
}

impl Row<Entry> {
    pub fn new(alloc: Global) -> Row<Entry>
        ensures { result ≡ [] }
    {
        Row {
            inner: Vec::new(alloc),
        }
    }

    /// Returns the entry under this key, or `None` if there is none.
    pub fn find(&self, kind: Kind, key: &[u8]) -> Option<&Entry>
        ensures { option_copied result ≡ find (is_of kind key.now) self.now }
    {
        self.inner.iter().find(|entry| entry.is_of(kind, key))
    }

    /// Appends an entry; it replaces the one under its key. The other entries are moved, not copied.
    pub fn put(&mut self, entry: Entry) -> Result<(), AllocError>
        ensures ok { OnOk result (self.new ≡ replaced entry self.old) }
        ensures err { OnErr result (self.new ≡ self.old) }
    {
        self.inner.reserve(1)?;
        without(&mut self.inner, entry.answer.kind(), entry.key.as_slice());
        self.inner.push(entry)?;
        Ok(())
    }

    /// Evicts the oldest entries until the others are within the bounds.
    pub fn cut(&mut self, bounds: &Bounds)
        ensures { self.new ≡ within (Some bounds.now) self.old }
    {
        let start = fits_from(self.inner.as_slice(), bounds);
        let count = self.inner.len() - start;
        self.inner.rotate_left(start);
        self.inner.truncate(count);
    }
}
