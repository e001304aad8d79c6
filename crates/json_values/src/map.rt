ghost use Rattle.std.specs.Prelude.{◌≡◌, ◌↔◌, IsTrue, ◌<◌, ◌≤◌, OnOk, OnErr, IfOk, IfErr, length, slice_get};
ghost use Rattle.std.specs.Prelude.{map as list_map};
ghost use Rattle.std.specs.Option.{option_copied};
ghost use Rattle.std.specs.FinMap as map;
ghost use Rattle.std.specs.FinMap.Entries.{find};
ghost use Rattle.json_values.specs.Places.{place_of, by_bytes, Sorted};

use crate::copied::Copied;
use crate::text::Text;
use std::alloc::{AllocError, Global};
use std::cmp::Ordering;
use std::marker::Model;

/// A map keyed by texts. A contract sees a finite map keyed by lists of bytes.
#[derive(Debug, Drop)]
pub struct TextMap<V> {
    entries: Vec<(Text, V)>,
}

/// Texts by name.
pub type Annotations = TextMap<Text>;

impl<V> Model for TextMap<V> {
    ghost use Rattle.std.specs.Prelude.{T};
    ghost use Rattle.json_values.specs.Places.{by_bytes};
    ghost use Rattle.std.specs.FinMap.{FinMap, code, from_sorted};
    ghost use Rattle.std.specs.FinMap.Entries.{is_sorted};
    ghost use Rattle.std.specs.Coded.{coded_ℕ, coded_list};

    ghost Value = { FinMap by_bytes V };

    ghost coded = { code (coded_list coded_ℕ) V.code };

    ghost view = { λ m. from_sorted m.entries.items };

    ghost invariant = { λ m. T (is_sorted by_bytes m.entries.items) };
}

impl<V: Drop> TextMap<V> {
    /// Returns an empty map.
    pub fn new(alloc: Global) -> TextMap<V>
        ensures { result ≡ map.empty }
    {
        TextMap {
            entries: Vec::new(alloc),
        }
    }

    /// Inserts a value under a name, replacing the value of a name that is present.
    pub fn insert(&mut self, name: Text, value: V) -> Result<(), AllocError>
        ensures ok { OnOk result (self.new ≡ map.insert self.old name value) }
        ensures err { OnErr result (self.new ≡ self.old) }
    {
        match place(self.entries.as_slice(), name.as_str()) {
            Ok(at) => {
                self.entries[at].1 = value;
                Ok(())
            }
            Err(at) => Ok(self.entries.insert(at, (name, value))?),
        }
    }

    /// Returns the value of the name, or `None` if the name is missing.
    pub fn get(&self, name: &str) -> Option<&V>
        ensures { option_copied result ≡ map.get self.now name.now }
    {
        find(self.entries.as_slice(), name)
    }

    /// Returns the names and values, in the order of the names.
    pub fn entries(&self) -> &[(Text, V)]
        ensures { result.now ≡ map.entries self.now }
    {
        self.entries.as_slice()
    }

    /// Returns the name at this index in the order of the names.
    pub fn name_at(&self, place: usize) -> Option<&Text>
        ensures { option_copied result ≡ slice_get (map.keys self.now) place }
    {
        name_in(self.entries.as_slice(), place)
    }
}

impl<V: Copied + Drop> Copied for TextMap<V> {
    fn copy(&self, alloc: Global) -> Result<TextMap<V>, AllocError> {
        Ok(TextMap {
            entries: copies_of(alloc, self.entries.as_slice())?,
        })
    }
}

/// Maps are equal if their names and values are equal.
impl<V: PartialEq + Drop> PartialEq for TextMap<V> {
    ghost use Rattle.json_values.specs.Equalities.{IsEquality, is_same_map, maps_partial};

    ghost eq = { is_same_map V.eq };

    ghost laws = { maps_partial V.laws };

    fn eq(&self, other: &TextMap<V>) -> bool
        ensures value { result ≡ is_same_map V.eq self.now other.now }
        ensures same { IsEquality V.eq → IsTrue result ↔ (self.now ≡ other.now) }
    {
        self.entries() == other.entries()
    }
}

impl<V: Eq + Drop> Eq for TextMap<V> {
    ghost use Rattle.json_values.specs.Equalities.{maps};

    ghost laws = { maps V.Eq.laws };
}

fn copies_of<V: Copied + Drop>(
    alloc: Global,
    entries: &[(Text, V)],
) -> Result<Vec<(Text, V)>, AllocError>
    ensures { IfOk result (λ copies. copies.items ≡ entries.now) }
{
    let mut copies = Vec::new(alloc);
    for entry in entries {
        copies.push(entry.copy(alloc)?)?;
    }
    Ok(copies)
}

// Returns the name at an index.
fn name_in<V>(entries: &[(Text, V)], place: usize) -> Option<&Text>
    ensures { option_copied result ≡ slice_get (list_map (λ entry. entry.0) entries.now) place }
{
    if place < entries.len() {
        Some(&entries[place].0)
    } else {
        None
    }
}

// Returns the value of the name.
fn find<'a, V>(entries: &'a [(Text, V)], name: &str) -> Option<&'a V>
    requires { Sorted entries.now }
    ensures { option_copied result ≡ find by_bytes name.now entries.now }
{
    match place(entries, name) {
        Ok(at) => Some(&entries[at].1),
        Err(_) => None,
    }
}

// Returns the index of the name, or the index at which to insert it. Binary search.
fn place<V>(entries: &[(Text, V)], name: &str) -> Result<usize, usize>
    requires { Sorted entries.now }
    ensures place { result ≡ place_of name.now entries.now }
    ensures found { IfOk result (λ at. at < length entries.now) }
    ensures absent { IfErr result (λ at. at ≤ length entries.now) }
{
    let mut left = entries;
    let mut before = 0;
    while !left.is_empty() {
        let middle = left.len() / 2;
        match name.cmp(left[middle].0.as_str()) {
            Ordering::Less => left = &left[..middle],
            Ordering::Equal => return Ok(before + middle),
            Ordering::Greater => {
                before += middle + 1;
                left = left.split_at(middle + 1).1;
            }
        }
    }
    Err(before)
}
