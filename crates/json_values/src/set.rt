ghost use Rattle.std.specs.Prelude.{◌≡◌, ◌↔◌, IsTrue, OnOk, OnErr, slice_get};
ghost use Rattle.std.specs.Option.{option_copied};
ghost use Rattle.std.specs.FinMap as map;

use crate::copied::Copied;
use crate::map::TextMap;
use crate::text::Text;
use std::alloc::{AllocError, Global};
use std::marker::Model;

/// A set of texts. A contract sees a finite map from lists of bytes to unit.
#[derive(Debug, Drop)]
pub struct TextSet {
    inner: TextMap<()>,
}

impl Model for TextSet {
    ghost use Rattle.json_values.specs.Places.{by_bytes};
    ghost use Rattle.std.specs.FinMap.{FinMap, code};
    ghost use Rattle.std.specs.Coded.{coded_ℕ, coded_list};
    ghost use base.Stored.{coded_unit};

    ghost Value = { FinMap by_bytes (Unit {0}) };

    ghost coded = { code (coded_list coded_ℕ) coded_unit };

    ghost view = { λ s. s.inner };
}

impl TextSet {
    /// Returns an empty set.
    pub fn new(alloc: Global) -> TextSet
        ensures { result ≡ map.empty }
    {
        TextSet {
            inner: TextMap::new(alloc),
        }
    }

    /// Adds a name, unless it is present.
    pub fn insert(&mut self, name: Text) -> Result<(), AllocError>
        ensures ok { OnOk result (self.new ≡ map.insert self.old name tt) }
        ensures err { OnErr result (self.new ≡ self.old) }
    {
        self.inner.insert(name, ())
    }

    /// Returns whether the name is present.
    pub fn contains(&self, name: &str) -> bool
        ensures { result ≡ map.contains_key self.now name.now }
    {
        self.inner.get(name).is_some()
    }

    // Returns the names in the order of their bytes, each with unit.
    pub(crate) fn entries(&self) -> &[(Text, ())]
        ensures { result.now ≡ map.entries self.now }
    {
        self.inner.entries()
    }

    /// Returns the name at this index in the order of the names.
    pub fn name_at(&self, place: usize) -> Option<&Text>
        ensures { option_copied result ≡ slice_get (map.keys self.now) place }
    {
        self.inner.name_at(place)
    }
}

impl Copied for TextSet {
    fn copy(&self, alloc: Global) -> Result<TextSet, AllocError> {
        Ok(TextSet {
            inner: self.inner.copy(alloc)?,
        })
    }
}

/// Sets are equal if their names are equal.
impl PartialEq for TextSet {
    ghost use Rattle.std.specs.Cmp.{partial_equiv_from_equiv};
    ghost use Rattle.json_values.specs.Equalities.{is_same_set, sets};

    ghost eq = { is_same_set };

    ghost laws = { partial_equiv_from_equiv sets };

    #[tactic(auto, using(crate::proofs::Equalities::sets_decided))]
    fn eq(&self, other: &TextSet) -> bool
        ensures value { result ≡ is_same_set self.now other.now }
        ensures same { IsTrue result ↔ (self.now ≡ other.now) }
    {
        self.inner == other.inner
    }
}

impl Eq for TextSet {
    ghost use Rattle.json_values.specs.Equalities.{sets};

    ghost laws = { sets };
}
