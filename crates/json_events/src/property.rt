ghost use Rattle.std.specs.Prelude.{◌≡◌, IfOk};
ghost use Rattle.json_events.specs.Units.{units};

use crate::units::units_of;
use json_values::{Blob, Copied, List, copied};
use std::alloc::{AllocError, Global};
use std::cmp::Ordering;

/// A member of an object. Members are compared by their sorting keys only (RFC 8785, 3.2.3).
#[derive(Debug, Drop)]
pub struct JsonProperty {
    /// The UTF-16 units of the name.
    pub sorting_key: List<u16>,
    /// The canonical text of the name.
    pub key: Blob,
    /// The canonical text of the value.
    pub value: Blob,
}

impl JsonProperty {
    /// Creates a member with this name. Key and value are stored verbatim.
    pub fn new(
        alloc: Global,
        name: &str,
        key: Blob,
        value: Blob,
    ) -> Result<JsonProperty, AllocError>
        ensures { IfOk result
            (λ p. p ≡ record { sorting_key = units name.now; key = key; value = value }) }
    {
        let sorting_key = units_of(alloc, name)?;
        Ok(JsonProperty {
            sorting_key,
            key,
            value,
        })
    }
}

impl Copied for JsonProperty {
    fn copy(&self, alloc: Global) -> Result<JsonProperty, AllocError> {
        copied!(
            alloc,
            self,
            JsonProperty {
                sorting_key,
                key,
                value
            }
        )
    }
}

impl PartialEq for JsonProperty {
    ghost use Rattle.std.specs.Str.{bytes_eq};
    ghost use Rattle.std.specs.Cmp.{partial_equiv_from_equiv, on_equiv};
    ghost use Rattle.std.specs.Cmp.Lexicographic.{nat_list_eq_equiv};

    ghost eq = { λ p q. bytes_eq p.sorting_key q.sorting_key };

    ghost laws = { partial_equiv_from_equiv (on_equiv (λ p. p.sorting_key) nat_list_eq_equiv) };

    fn eq(&self, other: &JsonProperty) -> bool {
        self.sorting_key.as_slice() == other.sorting_key.as_slice()
    }
}

impl Eq for JsonProperty {
    ghost use Rattle.std.specs.Cmp.{on_equiv};
    ghost use Rattle.std.specs.Cmp.Lexicographic.{nat_list_eq_equiv};

    ghost laws = { on_equiv (λ p. p.sorting_key) nat_list_eq_equiv };
}

impl PartialOrd for JsonProperty {
    ghost use Rattle.std.specs.Prelude.{Some};
    ghost use Rattle.std.specs.Ordering.{nat_cmp};
    ghost use Rattle.std.specs.Cmp.{on_po};
    ghost use Rattle.std.specs.Cmp.Lexicographic.{slice_cmp, texts_po};

    ghost partial_cmp = { λ p q. Some (slice_cmp nat_cmp p.sorting_key q.sorting_key) };

    ghost laws = { on_po (λ p. p.sorting_key) texts_po };

    fn partial_cmp(&self, other: &JsonProperty) -> Option<Ordering> {
        Some(self.cmp(other))
    }
}

impl Ord for JsonProperty {
    ghost use Rattle.std.specs.Prelude.{refl};
    ghost use Rattle.std.specs.Ordering.{nat_cmp};
    ghost use Rattle.std.specs.Cmp.{on_total};
    ghost use Rattle.std.specs.Cmp.Lexicographic.{slice_cmp, nat_list_cmp_total, texts_ties};

    ghost cmp = { λ p q. slice_cmp nat_cmp p.sorting_key q.sorting_key };

    ghost total = { on_total (λ p. p.sorting_key) nat_list_cmp_total };

    ghost matches_partial_cmp = { λ p q. refl };

    ghost matches_eq = { λ p q. texts_ties p.sorting_key q.sorting_key };

    fn cmp(&self, other: &JsonProperty) -> Ordering {
        let key = self.sorting_key.as_slice();
        key.cmp(other.sorting_key.as_slice())
    }
}
