//! Members in a row, so that the reader of a document has one exit.
ghost use Rattle.std.specs.Prelude.{ℕ, List, Option, IfOk, ⊤, map};
ghost use Rattle.serde_json.specs.Data.{Data};
ghost use Rattle.serde_json.specs.View.{view};
ghost use Rattle.json_tables.specs.Rows.{made_of_none, made_of, IsRow, IfRefused};

use crate::error::ReadError;
use crate::member::Member;
use serde_json::Value;
use std::alloc::Global;

/// Members of an object in a row: none, or a member and the rest of the row. `json_values::row!` builds one.
pub trait Row: Sized {
    /// Takes the members one after another, and builds an `X` or none.
    ghost Maker: { Type 0 → Type 0 };

    /// The value that is built from the members under these names.
    ghost made: { (X : Type 0) → List (List ℕ) → Data → Maker X → Option X };

    /// Each member separately.
    ghost Each: { List (List ℕ) → Data → Self → Type 0 };

    /// Returns `Shape` only if no value can be built: a member does not match, or has no name.
    fn read_row<X>(alloc: Global, value: &Value, names: &[&str]) -> Result<Self, ReadError>
        ensures refused { (make : Maker X)
            → IfRefused result (made X (map (λ name. name.now) names.now) (view value.now) make) }
        ensures each { IfOk result (Each (map (λ name. name.now) names.now) (view value.now)) };
}

impl Row for () {
    ghost Maker = { Option };

    ghost made = { λ X. made_of_none };

    ghost Each = { λ _ _ _. ⊤ };

    fn read_row<X>(_alloc: Global, _value: &Value, _names: &[&str]) -> Result<(), ReadError> {
        Ok(())
    }
}

impl<A: Member + Drop, B: Row> Row for (A, B) {
    ghost Maker = { λ X. A → B.Maker X };

    ghost made = { λ X. made_of A.found (B.made X) };

    ghost Each = { IsRow A.found B.Each };

    fn read_row<X>(alloc: Global, value: &Value, names: &[&str]) -> Result<(A, B), ReadError> {
        let Some((name, others)) = names.split_first() else {
            return Err(ReadError::Shape);
        };
        let first = A::read_member(alloc, value.get(*name))?;
        let rest = B::read_row::<X>(alloc, value, others)?;
        Ok((first, rest))
    }
}

/// Reads the members under these names, from which an `X` is built.
pub fn read_row<X, R: Row>(alloc: Global, value: &Value, names: &[&str]) -> Result<R, ReadError>
    ensures refused { (make : R.Maker X)
        → IfRefused result (R.made X (map (λ name. name.now) names.now) (view value.now) make) }
    ensures each { IfOk result (R.Each (map (λ name. name.now) names.now) (view value.now)) }
{
    R::read_row::<X>(alloc, value, names)
}
