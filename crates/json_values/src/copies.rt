//! Copies several values in one call, so that the copy of a struct has one exit.
ghost use Rattle.std.specs.Prelude.{◌≡◌, IfOk};

use crate::copied::Copied;
use std::alloc::{AllocError, Global};

/// A row of references: empty, or a reference to a copyable value and the rest of the row. `row!` builds a row
/// of any length.
pub trait CopyRow {
    type Copies;

    /// The values that they refer to.
    ghost sources: { Self → Self.Copies };

    fn copy_row(self, alloc: Global) -> Result<Self::Copies, AllocError>
        ensures { IfOk result (λ copies. copies ≡ sources self) };
}

impl CopyRow for () {
    ghost use Rattle.std.specs.Prelude.{⊤};

    type Copies = ();

    ghost sources = { λ _. tt };

    fn copy_row(self, _alloc: Global) -> Result<(), AllocError> {
        Ok(())
    }
}

impl<'a, A: Copied + Drop, B: CopyRow + Drop> CopyRow for (&'a A, B) {
    type Copies = (A, B::Copies);

    ghost sources = { λ row. (row.0.now, B.sources row.1) };

    fn copy_row(self, alloc: Global) -> Result<(A, B::Copies), AllocError> {
        let (first, others) = self;
        let copy = first.copy(alloc)?;
        let copies = others.copy_row(alloc)?;
        Ok((copy, copies))
    }
}

/// Copies the values that the row refers to.
pub fn copy_all<R: CopyRow>(alloc: Global, row: R) -> Result<R::Copies, AllocError>
    ensures { IfOk result (λ copies. copies ≡ R.sources row) }
{
    row.copy_row(alloc)
}

/// Builds or matches a row: `row![a, b]` is `(a, (b, ()))`.
#[macro_export]
macro_rules! row {
    () => { () };
    ($first:tt $(, $rest:tt)* $(,)?) => { ($first, $crate::row!($($rest),*)) };
    ($first:expr $(, $rest:expr)* $(,)?) => { ($first, $crate::row!($($rest),*)) };
}

/// Copies the fields of a struct and returns the copy: `copied!(alloc, self, Point { x, y })`.
#[macro_export]
macro_rules! copied {
    ($alloc:expr, $source:expr, $name:ident { $($field:ident),* $(,)? }) => {{
        let $crate::row!($($field),*) = $crate::copy_all($alloc, $crate::row!($(&$source.$field),*))?;
        Ok($name { $($field),* })
    }};
}
