// Prints: a variant's name, then the values that it holds, each after one space.
ghost use Rattle.std.specs.Prelude.{◌≡◌, [], ◌∷◌, ◌++◌, OnOk};
ghost use Rattle.pull_report.specs.Words.{spaced, behind_spaces};

use json_values::Blob;
use std::alloc::{AllocError, Global};

/// A value with a print. If memory runs out, the bytes appended for it are unspecified.
pub trait Printed {
    ghost use Rattle.std.specs.Prelude.{ℕ, List};

    /// The print's bytes.
    ghost print: { Self → List ℕ };

    /// Appends the print.
    fn write_print(&self, alloc: Global, out: &mut Blob) -> Result<(), AllocError>
        ensures { OnOk result (out.new ≡ out.old ++ print self.now) };
}

/// Appends a word verbatim.
pub fn word(out: &mut Blob, text: &str) -> Result<(), AllocError>
    ensures { OnOk result (out.new ≡ out.old ++ text.now) }
{
    out.append(text.as_bytes())
}

/// Values in a row: none, or a reference to a value with a print and the rest of the row. `row!` writes a row of any
/// length. If memory runs out, the bytes appended for their prints are unspecified.
pub trait PrintedRow {
    ghost use Rattle.std.specs.Prelude.{ℕ, List};

    /// The print of each value.
    ghost prints: { Self → List (List ℕ) };

    /// Appends each print after one space.
    fn write_prints(self, alloc: Global, out: &mut Blob) -> Result<(), AllocError>
        ensures { OnOk result (out.new ≡ out.old ++ behind_spaces (prints self)) };
}

impl PrintedRow for () {
    ghost prints = { λ _. [] };

    fn write_prints(self, _alloc: Global, _out: &mut Blob) -> Result<(), AllocError> {
        Ok(())
    }
}

impl<'a, A: Printed, B: PrintedRow + Drop> PrintedRow for (&'a A, B) {
    ghost prints = { λ row. A.print row.0.now ∷ B.prints row.1 };

    fn write_prints(self, alloc: Global, out: &mut Blob) -> Result<(), AllocError> {
        let (first, others) = self;
        word(out, " ")?;
        first.write_print(alloc, out)?;
        others.write_prints(alloc, out)?;
        Ok(())
    }
}

/// Appends the print of a variant: its name, then the values that it holds.
pub fn print_row<R: PrintedRow + Drop>(
    alloc: Global,
    out: &mut Blob,
    name: &str,
    kept: R,
) -> Result<(), AllocError>
    ensures { OnOk result (out.new ≡ out.old ++ spaced (name.now ∷ R.prints kept)) }
{
    word(out, name)?;
    kept.write_prints(alloc, out)?;
    Ok(())
}
