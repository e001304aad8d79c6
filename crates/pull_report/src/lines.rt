// Lines of a report: words separated by single spaces, ended by a line feed.
ghost use Rattle.std.specs.Prelude.{◌≡◌, [], ◌∷◌, ◌++◌, OnOk, flat_map};
ghost use Rattle.pull_report.specs.Words.{line};
ghost use Rattle.pull_report.specs.Lines.{method_name};

use crate::printed::{Printed, print_row, word};
use json_values::{Blob, row};
use oci_transport::{Exchange, Method};
use std::alloc::{AllocError, Global};

/// A value with a line of its own in a report. If memory runs out, the bytes appended for it are unspecified.
pub trait Line {
    ghost use Rattle.std.specs.Prelude.{ℕ, List};

    /// The line's bytes.
    ghost line: { Self → List ℕ };

    /// Appends the line.
    fn write_line(&self, alloc: Global, out: &mut Blob) -> Result<(), AllocError>
        ensures { OnOk result (out.new ≡ out.old ++ line self.now) };
}

/// Appends a line with a label and a text verbatim.
pub fn text_line(out: &mut Blob, label: &str, text: &str) -> Result<(), AllocError>
    ensures { OnOk result (out.new ≡ out.old ++ line (label.now ∷ text.now ∷ [])) }
{
    word(out, label)?;
    word(out, " ")?;
    word(out, text)?;
    word(out, "\n")?;
    Ok(())
}

/// Appends a line with a label and a print.
pub fn print_line<A: Printed>(
    alloc: Global,
    out: &mut Blob,
    label: &str,
    value: &A,
) -> Result<(), AllocError>
    ensures { OnOk result (out.new ≡ out.old ++ line (label.now ∷ A.print value.now ∷ [])) }
{
    print_row(alloc, out, label, row![value])?;
    word(out, "\n")?;
    Ok(())
}

/// Appends the line of each item, in order.
pub fn write_lines<L: Line>(alloc: Global, out: &mut Blob, items: &[L]) -> Result<(), AllocError>
    ensures { OnOk result (out.new ≡ out.old ++ flat_map L.line items.now) }
{
    for item in items {
        item.write_line(alloc, out)?;
    }
    Ok(())
}

fn method_name(method: Method) -> &'static str
    ensures { result.now ≡ method_name method }
{
    match method {
        Method::Get => "GET",
        Method::Head => "HEAD",
        Method::Post => "POST",
        Method::Put => "PUT",
        Method::Patch => "PATCH",
    }
}

impl Line for Exchange {
    ghost use Rattle.pull_report.specs.Lines.{exchange_line};

    ghost line = { exchange_line };

    fn write_line(&self, _alloc: Global, out: &mut Blob) -> Result<(), AllocError> {
        text_line(
            out,
            method_name(self.request.method),
            self.request.url.as_str(),
        )
    }
}
