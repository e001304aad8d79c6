// Prints of the values that variants hold.
ghost use Rattle.std.specs.Prelude.{◌≡◌, ◌++◌, OnOk, decimal};

use crate::printed::{Printed, word};
use json_values::{Blob, Text, write_decimal, write_quoted};
use oci_errors::OciEnvelope;
use std::alloc::{AllocError, Global};

/// Appends a number in decimal.
pub fn write_number(alloc: Global, out: &mut Blob, number: u64) -> Result<(), AllocError>
    ensures { OnOk result (out.new ≡ out.old ++ decimal number) }
{
    let digits = write_decimal(alloc, number)?;
    word(out, digits.as_str())?;
    Ok(())
}

impl Printed for u16 {
    ghost use Rattle.std.specs.Prelude.{decimal};

    ghost print = { decimal };

    fn write_print(&self, alloc: Global, out: &mut Blob) -> Result<(), AllocError> {
        write_number(alloc, out, u64::from(*self))
    }
}

impl Printed for i32 {
    ghost use Rattle.std.specs.Fmt.{signed_decimal};

    ghost print = { signed_decimal };

    fn write_print(&self, alloc: Global, out: &mut Blob) -> Result<(), AllocError> {
        let number = *self;
        let digits = format!(in alloc; "{number}")?;
        word(out, digits.as_str())?;
        Ok(())
    }
}

impl Printed for Text {
    ghost use Rattle.json_values.specs.Canon.{quoted_text};

    ghost print = { quoted_text };

    fn write_print(&self, alloc: Global, out: &mut Blob) -> Result<(), AllocError> {
        let quoted = write_quoted(alloc, self.as_str())?;
        word(out, quoted.as_str())?;
        Ok(())
    }
}

impl Printed for Blob {
    ghost use Rattle.pull_report.specs.Prints.{bytes_print};

    ghost print = { bytes_print };

    fn write_print(&self, alloc: Global, out: &mut Blob) -> Result<(), AllocError> {
        write_number(alloc, out, self.as_slice().len() as u64)
    }
}

impl Printed for OciEnvelope {
    ghost use Rattle.pull_report.specs.Prints.{envelope_print};

    ghost print = { envelope_print };

    fn write_print(&self, alloc: Global, out: &mut Blob) -> Result<(), AllocError> {
        write_number(alloc, out, self.errors.as_slice().len() as u64)
    }
}
