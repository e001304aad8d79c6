// A case without an entry.
ghost use Rattle.std.specs.Prelude.{◌≡◌, ◌∷◌, ◌++◌, [], OnOk};
ghost use Rattle.json_values.specs.Canon.{quoted_text};
ghost use Rattle.pull_report.specs.Words.{spaced};

use cosign_client::PullRefusal;
use json_values::{Blob, Text};
use pull_report::Printed;
use std::alloc::{AllocError, Global};

/// Why an image has no entry.
#[derive(Drop)]
pub enum Cause {
    /// A document of it, or its signature layer, is not UTF-8.
    NotText,
    /// Its pull was refused.
    Pull(PullRefusal),
}

/// An image without an entry.
#[derive(Drop)]
pub struct Refused {
    /// The whole text of its reference.
    pub image: Text,
    pub cause: Cause,
}

impl Printed for Cause {
    ghost use Rattle.locked_cases.specs.Locks.{cause_print};

    ghost print = { cause_print };

    fn write_print(&self, alloc: Global, out: &mut Blob) -> Result<(), AllocError> {
        match self {
            Cause::NotText => out.append(b"NotText"),
            Cause::Pull(refusal) => refusal.write_print(alloc, out),
        }
    }
}

impl Printed for Refused {
    ghost use Rattle.locked_cases.specs.Locks.{refused_print};

    ghost print = { refused_print };

    fn write_print(&self, alloc: Global, out: &mut Blob) -> Result<(), AllocError> {
        self.image.write_print(alloc, out)?;
        out.append(b" ")?;
        self.cause.write_print(alloc, out)?;
        Ok(())
    }
}
