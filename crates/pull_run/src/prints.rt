// The lines of a mirror.
ghost use Rattle.std.specs.Prelude.{◌≡◌, ◌∷◌, ◌++◌, [], OnOk, flat_map};
ghost use Rattle.pull_report.specs.Words.{line};
ghost use Rattle.pull_run.specs.Lines.{pushed_line};

use engine_terms::OciDistributionError;
use json_values::{Blob, Text};
use pull_report::{Printed, text_line};
use std::alloc::{AllocError, Global};

/// A target that is refused before anything is requested.
#[derive(Drop)]
pub struct RefusedTarget {
    /// Its whole text.
    pub reference: Text,
}

impl Printed for RefusedTarget {
    ghost use Rattle.pull_run.specs.Lines.{refused_target_print};

    ghost print = { refused_target_print };

    fn write_print(&self, alloc: Global, out: &mut Blob) -> Result<(), AllocError> {
        out.append(b"Target ")?;
        self.reference.write_print(alloc, out)
    }
}

/// A refused push.
#[derive(Drop)]
pub struct RefusedPush {
    /// The digest of what was pushed.
    pub digest: Text,
    pub error: OciDistributionError,
}

impl Printed for RefusedPush {
    ghost use Rattle.pull_run.specs.Lines.{refused_push_print};

    ghost print = { refused_push_print };

    fn write_print(&self, alloc: Global, out: &mut Blob) -> Result<(), AllocError> {
        out.append(b"Push ")?;
        self.digest.write_print(alloc, out)?;
        out.append(b" ")?;
        self.error.write_print(alloc, out)
    }
}

// The line of each digest that was pushed.
pub(crate) fn write_pushed(out: &mut Blob, pushed: &[Text]) -> Result<(), AllocError>
    ensures { OnOk result (out.new ≡ out.old ++ flat_map pushed_line pushed.now) }
{
    for digest in pushed {
        text_line(out, "pushed", digest.as_str())?;
    }
    Ok(())
}
