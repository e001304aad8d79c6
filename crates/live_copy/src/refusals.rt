// Why documents may not be pushed under a target's tags.
ghost use Rattle.std.specs.Prelude.{◌≡◌, ◌++◌, OnOk};
ghost use Rattle.live_copy.specs.Prints.{tag_print, taken_print};

use engine_terms::OciDistributionError;
use json_values::{Blob, Text};
use pull_report::Printed;
use std::alloc::{AllocError, Global};
use thiserror::Error;

/// Why documents may not be pushed under a target's tags.
#[derive(Debug, Drop, Error)]
pub enum TargetRefusal {
    /// The tag names this digest, which is not that of what would be pushed under it.
    #[error("a tag of the target names another digest: choose another tag, or allow its replacement")]
    Taken {
        reference: Text,
        digest: Text,
    },
    /// The question what the tag names was refused.
    #[error("a tag of the target was not read: read the error of the registry's client")]
    Unread {
        reference: Text,
        error: OciDistributionError,
    },
    /// The allocator had no memory.
    #[error("out of memory: free some and try again")]
    WantOfMemory,
}

impl From<AllocError> for TargetRefusal {
    ghost use Rattle.std.specs.Prelude.{◌≡◌};
    ghost use Rattle.live_copy.specs.declared.refusals.TargetRefusal.TheVariants.{WantOfMemory};

    ghost from_gives = { λ _ e. e ≡ WantOfMemory };

    fn from(_: AllocError) -> Self {
        TargetRefusal::WantOfMemory
    }
}

fn word(out: &mut Blob, text: &str) -> Result<(), AllocError>
    ensures { OnOk result (out.new ≡ out.old ++ text.now) }
{
    out.append(text.as_bytes())
}

fn print_taken(
    alloc: Global,
    out: &mut Blob,
    reference: &Text,
    digest: &Text,
) -> Result<(), AllocError>
    ensures { OnOk result (out.new ≡ out.old ++ taken_print reference.now digest.now) }
{
    word(out, "Taken ")?;
    reference.write_print(alloc, out)?;
    word(out, " ")?;
    digest.write_print(alloc, out)?;
    Ok(())
}

fn print_tag(
    alloc: Global,
    out: &mut Blob,
    reference: &Text,
    error: &OciDistributionError,
) -> Result<(), AllocError>
    ensures { OnOk result (out.new ≡ out.old ++ tag_print reference.now error.now) }
{
    word(out, "Tag ")?;
    reference.write_print(alloc, out)?;
    word(out, " ")?;
    error.write_print(alloc, out)?;
    Ok(())
}

impl Printed for TargetRefusal {
    ghost use Rattle.live_copy.specs.Prints.{target_print};

    ghost print = { target_print };

    fn write_print(&self, alloc: Global, out: &mut Blob) -> Result<(), AllocError> {
        match self {
            TargetRefusal::Taken { reference, digest } => {
                print_taken(alloc, out, reference, digest)
            }
            TargetRefusal::Unread { reference, error } => print_tag(alloc, out, reference, error),
            TargetRefusal::WantOfMemory => word(out, "WantOfMemory"),
        }
    }
}
