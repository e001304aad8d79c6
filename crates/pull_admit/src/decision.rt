// The decision about an image.
ghost use Rattle.std.specs.Prelude.{◌≡◌, ◌++◌, OnOk};
ghost use Rattle.pull_admit.specs.Responses.{cause_print};
ghost use Rattle.pull_admit.specs.declared.decision.DenyCause.TheVariants.{NotAReference};

use cosign_chain::VerifiedImage;
use cosign_rows::PullRefusal;
use json_values::{Blob, Text};
use pull_report::Printed;
use std::alloc::{AllocError, Global};

/// Whether an image may run.
#[derive(Drop)]
pub enum Decision {
    /// The image was pulled: a signature that the policy accepts stands for it.
    Allow(VerifiedImage),
    Deny(DenyCause),
}

/// Why an image may not run.
#[derive(Drop)]
pub enum DenyCause {
    /// This text is not a reference. No request was sent.
    NotAReference(Text),
    /// The image was not pulled; never because memory ran out.
    Refused(PullRefusal),
}

fn word(out: &mut Blob, text: &str) -> Result<(), AllocError>
    ensures { OnOk result (out.new ≡ out.old ++ text.now) }
{
    out.append(text.as_bytes())
}

// Appends the print of a string that is not a reference.
fn print_unread(alloc: Global, out: &mut Blob, text: &Text) -> Result<(), AllocError>
    ensures { OnOk result (out.new ≡ out.old ++ cause_print (NotAReference text.now)) }
{
    word(out, "NotAReference")?;
    word(out, " ")?;
    text.write_print(alloc, out)?;
    Ok(())
}

impl Printed for DenyCause {
    ghost use Rattle.pull_admit.specs.Responses.{cause_print};

    ghost print = { cause_print };

    fn write_print(&self, alloc: Global, out: &mut Blob) -> Result<(), AllocError> {
        match self {
            Self::NotAReference(text) => print_unread(alloc, out, text),
            Self::Refused(refusal) => refusal.write_print(alloc, out),
        }
    }
}
