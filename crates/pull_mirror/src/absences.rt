// Why documents were not copied.
ghost use Rattle.std.specs.Prelude.{◌≡◌, ◌++◌, Err, OnOk};
ghost use Rattle.pull_mirror.specs.Asked.{IsAbout, of_push, there_of};
ghost use Rattle.pull_mirror.specs.Absences.{missing_print};

use crate::refusals::{PushRefusal, print_push, word};
use engine_terms::OciDistributionError;
use json_values::{Blob, Text};
use pull_report::Printed;
use std::alloc::{AllocError, Global};
use thiserror::Error;

/// Why the documents of an image were not copied.
#[derive(Debug, Drop, Error)]
pub enum DocumentsRefusal {
    /// The target does not have the blob of this digest. No document was pushed.
    #[error("a blob of the image is missing at the target: push the blobs first")]
    Missing {
        digest: Text,
    },
    /// The question about the blob of this digest, or the push of this digest, was refused; those before it were not.
    #[error("a part of the image was not copied: read the error of the registry's client")]
    Refused {
        digest: Text,
        error: OciDistributionError,
    },
    /// The allocator had no memory.
    #[error("out of memory: free some and try again")]
    WantOfMemory,
}

impl From<AllocError> for DocumentsRefusal {
    ghost use Rattle.std.specs.Prelude.{◌≡◌};
    ghost use Rattle.pull_mirror.specs.declared.absences.DocumentsRefusal.TheVariants.{WantOfMemory};

    ghost from_gives = { λ _ e. e ≡ WantOfMemory };

    fn from(_: AllocError) -> Self {
        DocumentsRefusal::WantOfMemory
    }
}

// The refusal of the question about this digest, unless memory ran out.
pub(crate) fn question_refusal(digest: Text, error: OciDistributionError) -> DocumentsRefusal
    ensures shown { there_of (Err result) ≡ Err error }
    ensures about { IsAbout digest result }
{
    if error.is_memory() {
        return DocumentsRefusal::WantOfMemory;
    }
    DocumentsRefusal::Refused { digest, error }
}

// The refusal of a push.
pub(crate) fn of_push(refusal: PushRefusal) -> DocumentsRefusal
    ensures { result ≡ of_push refusal }
{
    match refusal {
        PushRefusal::Refused { digest, error } => DocumentsRefusal::Refused { digest, error },
        PushRefusal::WantOfMemory => DocumentsRefusal::WantOfMemory,
    }
}

fn print_missing(alloc: Global, out: &mut Blob, digest: &Text) -> Result<(), AllocError>
    ensures { OnOk result (out.new ≡ out.old ++ missing_print digest.now) }
{
    word(out, "Missing ")?;
    digest.write_print(alloc, out)?;
    Ok(())
}

impl Printed for DocumentsRefusal {
    ghost use Rattle.pull_mirror.specs.Absences.{documents_print};

    ghost print = { documents_print };

    fn write_print(&self, alloc: Global, out: &mut Blob) -> Result<(), AllocError> {
        match self {
            DocumentsRefusal::Missing { digest } => print_missing(alloc, out, digest),
            DocumentsRefusal::Refused { digest, error } => print_push(alloc, out, digest, error),
            DocumentsRefusal::WantOfMemory => word(out, "WantOfMemory"),
        }
    }
}
