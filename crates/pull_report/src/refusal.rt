// The print of a pull's error.
use crate::printed::{Printed, print_row, word};
use cosign_rows::PullRefusal;
use json_values::{Blob, row};
use std::alloc::{AllocError, Global};

impl Printed for PullRefusal {
    ghost use Rattle.pull_report.specs.Prints.{refusal_print};

    ghost print = { refusal_print };

    fn write_print(&self, alloc: Global, out: &mut Blob) -> Result<(), AllocError> {
        match self {
            Self::EmptyPolicy => word(out, "EmptyPolicy"),
            Self::OciReferenceNotValidError { reference } => {
                print_row(alloc, out, "OciReferenceNotValidError", row![reference])
            }
            Self::RegistryFetchManifestError { image, error } => {
                print_row(alloc, out, "RegistryFetchManifestError", row![image, error])
            }
            Self::RegistryPullError { image, error } => {
                print_row(alloc, out, "RegistryPullError", row![image, error])
            }
            Self::Unsatisfied { digest, .. } => print_row(alloc, out, "Unsatisfied", row![digest]),
            Self::WantOfMemory => word(out, "WantOfMemory"),
        }
    }
}
