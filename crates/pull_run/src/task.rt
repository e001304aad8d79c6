// The task of a subcommand.
ghost use Rattle.std.specs.Prelude.{◌≡◌, ℕ, List, Option, IfOk, IfSome};
ghost use Rattle.pulled_cases.specs.declared.report.Report.{Report};

use pulled_cases::Report;
use std::alloc::{AllocError, Global};

/// What a subcommand parses its input as, and its output for it.
pub trait Task: Sized {
    /// What the input parses as.
    ghost reads: { List ℕ → Option Self };

    /// A property of everything that was parsed.
    ghost Valid: { Self → Type 0 };

    /// The output for it.
    ghost Gives: { Self → Report → Type 0 };

    /// Parses the input. Returns `None` if and only if the bytes do not parse.
    fn read(alloc: Global, bytes: &[u8]) -> Result<Option<Self>, AllocError>
        ensures exact { IfOk result (λ found. found ≡ reads bytes.now) }
        ensures valid { IfOk result (λ found. IfSome found Valid) };

    /// Computes the output.
    fn make(self, alloc: Global) -> Result<Report, AllocError>
        requires { Valid self }
        ensures { IfOk result (λ made. Gives self made) };
}
