// The subcommand `check`: whether a recorded chain holds.
ghost use Rattle.std.specs.Prelude.{◌≡◌, IfOk, IfSome};
ghost use Rattle.recorded_case.specs.Case.{IsReady};
ghost use Rattle.locked_cases.specs.ChainInput.{chain_input_in};
ghost use Rattle.pull_run.specs.Check.{PrintsVerdict, verdict};

use crate::task::Task;
use json_tables::may_have_only;
use json_values::Blob;
use locked_cases::{ChainInput, chain_holds, read_chain_input};
use pulled_cases::Report;
use std::alloc::{AllocError, Global};

// The members of the input.
const NAMES: &[&str] = &["case", "chain"];

impl Task for ChainInput {
    ghost reads = { chain_input_in };

    ghost Valid = { λ input. IsReady input.case };

    ghost Gives = { PrintsVerdict };

    fn read(alloc: Global, bytes: &[u8]) -> Result<Option<ChainInput>, AllocError>
        ensures exact { IfOk result (λ found. found ≡ chain_input_in bytes.now) }
        ensures valid { IfOk result (λ found. IfSome found (λ input. IsReady input.case)) }
    {
        let may = may_have_only(alloc, bytes, NAMES)?;
        if !may {
            return Ok(None);
        }
        read_chain_input(alloc, bytes)
    }

    fn make(self, alloc: Global) -> Result<Report, AllocError> {
        check_chain(alloc, self)
    }
}

/// Checks the chain in the input, and returns a line that says whether it holds.
pub fn check_chain(alloc: Global, input: ChainInput) -> Result<Report, AllocError>
    requires { IsReady input.case }
    ensures { IfOk result (PrintsVerdict input) }
{
    let holds = chain_holds(alloc, input)?;
    let report = verdict(alloc, !holds)?;
    Ok(report)
}

fn verdict(alloc: Global, refused: bool) -> Result<Report, AllocError>
    ensures { IfOk result (λ made. made ≡ record { bytes = verdict refused; refused = refused }) }
{
    let line: &[u8] = if refused {
        b"chain fails\n"
    } else {
        b"chain holds\n"
    };
    let bytes = Blob::new(alloc, line)?;
    Ok(Report { bytes, refused })
}
