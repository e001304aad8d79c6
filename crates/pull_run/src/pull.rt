// The subcommand `pull`: the pulls of a recorded case.
ghost use Rattle.std.specs.Prelude.{◌≡◌, IfOk, IfSome};
ghost use Rattle.recorded_case.specs.Case.{case_in, IsReady};
ghost use Rattle.pulled_cases.specs.Pulls.{ReportsCase};

use crate::task::Task;
use json_tables::may_have_only;
use pulled_cases::{Report, pull_case};
use recorded_case::{Case, read_case};
use std::alloc::{AllocError, Global};

// The members of a case.
const NAMES: &[&str] = &[
    "reference",
    "protocol",
    "auth",
    "accepted",
    "platform",
    "caching",
    "moments",
    "limit",
    "keys",
    "constraints",
    "log_keys",
    "signatures",
    "vouched",
    "answers",
    "shelf",
];

impl Task for Case {
    ghost reads = { case_in };

    ghost Valid = { IsReady };

    ghost Gives = { ReportsCase };

    fn read(alloc: Global, bytes: &[u8]) -> Result<Option<Case>, AllocError>
        ensures exact { IfOk result (λ found. found ≡ case_in bytes.now) }
        ensures valid { IfOk result (λ found. IfSome found IsReady) }
    {
        let may = may_have_only(alloc, bytes, NAMES)?;
        if !may {
            return Ok(None);
        }
        read_case(alloc, bytes)
    }

    fn make(self, alloc: Global) -> Result<Report, AllocError> {
        pull_case(alloc, self)
    }
}
