// The subcommand `mirror`: an image that is pulled from one registry and pushed to another.
ghost use Rattle.std.specs.Prelude.{◌≡◌, IfOk, IfSome};
ghost use Rattle.pull_run.specs.MirrorInput.{IsForMirror, mirror_input_in};
ghost use Rattle.pull_run.specs.Reports.{ReportsMirror};

use crate::task::Task;
use crate::{MirrorInput, mirror_case, read_mirror_input};
use json_tables::may_have_only;
use pulled_cases::Report;
use std::alloc::{AllocError, Global};

// The members of the input.
const NAMES: &[&str] = &["case", "target"];

impl Task for MirrorInput {
    ghost reads = { mirror_input_in };

    ghost Valid = { IsForMirror };

    ghost Gives = { ReportsMirror };

    fn read(alloc: Global, bytes: &[u8]) -> Result<Option<MirrorInput>, AllocError>
        ensures exact { IfOk result (λ found. found ≡ mirror_input_in bytes.now) }
        ensures valid { IfOk result (λ found. IfSome found IsForMirror) }
    {
        let may = may_have_only(alloc, bytes, NAMES)?;
        if !may {
            return Ok(None);
        }
        read_mirror_input(alloc, bytes)
    }

    fn make(self, alloc: Global) -> Result<Report, AllocError> {
        mirror_case(alloc, self)
    }
}
