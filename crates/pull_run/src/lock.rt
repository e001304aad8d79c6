// The subcommands `lock` and `lockcheck`: the lock file of the images of recorded cases, and whether one holds.
ghost use Rattle.std.specs.Prelude.{◌≡◌, IfOk, IfSome};
ghost use Rattle.recorded_case.specs.Case.{IsReady};
ghost use Rattle.locked_cases.specs.Checks.{ChecksLock};
ghost use Rattle.locked_cases.specs.Input.{cases_in, check_in, AreReady};
ghost use Rattle.locked_cases.specs.Locks.{LocksCases};

use crate::task::Task;
use json_tables::may_have_only;
use locked_cases::{
    CheckInput, LockInput, check_input, lock_cases, read_check_input, read_lock_input,
};
use pulled_cases::Report;
use std::alloc::{AllocError, Global};

// The members of the input of `lockcheck`.
const NAMES: &[&str] = &["case", "lock"];

impl Task for LockInput {
    ghost reads = { cases_in };

    ghost Valid = { AreReady };

    ghost Gives = { LocksCases };

    fn read(alloc: Global, bytes: &[u8]) -> Result<Option<LockInput>, AllocError>
        ensures exact { IfOk result (λ found. found ≡ cases_in bytes.now) }
        ensures valid { IfOk result (λ found. IfSome found AreReady) }
    {
        read_lock_input(alloc, bytes)
    }

    fn make(self, alloc: Global) -> Result<Report, AllocError> {
        lock_cases(alloc, self)
    }
}

impl Task for CheckInput {
    ghost reads = { check_in };

    ghost Valid = { λ input. IsReady input.case };

    ghost Gives = { ChecksLock };

    fn read(alloc: Global, bytes: &[u8]) -> Result<Option<CheckInput>, AllocError>
        ensures exact { IfOk result (λ found. found ≡ check_in bytes.now) }
        ensures valid { IfOk result (λ found. IfSome found (λ input. IsReady input.case)) }
    {
        let may = may_have_only(alloc, bytes, NAMES)?;
        if !may {
            return Ok(None);
        }
        read_check_input(alloc, bytes)
    }

    fn make(self, alloc: Global) -> Result<Report, AllocError> {
        check_input(alloc, self)
    }
}
