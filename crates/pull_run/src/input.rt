// Reading and parsing the input.
ghost use Rattle.std.specs.Prelude.{IfOk};
ghost use Rattle.pull_run.specs.Input.{ReadsInput};

use crate::status::Status;
use crate::task::Task;
use byte_streams::{INPUT_LIMIT, Source, read_all};
use std::alloc::Global;

/// Reads the input to its end, and parses it.
pub fn read_input<T: Task + Drop, S: Source>(alloc: Global, source: &mut S) -> Result<T, Status>
    ensures reads { ReadsInput T.reads result (S.state source.old) (S.state source.new) }
    ensures valid { IfOk result T.Valid }
{
    let bytes = read_all(alloc, source, INPUT_LIMIT)?;
    let Some(input) = T::read(alloc, bytes.as_slice())? else {
        return Err(Status::UnreadableInput);
    };
    Ok(input)
}
