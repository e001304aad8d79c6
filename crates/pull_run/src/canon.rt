// The subcommand `canon`: the canonical text of the JSON in the input.
ghost use Rattle.std.specs.Prelude.{◌≡◌, true, IfOk, ⊤};
ghost use Rattle.json_values.specs.JsonText.{json_of};
ghost use Rattle.pull_run.specs.Canon.{PrintsValue};

use crate::task::Task;
use json_canon::{CanonError, json_to_vec};
use json_values::{Blob, Json, read_json};
use pulled_cases::Report;
use std::alloc::{AllocError, Global};

impl Task for Json {
    ghost reads = { json_of };

    ghost Valid = { λ _. ⊤ };

    ghost Gives = { PrintsValue };

    fn read(alloc: Global, bytes: &[u8]) -> Result<Option<Json>, AllocError> {
        read_json(alloc, bytes)
    }

    fn make(self, alloc: Global) -> Result<Report, AllocError> {
        canon_line(alloc, &self)
    }
}

/// Returns a line with the value's canonical text, or with why it has none.
pub fn canon_line(alloc: Global, value: &Json) -> Result<Report, AllocError>
    ensures { IfOk result (PrintsValue value.now) }
{
    match json_to_vec(alloc, value) {
        Ok(text) => {
            let mut bytes = text;
            bytes.append(b"\n")?;
            Ok(Report {
                bytes,
                refused: false,
            })
        }
        Err(CanonError::Float) => refusal(alloc, b"refused Float\n"),
        Err(CanonError::IntegerOutOfRange) => refusal(alloc, b"refused IntegerOutOfRange\n"),
        Err(_) => Err(AllocError),
    }
}

fn refusal(alloc: Global, line: &[u8]) -> Result<Report, AllocError>
    ensures { IfOk result (λ r. r ≡ record { bytes = line.now; refused = true }) }
{
    let bytes = Blob::new(alloc, line)?;
    Ok(Report {
        bytes,
        refused: true,
    })
}
