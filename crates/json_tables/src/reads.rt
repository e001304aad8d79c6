ghost use Rattle.std.specs.Prelude.{Option};
ghost use Rattle.serde_json.specs.Data.{Data};
ghost use Rattle.serde_json.specs.View.{view};
ghost use Rattle.json_tables.specs.Outcomes.{ReadsTo};

use crate::error::ReadError;
use serde_json::Value;
use std::alloc::Global;

/// A type that is read from JSON values.
pub trait Reads: Sized {
    /// What is read from a value.
    ghost reading: { Data → Option Self };

    /// Returns `Shape` if and only if the value does not match.
    fn read_value(alloc: Global, value: &Value) -> Result<Self, ReadError>
        ensures { ReadsTo result (reading (view value.now)) };
}
