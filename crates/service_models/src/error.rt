ghost use Rattle.std.specs.Prelude.{◌≡◌, IfOk, Ok, None};
ghost use Rattle.serde_json.specs.View.{view};
ghost use Rattle.service_models.specs.ModelError.{ReadsModel};

use crate::model_error::{ModelError, read_model};
use crate::whole::whole;
use json_tables::{ReadError, Reads, Writes, object, read_row};
use json_values::{Copied, Text, ToValue, copied, row};
use serde_json::Value;
use std::alloc::{AllocError, Global};

/// The error body of Rekor (its API, `Error`).
#[derive(Debug, Drop)]
pub struct Error {
    pub code: Option<i32>,
    pub message: Option<Text>,
}

impl Error {
    ghost use Rattle.service_models.specs.Error.{error_of};

    /// Returns an error without code and message.
    pub fn new() -> Error
        ensures { result ≡ record { code = None; message = None } }
    {
        Error {
            code: None,
            message: None,
        }
    }

    /// Reads an error. Returns `Float` if and only if it contains a float, otherwise `Shape` if it does not match.
    pub fn read(alloc: Global, value: &Value) -> Result<Error, ModelError>
        ensures { ReadsModel result error_of (view value.now) }
    {
        read_model(alloc, value)
    }
}

impl Reads for Error {
    ghost use Rattle.service_models.specs.Error.{error_of};

    ghost reading = { error_of };

    #[tactic(auto, unfolding(crate::specs::Error::error_of))]
    fn read_value(alloc: Global, value: &Value) -> Result<Error, ReadError> {
        let row![code, message] = read_row::<Self, _>(alloc, value, &["code", "message"])?;
        Ok(Error { code, message })
    }
}

impl Writes for Error {
    ghost use Rattle.service_models.specs.Error.{error_written};

    ghost written = { error_written };

    #[tactic(auto, unfolding(crate::specs::Error::error_written))]
    fn write_value(&self, alloc: Global) -> Result<Value, AllocError> {
        let value = object!(alloc, {
            "code": &whole(&self.code),
            "message": &self.message,
        })?;
        Ok(value)
    }
}

impl ToValue for Error {
    ghost use Rattle.service_models.specs.Error.{error_of, error_written};

    ghost written = { error_written };

    /// Writes the error without its members that are `None`. The result round-trips.
    #[tactic(auto, using(json_tables::proofs::Whole::document_again))]
    fn to_value(&self, alloc: Global) -> Result<Value, AllocError>
        ensures exact { IfOk result (λ v. view v ≡ error_written self.now) }
        ensures reads_back { IfOk result (λ v. ReadsModel (Ok self.now) error_of (view v)) }
    {
        let value = self.write_value(alloc)?;
        Ok(value)
    }
}

impl Copied for Error {
    fn copy(&self, alloc: Global) -> Result<Error, AllocError> {
        copied!(alloc, self, Error { code, message })
    }
}
