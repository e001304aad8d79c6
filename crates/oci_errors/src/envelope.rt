ghost use Rattle.std.specs.Prelude.{◌≡◌, option_map, IfOk, Ok, false};
ghost use Rattle.serde_json.specs.View.{view};
ghost use Rattle.json_tables.specs.Outcomes.{ReadsTo, ReadsDocument};
ghost use Rattle.oci_errors.specs.Envelope.{text_or_empty};

use crate::error_code::OciErrorCode;
use json_tables::{ReadError, Reads, Required, Writes, object, or_null, read_document, required};
use json_values::{Copied, Json, List, Text, ToValue, copied};
use serde_json::Value;
use std::alloc::{AllocError, Global};

/// An error of a registry.
#[derive(Debug, Drop)]
pub struct OciError {
    pub code: OciErrorCode,
    /// Empty if the registry sent none.
    pub message: Text,
    /// Any JSON value; null if the registry sent none.
    pub detail: Json,
}

/// The error body of a registry (OCI distribution specification, "Error Codes").
#[derive(Debug, Drop)]
pub struct OciEnvelope {
    pub errors: List<OciError>,
}

impl OciError {
    ghost use Rattle.oci_errors.specs.Envelope.{error_of};

    /// Reads an error. Returns `Float` if and only if it contains a float, otherwise `Shape` if it does not match.
    pub fn read(alloc: Global, value: &Value) -> Result<OciError, ReadError>
        ensures { ReadsDocument result error_of (view value.now) }
    {
        read_document(alloc, value)
    }
}

impl OciEnvelope {
    ghost use Rattle.oci_errors.specs.Envelope.{envelope_of};

    /// Reads an envelope. Returns `Float` if and only if it contains a float, otherwise `Shape` if it does not match.
    pub fn read(alloc: Global, value: &Value) -> Result<OciEnvelope, ReadError>
        ensures { ReadsDocument result envelope_of (view value.now) }
    {
        read_document(alloc, value)
    }
}

fn text_or_empty(alloc: Global, member: Option<&Value>) -> Result<Text, ReadError>
    ensures { ReadsTo result (text_or_empty (option_map (λ v. view v.now) member.entry)) }
{
    match member {
        Some(value) => Text::read_value(alloc, value),
        None => Ok(Text::new(alloc, "")?),
    }
}

impl Reads for OciError {
    ghost use Rattle.oci_errors.specs.Envelope.{error_of};

    ghost reading = { error_of };

    #[tactic(auto, unfolding(crate::specs::Envelope::error_of))]
    fn read_value(alloc: Global, value: &Value) -> Result<OciError, ReadError> {
        let code = required(alloc, value, "code")?;
        let message = text_or_empty(alloc, value.get("message"))?;
        let detail = or_null(value.get("detail"))?;
        Ok(OciError {
            code,
            message,
            detail,
        })
    }
}

impl Reads for OciEnvelope {
    ghost use Rattle.oci_errors.specs.Envelope.{envelope_of};

    ghost reading = { envelope_of };

    #[tactic(auto, unfolding(crate::specs::Envelope::envelope_of))]
    fn read_value(alloc: Global, value: &Value) -> Result<OciEnvelope, ReadError> {
        let errors = required(alloc, value, "errors")?;
        Ok(OciEnvelope { errors })
    }
}

impl Writes for OciError {
    ghost use Rattle.oci_errors.specs.Envelope.{error_written, normal_error, detail_has_float};

    ghost written = { error_written };

    ghost normal = { normal_error };

    ghost floats = { detail_has_float };

    #[tactic(auto, unfolding(crate::specs::Envelope::error_written))]
    fn write_value(&self, alloc: Global) -> Result<Value, AllocError> {
        let value = object!(alloc, {
            "code": &Required(&self.code),
            "message": &self.message,
            "detail": &self.detail,
        })?;
        Ok(value)
    }
}

impl ToValue for OciError {
    ghost use Rattle.oci_errors.specs.Envelope.{error_of, error_written, normal_error, detail_has_float};

    ghost written = { error_written };

    /// Writes the error. If its detail contains no float, the result round-trips, with the normal form of its code.
    #[tactic(auto, using(json_tables::proofs::Whole::document_again))]
    fn to_value(&self, alloc: Global) -> Result<Value, AllocError>
        ensures exact { IfOk result (λ v. view v ≡ error_written self.now) }
        ensures reads_back { IfOk result (λ v. detail_has_float self.now ≡ false
            → ReadsDocument (Ok (normal_error self.now)) error_of (view v)) }
    {
        let value = self.write_value(alloc)?;
        Ok(value)
    }
}

impl ToValue for OciEnvelope {
    ghost use Rattle.oci_errors.specs.Envelope.{envelope_of, envelope_written, normal_envelope, details_have_float};

    ghost written = { envelope_written };

    /// Writes the envelope. If no detail contains a float, the result round-trips, with the normal forms of its codes.
    #[tactic(auto, unfolding(crate::specs::Envelope::envelope_written))]
    fn to_value(&self, alloc: Global) -> Result<Value, AllocError>
        ensures exact { IfOk result (λ v. view v ≡ envelope_written self.now) }
        ensures reads_back { IfOk result (λ v. details_have_float self.now ≡ false
            → ReadsDocument (Ok (normal_envelope self.now)) envelope_of (view v)) }
    {
        let value = object!(alloc, {
            "errors": &self.errors,
        })?;
        Ok(value)
    }
}

impl Copied for OciError {
    fn copy(&self, alloc: Global) -> Result<OciError, AllocError> {
        copied!(
            alloc,
            self,
            OciError {
                code,
                message,
                detail
            }
        )
    }
}

impl Copied for OciEnvelope {
    fn copy(&self, alloc: Global) -> Result<OciEnvelope, AllocError> {
        let errors = self.errors.copy(alloc)?;
        Ok(OciEnvelope { errors })
    }
}
