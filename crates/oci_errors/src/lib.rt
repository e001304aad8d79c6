//! The error bodies of registries: envelopes, errors and their codes (OCI distribution specification, "Error Codes").
#![tactic(auto)]

mod envelope;
mod error_code;

pub use envelope::{OciEnvelope, OciError};
pub use error_code::OciErrorCode;
