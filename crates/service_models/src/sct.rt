ghost use Rattle.std.specs.Prelude.{◌≡◌, IfOk, IsErrOf, Ok, Err};
ghost use Rattle.json_tables.specs.Outcomes.{ReadsTo};
ghost use Rattle.service_models.specs.Sct.{sct_signature, log_id_of, signature_of};
ghost use Rattle.service_models.specs.declared.sct.SctError.TheVariants as why;

use json_tables::{ReadError, Reads, required, required_base64};
use json_values::{Blob, Copied, copied};
use serde_json::Value;
use std::alloc::{AllocError, Global};
use thiserror::Error;

/// The version of a signed certificate timestamp (RFC 6962, 3.2).
#[derive(Clone, Copy, Debug, PartialEq, Eq)]
pub enum SCTVersion {
    V1,
}

/// A signed certificate timestamp, separate from the certificate (RFC 6962, 3.2).
#[derive(Debug, Drop)]
pub struct InnerDetachedSCT {
    pub sct_version: SCTVersion,
    /// The ID of the log, 32 bytes.
    pub id: Blob,
    /// In milliseconds since 1970.
    pub timestamp: u64,
    /// The signature only, without its algorithms and its length.
    pub signature: Blob,
    pub extensions: Blob,
}

/// Why bytes are not the signature of a timestamp.
#[derive(Clone, Copy, Debug, PartialEq, Eq, Error)]
pub enum SctError {
    /// There are fewer than four bytes.
    #[error("the signature of a timestamp follows four bytes: pass them too")]
    TooShort,
    /// The length in the third and fourth byte differs from that of the rest.
    #[error("the length before the signature is wrong: pass exactly its bytes")]
    LengthMismatch,
}

impl Copied for SctError {
    fn copy(&self, _alloc: Global) -> Result<SctError, AllocError> {
        Ok(*self)
    }
}

/// Returns the signature in the bytes of a digitally-signed element (RFC 5246, 4.7): two bytes for the algorithms, two
/// for the length of the signature, and the signature.
pub fn read_sct_signature(bytes: &[u8]) -> Result<&[u8], SctError>
    ensures ok { IfOk result (λ signature. sct_signature bytes.now ≡ Ok signature.now) }
    ensures short { IsErrOf result SctError.TooShort → sct_signature bytes.now ≡ Err why.TooShort }
    ensures other { IsErrOf result SctError.LengthMismatch
        → sct_signature bytes.now ≡ Err why.LengthMismatch }
{
    let [_, _, high, low, signature @ ..] = bytes else {
        return Err(SctError::TooShort);
    };
    let length = *high as usize * 256 + *low as usize;
    if length == signature.len() {
        return Ok(signature);
    }
    Err(SctError::LengthMismatch)
}

fn log_id(bytes: Blob) -> Result<Blob, ReadError>
    ensures { ReadsTo result (log_id_of bytes) }
{
    if bytes.as_slice().len() == 32 {
        return Ok(bytes);
    }
    Err(ReadError::Shape)
}

fn signature(alloc: Global, bytes: &Blob) -> Result<Blob, ReadError>
    ensures { ReadsTo result (signature_of bytes.now) }
{
    match read_sct_signature(bytes.as_slice()) {
        Ok(signature) => {
            let signature = Blob::new(alloc, signature)?;
            Ok(signature)
        }
        Err(SctError::TooShort) => Err(ReadError::Shape),
        Err(SctError::LengthMismatch) => Err(ReadError::Shape),
    }
}

impl Reads for SCTVersion {
    ghost use Rattle.service_models.specs.Sct.{version_of};

    ghost reading = { version_of };

    #[tactic(auto, unfolding(crate::specs::Sct::version_of))]
    fn read_value(_alloc: Global, value: &Value) -> Result<SCTVersion, ReadError> {
        match value.as_u64() {
            Some(0) => Ok(SCTVersion::V1),
            _ => Err(ReadError::Shape),
        }
    }
}

impl Reads for InnerDetachedSCT {
    ghost use Rattle.service_models.specs.Sct.{inner_sct_of};

    ghost reading = { inner_sct_of };

    #[tactic(auto, unfolding(crate::specs::Sct::inner_sct_of))]
    fn read_value(alloc: Global, value: &Value) -> Result<InnerDetachedSCT, ReadError> {
        let sct_version = required(alloc, value, "sct_version")?;
        let id = log_id(required_base64(alloc, value, "id")?)?;
        let timestamp = required(alloc, value, "timestamp")?;
        let signed = required_base64(alloc, value, "signature")?;
        let signature = signature(alloc, &signed)?;
        let extensions = required_base64(alloc, value, "extensions")?;
        Ok(InnerDetachedSCT {
            sct_version,
            id,
            timestamp,
            signature,
            extensions,
        })
    }
}

impl Copied for SCTVersion {
    fn copy(&self, _alloc: Global) -> Result<SCTVersion, AllocError> {
        Ok(*self)
    }
}

impl Copied for InnerDetachedSCT {
    fn copy(&self, alloc: Global) -> Result<InnerDetachedSCT, AllocError> {
        copied!(
            alloc,
            self,
            InnerDetachedSCT {
                sct_version,
                id,
                timestamp,
                signature,
                extensions
            }
        )
    }
}
