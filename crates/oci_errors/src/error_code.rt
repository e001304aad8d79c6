ghost use Rattle.std.specs.Prelude.{◌≡◌, IfOk, Ok, false};
ghost use Rattle.serde_json.specs.View.{view};
ghost use Rattle.json_tables.specs.Outcomes.{ReadsDocument};
ghost use Rattle.oci_errors.specs.ErrorCode.{known_code, code_text};

use json_tables::{Member, ReadError, Reads, Writes, present, read_document};
use json_values::{Copied, Text, ToValue};
use serde_json::Value;
use std::alloc::{AllocError, Global};

/// The code of an error (OCI distribution specification, "Error Codes").
#[derive(Debug, Drop, PartialEq, Eq)]
pub enum OciErrorCode {
    BlobUnknown,
    BlobUploadInvalid,
    BlobUploadUnknown,
    DigestInvalid,
    ManifestBlobUnknown,
    ManifestInvalid,
    ManifestUnknown,
    ManifestUnverified,
    NameInvalid,
    NameUnknown,
    NotFound,
    SizeInvalid,
    TagInvalid,
    Unauthorized,
    Denied,
    Unsupported,
    Toomanyrequests,
    /// Any other text.
    Other(Text),
}

// Returns the code of a text in the table.
#[tactic(auto, unfolding(crate::specs::ErrorCode::known_code))]
fn known_code(text: &str) -> Option<OciErrorCode>
    ensures { result ≡ known_code text.now }
{
    let code = match text {
        "BLOB_UNKNOWN" => OciErrorCode::BlobUnknown,
        "BLOB_UPLOAD_INVALID" => OciErrorCode::BlobUploadInvalid,
        "BLOB_UPLOAD_UNKNOWN" => OciErrorCode::BlobUploadUnknown,
        "DIGEST_INVALID" => OciErrorCode::DigestInvalid,
        "MANIFEST_BLOB_UNKNOWN" => OciErrorCode::ManifestBlobUnknown,
        "MANIFEST_INVALID" => OciErrorCode::ManifestInvalid,
        "MANIFEST_UNKNOWN" => OciErrorCode::ManifestUnknown,
        "MANIFEST_UNVERIFIED" => OciErrorCode::ManifestUnverified,
        "NAME_INVALID" => OciErrorCode::NameInvalid,
        "NAME_UNKNOWN" => OciErrorCode::NameUnknown,
        "NOT_FOUND" => OciErrorCode::NotFound,
        "SIZE_INVALID" => OciErrorCode::SizeInvalid,
        "TAG_INVALID" => OciErrorCode::TagInvalid,
        "UNAUTHORIZED" => OciErrorCode::Unauthorized,
        "DENIED" => OciErrorCode::Denied,
        "UNSUPPORTED" => OciErrorCode::Unsupported,
        "TOOMANYREQUESTS" => OciErrorCode::Toomanyrequests,
        _ => return None,
    };
    Some(code)
}

// Returns the text of a code.
#[tactic(auto, unfolding(crate::specs::ErrorCode::code_text))]
fn code_text(code: &OciErrorCode) -> &str
    ensures { result.now ≡ code_text code.now }
{
    match code {
        OciErrorCode::BlobUnknown => "BLOB_UNKNOWN",
        OciErrorCode::BlobUploadInvalid => "BLOB_UPLOAD_INVALID",
        OciErrorCode::BlobUploadUnknown => "BLOB_UPLOAD_UNKNOWN",
        OciErrorCode::DigestInvalid => "DIGEST_INVALID",
        OciErrorCode::ManifestBlobUnknown => "MANIFEST_BLOB_UNKNOWN",
        OciErrorCode::ManifestInvalid => "MANIFEST_INVALID",
        OciErrorCode::ManifestUnknown => "MANIFEST_UNKNOWN",
        OciErrorCode::ManifestUnverified => "MANIFEST_UNVERIFIED",
        OciErrorCode::NameInvalid => "NAME_INVALID",
        OciErrorCode::NameUnknown => "NAME_UNKNOWN",
        OciErrorCode::NotFound => "NOT_FOUND",
        OciErrorCode::SizeInvalid => "SIZE_INVALID",
        OciErrorCode::TagInvalid => "TAG_INVALID",
        OciErrorCode::Unauthorized => "UNAUTHORIZED",
        OciErrorCode::Denied => "DENIED",
        OciErrorCode::Unsupported => "UNSUPPORTED",
        OciErrorCode::Toomanyrequests => "TOOMANYREQUESTS",
        OciErrorCode::Other(text) => text.as_str(),
    }
}

impl OciErrorCode {
    ghost use Rattle.oci_errors.specs.ErrorCode.{code_of};

    /// Reads a code. Returns `Float` if and only if the value contains a float, otherwise `Shape` if not a string.
    pub fn read(alloc: Global, value: &Value) -> Result<OciErrorCode, ReadError>
        ensures { ReadsDocument result code_of (view value.now) }
    {
        read_document(alloc, value)
    }
}

impl Reads for OciErrorCode {
    ghost use Rattle.oci_errors.specs.ErrorCode.{code_of};

    ghost reading = { code_of };

    #[tactic(auto, unfolding(crate::specs::ErrorCode::code_of))]
    fn read_value(alloc: Global, value: &Value) -> Result<OciErrorCode, ReadError> {
        let Some(text) = value.as_str() else {
            return Err(ReadError::Shape);
        };
        match known_code(text) {
            Some(code) => Ok(code),
            None => Ok(OciErrorCode::Other(Text::new(alloc, text)?)),
        }
    }
}

impl Member for OciErrorCode {
    ghost use Rattle.json_tables.specs.Member.{present};
    ghost use Rattle.oci_errors.specs.ErrorCode.{code_of};

    ghost found = { present code_of };

    fn read_member(alloc: Global, member: Option<&Value>) -> Result<OciErrorCode, ReadError> {
        present(alloc, member)
    }
}

impl Writes for OciErrorCode {
    ghost use Rattle.oci_errors.specs.ErrorCode.{code_written, normal_code};

    ghost written = { code_written };

    ghost normal = { normal_code };

    #[tactic(auto, unfolding(crate::specs::ErrorCode::code_written))]
    fn write_value(&self, alloc: Global) -> Result<Value, AllocError> {
        let text = String::from_str(alloc, code_text(self))?;
        Ok(Value::String(text))
    }
}

impl ToValue for OciErrorCode {
    ghost use Rattle.oci_errors.specs.ErrorCode.{code_of, code_written, normal_code};

    ghost written = { code_written };

    /// Writes the code. Reading it returns the normal form: an `Other` with a text of the table becomes that code.
    #[tactic(auto, using(json_tables::proofs::Whole::document_again))]
    fn to_value(&self, alloc: Global) -> Result<Value, AllocError>
        ensures exact { IfOk result (λ v. view v ≡ code_written self.now) }
        ensures reads_back { IfOk result (λ v. ReadsDocument (Ok (normal_code self.now)) code_of (view v)) }
    {
        let value = self.write_value(alloc)?;
        Ok(value)
    }
}

impl Copied for OciErrorCode {
    fn copy(&self, alloc: Global) -> Result<OciErrorCode, AllocError> {
        let code = match self {
            OciErrorCode::BlobUnknown => OciErrorCode::BlobUnknown,
            OciErrorCode::BlobUploadInvalid => OciErrorCode::BlobUploadInvalid,
            OciErrorCode::BlobUploadUnknown => OciErrorCode::BlobUploadUnknown,
            OciErrorCode::DigestInvalid => OciErrorCode::DigestInvalid,
            OciErrorCode::ManifestBlobUnknown => OciErrorCode::ManifestBlobUnknown,
            OciErrorCode::ManifestInvalid => OciErrorCode::ManifestInvalid,
            OciErrorCode::ManifestUnknown => OciErrorCode::ManifestUnknown,
            OciErrorCode::ManifestUnverified => OciErrorCode::ManifestUnverified,
            OciErrorCode::NameInvalid => OciErrorCode::NameInvalid,
            OciErrorCode::NameUnknown => OciErrorCode::NameUnknown,
            OciErrorCode::NotFound => OciErrorCode::NotFound,
            OciErrorCode::SizeInvalid => OciErrorCode::SizeInvalid,
            OciErrorCode::TagInvalid => OciErrorCode::TagInvalid,
            OciErrorCode::Unauthorized => OciErrorCode::Unauthorized,
            OciErrorCode::Denied => OciErrorCode::Denied,
            OciErrorCode::Unsupported => OciErrorCode::Unsupported,
            OciErrorCode::Toomanyrequests => OciErrorCode::Toomanyrequests,
            OciErrorCode::Other(text) => OciErrorCode::Other(text.copy(alloc)?),
        };
        Ok(code)
    }
}
