// The lines that say what each call returned.
use crate::signature::Pushed;
use engine_terms::OciDistributionError;
use json_values::{Blob, write_decimal};
use sig_registry::SigstoreError;
use std::alloc::{AllocError, Global};

/// Appends a line of a label and these words.
pub fn line(out: &mut Blob, label: &str, words: &[&str]) -> Result<(), AllocError> {
    out.append(label.as_bytes())?;
    for word in words {
        out.append(b" ")?;
        out.append(word.as_bytes())?;
    }
    out.append(b"\n")
}

// Appends a line with the error's name, and for `ServerError` the status and how many bytes came with it.
fn error_line(
    alloc: Global,
    out: &mut Blob,
    label: &str,
    error: &OciDistributionError,
) -> Result<(), AllocError> {
    let OciDistributionError::ServerError { code, message, .. } = error else {
        return line(out, label, &["refused", error.name()]);
    };
    let status = write_decimal(alloc, *code as u64)?;
    let count = write_decimal(alloc, message.as_slice().len() as u64)?;
    line(
        out,
        label,
        &["refused", error.name(), status.as_str(), count.as_str()],
    )
}

/// Appends the line of a refusal. Fails if memory ran out in the call.
pub fn refused(
    alloc: Global,
    out: &mut Blob,
    label: &str,
    error: OciDistributionError,
) -> Result<(), AllocError> {
    if error.is_memory() {
        return Err(AllocError);
    }
    error_line(alloc, out, label, &error)
}

/// Appends the line of a push of a signature. Fails if memory ran out in the call.
pub fn signature_line(alloc: Global, out: &mut Blob, pushed: &Pushed) -> Result<(), AllocError> {
    match pushed {
        Ok(pushed) => line(
            out,
            "signature",
            &[pushed.config_url.as_str(), pushed.manifest_url.as_str()],
        ),
        Err(SigstoreError::RegistryPushError { error, .. }) => {
            error_line(alloc, out, "signature", error)
        }
        Err(SigstoreError::WantOfMemory) => Err(AllocError),
        Err(_) => line(out, "signature", &["refused"]),
    }
}
