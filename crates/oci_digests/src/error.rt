// Why a digest text is refused.
ghost use Rattle.std.specs.Prelude.{◌≡◌, IfOk};
ghost use Rattle.oci_digests.specs.Error.{is_memory};

use json_values::{Blob, Copied, Text};
use std::alloc::{AllocError, Global};
use thiserror::Error;

/// Why a digest text is refused.
#[derive(Debug, Drop, Error)]
pub enum DigestError {
    /// The digest header is not text: it has a byte that is neither 0x09 nor from 0x20 to 0x7E.
    #[error("the digest header is not text: the registry must send visible ASCII")]
    InvalidHeader(Blob),
    /// The text before the first colon does not name a supported algorithm.
    #[error("the digest's algorithm is not supported: give sha256, sha384 or sha512")]
    UnsupportedAlgorithm(Text),
    /// The digest text has no colon.
    #[error("the digest names no algorithm: give algorithm:digits")]
    MissingAlgorithm,
    /// The given digest is not the computed one.
    #[error("the digest does not name the bytes: do not use them")]
    VerificationError {
        /// The given text.
        expected: Text,
        /// The computed text.
        actual: Text,
    },
    /// The allocator is out of memory.
    #[error("out of memory: free some and try again")]
    WantOfMemory,
}

impl DigestError {
    /// Returns whether the error is `WantOfMemory`.
    pub fn is_memory(&self) -> bool
        ensures { result ≡ is_memory self.now }
    {
        matches!(self, DigestError::WantOfMemory)
    }
}

impl Copied for DigestError {
    fn copy(&self, alloc: Global) -> Result<DigestError, AllocError> {
        match self {
            DigestError::InvalidHeader(value) => Ok(DigestError::InvalidHeader(value.copy(alloc)?)),
            DigestError::UnsupportedAlgorithm(name) => {
                Ok(DigestError::UnsupportedAlgorithm(name.copy(alloc)?))
            }
            DigestError::MissingAlgorithm => Ok(DigestError::MissingAlgorithm),
            DigestError::VerificationError { expected, actual } => {
                let (expected, actual) = copied_texts(alloc, expected, actual)?;
                Ok(DigestError::VerificationError { expected, actual })
            }
            DigestError::WantOfMemory => Ok(DigestError::WantOfMemory),
        }
    }
}

fn copied_texts(alloc: Global, expected: &Text, actual: &Text) -> Result<(Text, Text), AllocError>
    ensures { IfOk result (λ texts. (texts.0 ≡ expected.now) × (texts.1 ≡ actual.now)) }
{
    let expected = expected.copy(alloc)?;
    let actual = actual.copy(alloc)?;
    Ok((expected, actual))
}

impl From<AllocError> for DigestError {
    ghost use Rattle.oci_digests.specs.declared.error.DigestError.TheVariants.{WantOfMemory};

    ghost from_gives = { λ _ e. e ≡ WantOfMemory };

    fn from(_error: AllocError) -> DigestError {
        DigestError::WantOfMemory
    }
}
