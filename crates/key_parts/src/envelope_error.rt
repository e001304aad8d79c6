//! Why an envelope cannot be opened.
ghost use Rattle.std.specs.Prelude.{◌≡◌};
ghost use Rattle.key_parts.specs.EnvelopeError.{is_memory};

use json_values::{Copied, Text};
use std::alloc::{AllocError, Global};
use thiserror::Error;

/// Why a private key cannot be decrypted.
#[derive(Debug, Drop, Error)]
pub enum DecryptCause {
    /// The cipher with this name is not `nacl/secretbox`.
    #[error("the cipher is not nacl/secretbox: encrypt the key with cosign")]
    UnknownCipher(Text),
    /// The key derivation with this name is not `scrypt`.
    #[error("the key derivation is not scrypt: encrypt the key with cosign")]
    UnknownKdf(Text),
    /// N is neither 32768 nor 65536, r is not 8, or p is not 1.
    #[error("the parameters of scrypt are not ones that cosign writes: encrypt the key with cosign")]
    UnexpectedParameters,
    /// The nonce does not have 24 bytes.
    #[error("the nonce does not have 24 bytes: the envelope was changed")]
    NonceLength,
    /// The box does not open the ciphertext.
    #[error("the ciphertext cannot be decrypted: check the password")]
    UnsealRefused,
}

/// Why an envelope yields no private key.
#[derive(Debug, Drop, Error)]
pub enum KdfError {
    /// The bytes are not JSON without floats that matches the envelope's table.
    #[error("the bytes are not an envelope: pass the JSON of an encrypted key")]
    EnvelopeUnreadable,
    /// The envelope is well-formed, but cannot be opened.
    #[error("the private key cannot be decrypted: {0}")]
    PrivateKeyDecryptError(DecryptCause),
    #[error("out of memory: free some and try again")]
    WantOfMemory,
}

impl KdfError {
    /// Returns whether the error is `WantOfMemory`.
    pub fn is_memory(&self) -> bool
        ensures { result ≡ is_memory self.now }
    {
        matches!(self, KdfError::WantOfMemory)
    }
}

impl From<AllocError> for KdfError {
    ghost use Rattle.key_parts.specs.declared.envelope_error.KdfError.TheVariants.{WantOfMemory};

    ghost from_gives = { λ _ e. e ≡ WantOfMemory };

    fn from(_error: AllocError) -> KdfError {
        KdfError::WantOfMemory
    }
}

impl Copied for DecryptCause {
    fn copy(&self, alloc: Global) -> Result<DecryptCause, AllocError> {
        match self {
            DecryptCause::UnknownCipher(name) => Ok(DecryptCause::UnknownCipher(name.copy(alloc)?)),
            DecryptCause::UnknownKdf(name) => Ok(DecryptCause::UnknownKdf(name.copy(alloc)?)),
            DecryptCause::UnexpectedParameters => Ok(DecryptCause::UnexpectedParameters),
            DecryptCause::NonceLength => Ok(DecryptCause::NonceLength),
            DecryptCause::UnsealRefused => Ok(DecryptCause::UnsealRefused),
        }
    }
}

impl Copied for KdfError {
    fn copy(&self, alloc: Global) -> Result<KdfError, AllocError> {
        match self {
            KdfError::EnvelopeUnreadable => Ok(KdfError::EnvelopeUnreadable),
            KdfError::PrivateKeyDecryptError(cause) => {
                Ok(KdfError::PrivateKeyDecryptError(cause.copy(alloc)?))
            }
            KdfError::WantOfMemory => Ok(KdfError::WantOfMemory),
        }
    }
}
