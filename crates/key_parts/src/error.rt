//! Why a call on keys fails.
ghost use Rattle.std.specs.Prelude.{◌≡◌};
ghost use Rattle.key_parts.specs.Error.{is_memory};

use crate::scheme::{KeyKind, SigningScheme};
use json_values::Copied;
use std::alloc::{AllocError, Global};
use thiserror::Error;

/// Why a call on keys fails.
#[derive(Clone, Copy, Debug, PartialEq, Eq, Error)]
pub enum KeyError {
    /// The maker does not parse the bytes as a private key of one of the kinds that were tried.
    #[error("the bytes are not a private key of this kind: pass a key in PKCS 8")]
    KeyParseError,
    /// The maker makes no keys of this kind and size.
    #[error("keys of this kind and size cannot be made: choose another size")]
    KeyGenerationError,
    /// The maker does not sign with this key under its scheme.
    #[error("the key does not sign under its scheme: check that it belongs to the scheme")]
    SigningError,
    /// Keys of this kind do not sign under this scheme.
    #[error("{key:?} keys do not sign under {scheme:?}: choose the scheme of the keys")]
    UnmatchedKeyAndSigningScheme { key: KeyKind, scheme: SigningScheme },
    #[error("out of memory: free some and try again")]
    WantOfMemory,
}

impl KeyError {
    /// Returns whether the error is `WantOfMemory`.
    pub fn is_memory(&self) -> bool
        ensures { result ≡ is_memory self.now }
    {
        matches!(self, KeyError::WantOfMemory)
    }
}

impl From<AllocError> for KeyError {
    ghost use Rattle.key_parts.specs.declared.error.KeyError.TheVariants.{WantOfMemory};

    ghost from_gives = { λ _ e. e ≡ WantOfMemory };

    fn from(_error: AllocError) -> KeyError {
        KeyError::WantOfMemory
    }
}

impl Copied for KeyError {
    fn copy(&self, _alloc: Global) -> Result<KeyError, AllocError> {
        Ok(*self)
    }
}
