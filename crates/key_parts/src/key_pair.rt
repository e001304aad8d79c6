//! Common calls of all key pairs.
ghost use Rattle.std.specs.Prelude.{◌≡◌, ℕ, List, IfOk};
ghost use Rattle.key_parts.specs.KeyPair.{verification_key};
ghost use Rattle.key_parts.specs.declared.scheme.SigningScheme.{SigningScheme};

use crate::scheme::SigningScheme;
use json_values::{Blob, Copied, copied};
use std::alloc::{AllocError, Global};

/// A public key, and the scheme under which its signatures are verified.
#[derive(Debug, Drop)]
pub struct CosignVerificationKey {
    pub scheme: SigningScheme,
    /// SubjectPublicKeyInfo in DER.
    pub key: Blob,
}

/// A private key and its public key.
pub trait KeyPair {
    /// The public key.
    ghost public_der: { Self → List ℕ };

    /// The private key.
    ghost private_der: { Self → List ℕ };

    /// The scheme of a verification key that is requested with this scheme.
    ghost scheme_under: { Self → SigningScheme → SigningScheme };

    /// Copies the public key, SubjectPublicKeyInfo in DER.
    fn public_key_to_der(&self, alloc: Global) -> Result<Blob, AllocError>
        ensures { IfOk result (λ der. der ≡ public_der self.now) };

    /// Copies the private key, PKCS 8 in DER.
    fn private_key_to_der(&self, alloc: Global) -> Result<Blob, AllocError>
        ensures { IfOk result (λ der. der ≡ private_der self.now) };

    /// Returns the public key with this scheme; that of Ed25519 keys always has `ED25519`.
    fn to_verification_key(
        &self,
        alloc: Global,
        scheme: SigningScheme,
    ) -> Result<CosignVerificationKey, AllocError>
        ensures { IfOk result (λ key. key
            ≡ verification_key (scheme_under self.now scheme) (public_der self.now)) };
}

impl Copied for CosignVerificationKey {
    fn copy(&self, alloc: Global) -> Result<CosignVerificationKey, AllocError> {
        copied!(alloc, self, CosignVerificationKey { scheme, key })
    }
}
