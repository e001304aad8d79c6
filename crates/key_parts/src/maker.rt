//! The trait that makes keys and signs with them.
ghost use Rattle.std.specs.Prelude.{◌≡◌, ℕ, List, Bool, Option, IfOk};
ghost use Rattle.key_parts.specs.Outcomes.{GivesIf};
ghost use Rattle.key_parts.specs.declared.scheme.KeyKind.{KeyKind};
ghost use Rattle.key_parts.specs.declared.scheme.SigningScheme.{SigningScheme};

use crate::scheme::{KeyKind, SigningScheme};
use json_values::Blob;
use std::alloc::{AllocError, Global};

/// Makes keys, parses them and signs with them. Private keys are PKCS 8 (RFC 5958) in DER, public ones
/// SubjectPublicKeyInfo (RFC 5280, 4.1.2.7) in DER.
pub trait KeyMaker {
    /// The public key of a private one, if the bytes are a private key of this kind.
    ghost public_of: { Self → KeyKind → List ℕ → Option (List ℕ) };

    /// Whether it makes keys of this kind and of this many bits.
    ghost can_make: { Self → KeyKind → ℕ → Bool };

    /// Whether it may make these keys of this kind and size: a private one and its public one.
    ghost Made: { Self → KeyKind → ℕ → List ℕ → List ℕ → Type 0 };

    /// Whether it signs this message under this scheme with this private key.
    ghost can_sign: { Self → SigningScheme → List ℕ → List ℕ → Bool };

    /// Whether it may return this signature, the last argument, for that.
    ghost Signs: { Self → SigningScheme → List ℕ → List ℕ → List ℕ → Type 0 };

    /// Makes a new private key and its public key. Returns `None` if it makes no such keys. `bits` is the size of RSA
    /// keys, and 0 for the other kinds.
    fn generate(
        &self,
        alloc: Global,
        kind: KeyKind,
        bits: usize,
    ) -> Result<Option<(Blob, Blob)>, AllocError>
        ensures { IfOk result (GivesIf (can_make self.now kind bits)
            (λ keys. Made self.now kind bits keys.0 keys.1)) };

    /// Returns the public key of a private one, or `None` if the bytes are not a private key of this kind.
    fn public(&self, alloc: Global, kind: KeyKind, pkcs8: &[u8]) -> Result<Option<Blob>, AllocError>
        ensures { IfOk result (λ found. found ≡ public_of self.now kind pkcs8.now) };

    /// Returns a signature of the message, or `None` if it does not sign.
    fn sign(
        &self,
        alloc: Global,
        scheme: SigningScheme,
        pkcs8: &[u8],
        message: &[u8],
    ) -> Result<Option<Blob>, AllocError>
        ensures { IfOk result (GivesIf (can_sign self.now scheme pkcs8.now message.now)
            (Signs self.now scheme pkcs8.now message.now)) };
}
