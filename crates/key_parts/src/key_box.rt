//! The trait that derives keys from passwords, and seals and opens under them.
ghost use Rattle.std.specs.Prelude.{◌≡◌, ℕ, List, Option, IfOk};

use json_values::Blob;
use std::alloc::{AllocError, Global};

/// The name of NaCl's secret box (XSalsa20 and Poly1305) in an envelope.
pub const NAME_SECRET_BOX: &'static str = "nacl/secretbox";

/// The length of a key of the secret box in bytes.
pub const BOX_KEY_SIZE: usize = 32;

/// The length of a nonce of the secret box in bytes.
pub const BOX_NONCE_SIZE: usize = 24;

/// Derives keys by scrypt (RFC 7914), and seals and opens under them by NaCl's secret box.
pub trait KeyBox {
    /// The key of a password and a salt, under log N, r and p.
    ghost derived: { Self → List ℕ → List ℕ → ℕ → ℕ → ℕ → List ℕ };

    /// The sealed bytes under a key and a nonce.
    ghost sealed: { Self → List ℕ → List ℕ → List ℕ → List ℕ };

    /// The plain bytes of sealed bytes under a key and a nonce, if they can be opened.
    ghost opened: { Self → List ℕ → List ℕ → List ℕ → Option (List ℕ) };

    /// Derives a key of 32 bytes.
    fn derive(
        &self,
        alloc: Global,
        password: &[u8],
        salt: &[u8],
        log_n: u8,
        r: u32,
        p: u32,
    ) -> Result<Blob, AllocError>
        ensures { IfOk result (λ key. key ≡ derived self.now password.now salt.now log_n r p) };

    /// Returns the sealed bytes. A nonce must not be used twice with one key.
    fn seal(
        &self,
        alloc: Global,
        key: &Blob,
        nonce: &[u8],
        plain: &[u8],
    ) -> Result<Blob, AllocError>
        ensures { IfOk result (λ bytes. bytes ≡ sealed self.now key.now nonce.now plain.now) };

    /// Returns the plain bytes, or `None` if these bytes were not sealed with this key and nonce.
    fn unseal(
        &self,
        alloc: Global,
        key: &Blob,
        nonce: &[u8],
        ciphertext: &[u8],
    ) -> Result<Option<Blob>, AllocError>
        ensures { IfOk result (λ plain. plain ≡ opened self.now key.now nonce.now ciphertext.now) };
}
