//! Verifiers of signatures.
ghost use Rattle.std.specs.Prelude.{◌≡◌, ℕ, List, Bool, IfOk};
ghost use Rattle.cosign_parts.specs.Verifier.{is_of, is_valid_by};

use json_values::{Blob, Copied, List, Text, copied};
use oci_digests::names_digest;
use std::alloc::{AllocError, Global};

/// Verifies signatures.
pub trait SignatureVerifier {
    /// Whether, for this key and message, the signature is valid.
    ghost valid: { Self → List ℕ → List ℕ → List ℕ → Bool };

    fn verify(&self, key: &Blob, message: &[u8], signature: &[u8]) -> Result<bool, AllocError>
        ensures { IfOk result (λ b. b ≡ valid self.now key.now message.now signature.now) };
}

/// A signature that is valid for the messages that a digest text names; for none if the text is not a digest.
#[derive(Drop)]
pub struct SignedRow {
    pub key: Blob,
    pub message: Text,
    pub signature: Blob,
}

/// Accepts the signatures of its rows as valid, and no others.
#[derive(Drop)]
pub struct TableVerifier {
    pub rows: List<SignedRow>,
}

impl SignatureVerifier for TableVerifier {
    ghost use Rattle.cosign_parts.specs.Verifier.{valid_in};

    ghost valid = { valid_in };

    fn verify(&self, key: &Blob, message: &[u8], signature: &[u8]) -> Result<bool, AllocError> {
        let valid = self
            .rows
            .as_slice()
            .iter()
            .any(|row| is_valid_by(row, key.as_slice(), message, signature));
        Ok(valid)
    }
}

// Whether the row makes the signature valid. The message is hashed only if the row has this key and this signature.
fn is_valid_by(row: &SignedRow, key: &[u8], message: &[u8], signature: &[u8]) -> bool
    ensures { result ≡ is_valid_by key.now message.now signature.now row.now }
{
    is_of(row, key, signature) && names_digest(row.message.as_str(), message)
}

// Whether the row has this key and this signature.
fn is_of(row: &SignedRow, key: &[u8], signature: &[u8]) -> bool
    ensures { result ≡ is_of key.now signature.now row.now }
{
    row.key.as_slice() == key && row.signature.as_slice() == signature
}

impl Copied for SignedRow {
    fn copy(&self, alloc: Global) -> Result<SignedRow, AllocError> {
        copied!(
            alloc,
            self,
            SignedRow {
                key,
                message,
                signature
            }
        )
    }
}

impl Copied for TableVerifier {
    fn copy(&self, alloc: Global) -> Result<TableVerifier, AllocError> {
        Ok(TableVerifier {
            rows: self.rows.copy(alloc)?,
        })
    }
}
