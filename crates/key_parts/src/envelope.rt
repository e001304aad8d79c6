//! The envelope as it is parsed.
ghost use Rattle.key_parts.specs.Envelope.{kdf_of, cipher_of, envelope_of};

use crate::scrypt::ScryptParams;
use json_tables::{ReadError, Reads, required, required_base64};
use json_values::{Blob, Text};
use serde_json::Value;
use std::alloc::Global;

/// How the key is derived from the password.
#[derive(Drop)]
pub struct Derivation {
    pub name: Text,
    pub params: ScryptParams,
    pub salt: Blob,
}

/// The cipher that seals the private key.
#[derive(Drop)]
pub struct Cipher {
    pub name: Text,
    pub nonce: Blob,
}

/// A private key that is encrypted under a password.
#[derive(Drop)]
pub struct Envelope {
    pub derivation: Derivation,
    pub cipher: Cipher,
    pub ciphertext: Blob,
}

impl Reads for Derivation {
    ghost reading = { kdf_of };

    fn read_value(alloc: Global, value: &Value) -> Result<Derivation, ReadError> {
        let params = required(alloc, value, "params")?;
        let name = required(alloc, value, "name")?;
        let salt = required_base64(alloc, value, "salt")?;
        Ok(Derivation { name, params, salt })
    }
}

impl Reads for Cipher {
    ghost reading = { cipher_of };

    fn read_value(alloc: Global, value: &Value) -> Result<Cipher, ReadError> {
        let name = required(alloc, value, "name")?;
        let nonce = required_base64(alloc, value, "nonce")?;
        Ok(Cipher { name, nonce })
    }
}

impl Reads for Envelope {
    ghost reading = { envelope_of };

    fn read_value(alloc: Global, value: &Value) -> Result<Envelope, ReadError> {
        let derivation = required(alloc, value, "kdf")?;
        let cipher = required(alloc, value, "cipher")?;
        let ciphertext = required_base64(alloc, value, "ciphertext")?;
        Ok(Envelope {
            derivation,
            cipher,
            ciphertext,
        })
    }
}
