//! Kinds of keys, the schemes under which they sign, the traits of the crates above, and the envelope of an encrypted
//! private key.
#![tactic(auto)]

mod base64_text;
mod envelope;
mod envelope_error;
mod error;
pub mod kdf;
mod key_box;
mod key_pair;
mod maker;
mod scheme;
mod scrypt;

pub use envelope_error::{DecryptCause, KdfError};
pub use error::KeyError;
pub use key_box::{BOX_KEY_SIZE, BOX_NONCE_SIZE, KeyBox, NAME_SECRET_BOX};
pub use key_pair::{CosignVerificationKey, KeyPair};
pub use maker::KeyMaker;
pub use scheme::{DigestAlgorithm, EllipticCurve, KeyKind, PaddingScheme, SigningScheme};
pub use scrypt::{
    NAME_SCRYPT, SALT_SIZE, SCRYPT_N_HIGH, SCRYPT_N_LOW, SCRYPT_P, SCRYPT_R, ScryptParams,
};
