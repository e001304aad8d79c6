//! Key pairs of each kind, and their signers.
#![tactic(auto)]

pub mod ecdsa;
pub mod ed25519;
mod pair;
pub mod rsa;
mod signer;
mod store_signer;

pub use key_parts::{
    BOX_KEY_SIZE, BOX_NONCE_SIZE, CosignVerificationKey, DecryptCause, DigestAlgorithm,
    EllipticCurve, KdfError, KeyBox, KeyError, KeyKind, KeyMaker, KeyPair, NAME_SCRYPT,
    NAME_SECRET_BOX, PaddingScheme, SALT_SIZE, SCRYPT_N_HIGH, SCRYPT_N_LOW, SCRYPT_P, SCRYPT_R,
    ScryptParams, SigningScheme, kdf,
};
pub use pair::SigStoreKeyPair;
pub use signer::Signer;
pub use store_signer::SigStoreSigner;
