// The hash of each algorithm.
ghost use Rattle.std.specs.Prelude.{◌≡◌, ◌↔◌, ◌++◌, ℕ, List, [], IsTrue, IfOk};
ghost use Rattle.hex.specs.Hex.{encode_lower};
ghost use Rattle.oci_digests.specs.Hashes.{HasherHolds, hash_of};
ghost use Rattle.oci_digests.specs.Names.{digest_text, names_by};

use crate::names::{digits_after, is_hex_of, text_of};
use json_values::Text;
use oci_names::Algorithm;
use sha2::{Digest, Sha256, Sha384, Sha512};
use std::alloc::{AllocError, Global};

#[derive(Drop)]
pub(crate) enum Hasher {
    Sha256(Sha256),
    Sha384(Sha384),
    Sha512(Sha512),
}

impl Hasher {
    pub(crate) fn of(algorithm: Algorithm) -> Hasher
        ensures { HasherHolds result algorithm [] }
    {
        match algorithm {
            Algorithm::Sha256 => Hasher::Sha256(Sha256::new()),
            Algorithm::Sha384 => Hasher::Sha384(Sha384::new()),
            Algorithm::Sha512 => Hasher::Sha512(Sha512::new()),
        }
    }

    pub(crate) fn update(&mut self, piece: &[u8])
        ensures { (a : _) (m : List ℕ) → HasherHolds self.old a m → HasherHolds self.new a (m ++ piece.now) }
    {
        match self {
            Hasher::Sha256(hasher) => hasher.update(piece),
            Hasher::Sha384(hasher) => hasher.update(piece),
            Hasher::Sha512(hasher) => hasher.update(piece),
        }
    }

    /// Returns the digest text of the hashed bytes, and resets the hasher.
    pub(crate) fn finalize(&mut self, alloc: Global) -> Result<Text, AllocError>
        ensures text { (a : _) (m : List ℕ) → HasherHolds self.old a m
            → IfOk result (λ text. text ≡ digest_text a m) }
        ensures fresh { (a : _) (m : List ℕ) → HasherHolds self.old a m → HasherHolds self.new a [] }
    {
        match self {
            Hasher::Sha256(hasher) => text_of(alloc, Algorithm::Sha256, &hasher.finalize_reset()),
            Hasher::Sha384(hasher) => text_of(alloc, Algorithm::Sha384, &hasher.finalize_reset()),
            Hasher::Sha512(hasher) => text_of(alloc, Algorithm::Sha512, &hasher.finalize_reset()),
        }
    }
}

/// Returns the digest text of the bytes by this algorithm.
pub fn digest_text(alloc: Global, algorithm: Algorithm, bytes: &[u8]) -> Result<Text, AllocError>
    ensures { IfOk result (λ text. text ≡ digest_text algorithm bytes.now) }
{
    match algorithm {
        Algorithm::Sha256 => text_of(alloc, algorithm, &Sha256::digest(bytes)),
        Algorithm::Sha384 => text_of(alloc, algorithm, &Sha384::digest(bytes)),
        Algorithm::Sha512 => text_of(alloc, algorithm, &Sha512::digest(bytes)),
    }
}

/// Returns whether the text is that of the hash of the bytes by this algorithm. Hashes them only if it begins with the
/// algorithm's name.
#[tactic(auto, using(crate::proofs::Equal::by_digits, crate::proofs::Equal::no_digits))]
pub fn names_by(algorithm: Algorithm, text: &str, bytes: &[u8]) -> bool
    ensures { result ≡ names_by algorithm text.now bytes.now }
{
    let Some(digits) = digits_after(algorithm, text) else {
        return false;
    };
    is_hash(algorithm, digits, bytes)
}

fn is_hash(algorithm: Algorithm, digits: &str, bytes: &[u8]) -> bool
    ensures { IsTrue result ↔ (digits.now ≡ encode_lower (hash_of algorithm bytes.now)) }
{
    let digits = digits.as_bytes();
    match algorithm {
        Algorithm::Sha256 => is_hex_of(digits, &Sha256::digest(bytes)),
        Algorithm::Sha384 => is_hex_of(digits, &Sha384::digest(bytes)),
        Algorithm::Sha512 => is_hex_of(digits, &Sha512::digest(bytes)),
    }
}
