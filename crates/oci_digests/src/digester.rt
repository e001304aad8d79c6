ghost use Rattle.std.specs.Prelude.{◌≡◌, ℕ, List, [], ◌++◌, IfOk, OnOk, OnErr};

use crate::checks::named_algorithm;
use crate::error::DigestError;
use crate::hasher::Hasher;
use json_values::Text;
use oci_names::Algorithm;
use std::alloc::{AllocError, Global};

/// Hashes pieces by one algorithm.
#[derive(Drop)]
pub struct Digester {
    hasher: Hasher,
}

impl Digester {
    ghost use Rattle.oci_digests.specs.Holds.{Holds, MatchesDigester};
    ghost use Rattle.oci_digests.specs.Checks.{named_algorithm};
    ghost use Rattle.oci_digests.specs.Names.{digest_text};

    /// Creates a digester of the algorithm that a digest text names.
    ///
    /// Returns `MissingAlgorithm` if the text has no colon, `UnsupportedAlgorithm` if the part before the first colon
    /// is not the name of an `Algorithm`.
    pub fn new(alloc: Global, digest: &str) -> Result<Digester, DigestError>
        ensures { MatchesDigester result (named_algorithm digest.now) }
    {
        let algorithm = named_algorithm(alloc, digest)?;
        Ok(Digester::of(algorithm))
    }

    /// Creates a digester of this algorithm.
    pub fn of(algorithm: Algorithm) -> Digester
        ensures { Holds result algorithm [] }
    {
        Digester {
            hasher: Hasher::of(algorithm),
        }
    }

    /// Hashes the next piece of the bytes.
    pub fn update(&mut self, piece: &[u8])
        ensures { (a : _) (m : List ℕ) → Holds self.old a m
            → Holds self.new a (m ++ piece.now) }
    {
        self.hasher.update(piece);
    }

    /// Returns the digest text of the hashed bytes, and resets the digester.
    pub fn finalize(&mut self, alloc: Global) -> Result<Text, AllocError>
        ensures text { (a : _) (m : List ℕ) → Holds self.old a m
            → IfOk result (λ text. text ≡ digest_text a m) }
        ensures fresh { (a : _) (m : List ℕ) → Holds self.old a m
            → Holds self.new a [] }
    {
        self.hasher.finalize(alloc)
    }
}
