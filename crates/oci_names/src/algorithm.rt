// The algorithms of digests.
ghost use Rattle.std.specs.Prelude.{◌≡◌, bytes_eq};
ghost use Rattle.std.specs.List.{find};

use json_values::Copied;
use std::alloc::{AllocError, Global};

/// The registered algorithms of the OCI image specification (descriptor.md, "Registered algorithms"), and SHA-384.
#[derive(Clone, Copy, Debug, PartialEq, Eq)]
pub enum Algorithm {
    /// SHA-256, 64 hexadecimal digits.
    Sha256,
    /// SHA-384, 96 hexadecimal digits.
    Sha384,
    /// SHA-512, 128 hexadecimal digits.
    Sha512,
}

impl Algorithm {
    ghost use Rattle.oci_names.specs.Algorithms as table;

    /// Each algorithm, once.
    pub const ALL: [Algorithm; 3] = [Algorithm::Sha256, Algorithm::Sha384, Algorithm::Sha512];

    /// Returns the algorithm with this name.
    pub fn named(name: &str) -> Option<Algorithm>
        ensures { result ≡ table.algorithm_of name.now }
    {
        Algorithm::ALL
            .iter()
            .copied()
            .find(|algorithm| name == algorithm.name())
    }

    /// Returns its name in a digest.
    pub fn name(self) -> &'static str
        ensures { result.now ≡ table.name_of self }
    {
        match self {
            Algorithm::Sha256 => "sha256",
            Algorithm::Sha384 => "sha384",
            Algorithm::Sha512 => "sha512",
        }
    }

    /// Returns the number of hexadecimal digits in a digest.
    pub fn digits(self) -> usize
        ensures { result ≡ table.digits_in self }
    {
        match self {
            Algorithm::Sha256 => 64,
            Algorithm::Sha384 => 96,
            Algorithm::Sha512 => 128,
        }
    }
}

impl Copied for Algorithm {
    fn copy(&self, _alloc: Global) -> Result<Algorithm, AllocError> {
        Ok(*self)
    }
}
