// Why a string is not a reference.
use json_values::Copied;
use std::alloc::{AllocError, Global};
use thiserror::Error;

/// Why a string is not a reference (OCI distribution specification, "Pulling manifests").
#[derive(Clone, Copy, Debug, PartialEq, Eq, Error)]
pub enum ParseError {
    /// The text is empty.
    #[error("the reference is empty: give [domain/]path[:tag][@digest]")]
    NameEmpty,
    /// The text is not in the grammar.
    #[error("the reference is malformed: write it as [domain/]path[:tag][@digest]")]
    ReferenceInvalidFormat,
    /// The repository, including an implied `library/`, has more than 255 characters.
    #[error("the repository has more than 255 characters: give a shorter one")]
    NameTooLong,
    /// The digest has an unsupported algorithm.
    #[error("the digest's algorithm is not sha256, sha384 or sha512: use one of these")]
    DigestUnsupported,
    /// The digest has the wrong number of digits for its algorithm.
    #[error("the digest has the wrong number of digits for its algorithm: pass all of them")]
    DigestInvalidLength,
    /// The allocator is out of memory.
    #[error("out of memory: free some and try again")]
    WantOfMemory,
}

impl Copied for ParseError {
    fn copy(&self, _alloc: Global) -> Result<ParseError, AllocError> {
        Ok(*self)
    }
}

impl From<AllocError> for ParseError {
    ghost use Rattle.std.specs.Prelude.{◌≡◌};
    ghost use Rattle.oci_names.specs.declared.parse_error.ParseError.TheVariants.{WantOfMemory};

    ghost from_gives = { λ _ e. e ≡ WantOfMemory };

    fn from(_error: AllocError) -> ParseError {
        ParseError::WantOfMemory
    }
}
