use json_values::Copied;
use std::alloc::{AllocError, AllocFailed, Global};
use thiserror::Error;

/// Why a value is not the document.
#[derive(Clone, Copy, Debug, PartialEq, Eq, Error)]
pub enum ReadError {
    /// The value contains a float.
    #[error("the value contains a float: write its numbers as integers")]
    Float,
    /// The value does not match its table.
    #[error("the value does not match the document: compare their members")]
    Shape,
    /// The value matches the tables of two documents.
    #[error("the value matches two documents: remove the members of one of them")]
    Ambiguous,
    #[error("out of memory: free some and try again")]
    WantOfMemory,
}

impl Copied for ReadError {
    fn copy(&self, _alloc: Global) -> Result<ReadError, AllocError> {
        Ok(*self)
    }
}

impl From<AllocError> for ReadError {
    ghost use Rattle.std.specs.Prelude.{◌≡◌};
    ghost use Rattle.json_tables.specs.declared.error.ReadError.TheVariants.{WantOfMemory};

    ghost from_gives = { λ _ e. e ≡ WantOfMemory };

    fn from(_error: AllocError) -> ReadError {
        ReadError::WantOfMemory
    }
}

impl<T: Drop> From<AllocFailed<T>> for ReadError {
    ghost use Rattle.std.specs.Prelude.{◌≡◌};
    ghost use Rattle.json_tables.specs.declared.error.ReadError.TheVariants.{WantOfMemory};

    ghost from_gives = { λ _ e. e ≡ WantOfMemory };

    fn from(_error: AllocFailed<T>) -> ReadError {
        ReadError::WantOfMemory
    }
}
