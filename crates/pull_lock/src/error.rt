// Why there is no lock or no file of one.
use std::alloc::AllocError;
use thiserror::Error;

/// Why there is no lock, or no file of one.
#[derive(Clone, Copy, Debug, PartialEq, Eq, Error)]
pub enum LockError {
    /// A document of the image, or its signature layer, is not UTF-8.
    #[error("a document or the signature of the image is not UTF-8: this image cannot be locked")]
    NotText,
    /// The entries do not increase strictly by the bytes of their images.
    #[error("the entries are not in the order of their images: list each image once, in the order of their bytes")]
    Order,
    /// The file is not JSON of a lock with version 1.
    #[error("the lock file is not a lock of version 1: write it anew")]
    Unreadable,
    /// The file is not the canonical text of its value.
    #[error("the lock file was edited: write it anew")]
    NotCanonical,
    #[error("out of memory: free some and try again")]
    WantOfMemory,
}

impl From<AllocError> for LockError {
    ghost use Rattle.std.specs.Prelude.{◌≡◌};
    ghost use Rattle.pull_lock.specs.declared.error.LockError.TheVariants.{WantOfMemory};

    ghost from_gives = { λ _ e. e ≡ WantOfMemory };

    fn from(_error: AllocError) -> LockError {
        LockError::WantOfMemory
    }
}
