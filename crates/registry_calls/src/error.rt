// Errors of a client's calls, with the image of the call.
ghost use Rattle.std.specs.Prelude.{◌≡◌};
ghost use Rattle.registry_calls.specs.Error.{is_memory};

use engine_terms::OciDistributionError;
use json_values::{Copied, Text, copy_all, row};
use std::alloc::{AllocError, AllocFailed, Global};
use thiserror::Error;

/// Why a call was refused. `image` is the whole text of the requested reference.
#[derive(Debug, Drop, Error)]
pub enum SigstoreError {
    /// The text is not a reference, or does not round-trip.
    #[error("the reference is malformed: write it as [domain/]path[:tag][@digest]")]
    OciReferenceNotValidError {
        reference: Text,
    },
    /// The image's digest was not returned.
    #[error("the image's digest was not returned: read the error of the registry's client")]
    RegistryFetchManifestError {
        image: Text,
        error: OciDistributionError,
    },
    /// An image, a document or a blob was not pulled.
    #[error("the image was not pulled: read the error of the registry's client")]
    RegistryPullError {
        image: Text,
        error: OciDistributionError,
    },
    /// A manifest was not pulled.
    #[error("the manifest was not pulled: read the error of the registry's client")]
    RegistryPullManifestError {
        image: Text,
        error: OciDistributionError,
    },
    /// An image was not pushed.
    #[error("the image was not pushed: read the error of the registry's client")]
    RegistryPushError {
        image: Text,
        error: OciDistributionError,
    },
    /// The allocator had no memory.
    #[error("out of memory: free some and try again")]
    WantOfMemory,
}

impl SigstoreError {
    /// Returns whether memory ran out.
    pub fn is_memory(&self) -> bool
        ensures { result ≡ is_memory self.now }
    {
        matches!(self, SigstoreError::WantOfMemory)
    }
}

impl Copied for SigstoreError {
    fn copy(&self, alloc: Global) -> Result<SigstoreError, AllocError> {
        Ok(match self {
            SigstoreError::OciReferenceNotValidError { reference } => {
                let reference = reference.copy(alloc)?;
                SigstoreError::OciReferenceNotValidError { reference }
            }
            SigstoreError::RegistryFetchManifestError { image, error } => {
                let row!(image, error) = copy_all(alloc, row!(image, error))?;
                SigstoreError::RegistryFetchManifestError { image, error }
            }
            SigstoreError::RegistryPullError { image, error } => {
                let row!(image, error) = copy_all(alloc, row!(image, error))?;
                SigstoreError::RegistryPullError { image, error }
            }
            SigstoreError::RegistryPullManifestError { image, error } => {
                let row!(image, error) = copy_all(alloc, row!(image, error))?;
                SigstoreError::RegistryPullManifestError { image, error }
            }
            SigstoreError::RegistryPushError { image, error } => {
                let row!(image, error) = copy_all(alloc, row!(image, error))?;
                SigstoreError::RegistryPushError { image, error }
            }
            SigstoreError::WantOfMemory => SigstoreError::WantOfMemory,
        })
    }
}

impl From<AllocError> for SigstoreError {
    ghost use Rattle.registry_calls.specs.declared.error.SigstoreError.TheVariants.{WantOfMemory};

    ghost from_gives = { λ _ e. e ≡ WantOfMemory };

    fn from(_: AllocError) -> Self {
        SigstoreError::WantOfMemory
    }
}

impl<T: Drop> From<AllocFailed<T>> for SigstoreError {
    ghost use Rattle.registry_calls.specs.declared.error.SigstoreError.TheVariants.{WantOfMemory};

    ghost from_gives = { λ _ e. e ≡ WantOfMemory };

    fn from(_: AllocFailed<T>) -> Self {
        SigstoreError::WantOfMemory
    }
}
