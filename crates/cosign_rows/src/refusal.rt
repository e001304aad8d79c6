//! Why an image was not pulled.
use crate::found::Skipped;
use cosign_parts::SignatureLayer;
use engine_terms::OciDistributionError;
use json_values::{Copied, List, Text, copy_all, row};
use registry_calls::SigstoreError;
use std::alloc::{AllocError, AllocFailed, Global};
use std::fmt;
use thiserror::Error;

/// Why an image was not pulled.
#[derive(Drop, Error)]
pub enum PullRefusal {
    /// The policy has no constraint. No request was sent.
    #[error("the policy has no constraint: add one that says who must have signed")]
    EmptyPolicy,
    /// The image's reference does not round-trip, and no request was sent; or the one by the returned digest does not.
    #[error("the reference is malformed: write it as [domain/]path[:tag][@digest]")]
    OciReferenceNotValidError {
        reference: Text,
    },
    /// The image's digest was not returned.
    #[error("the image's digest was not returned: read the error of the registry's client")]
    RegistryFetchManifestError {
        image: Text,
        error: OciDistributionError,
    },
    /// A signature layer stands for the digest, but its image was not pulled.
    #[error("the image was not pulled: read the error of the registry's client")]
    RegistryPullError {
        image: Text,
        error: OciDistributionError,
    },
    /// No signature layer that was found stands for the digest.
    #[error("no signature of the image satisfies the policy: read which layers were found and why others were skipped")]
    Unsatisfied {
        digest: Text,
        collected: List<SignatureLayer>,
        skipped: List<Skipped>,
    },
    /// The allocator had no memory.
    #[error("out of memory: free some and try again")]
    WantOfMemory,
}

impl PullRefusal {
    ghost use Rattle.std.specs.Prelude.{◌≡◌};
    ghost use Rattle.cosign_rows.specs.Refusal.{is_memory};

    /// Returns whether memory ran out; the error is not about the image then.
    pub fn is_memory(&self) -> bool
        ensures { result ≡ is_memory self.now }
    {
        matches!(self, PullRefusal::WantOfMemory)
    }
}

impl Copied for PullRefusal {
    fn copy(&self, alloc: Global) -> Result<PullRefusal, AllocError> {
        Ok(match self {
            PullRefusal::EmptyPolicy => PullRefusal::EmptyPolicy,
            PullRefusal::OciReferenceNotValidError { reference } => {
                let reference = reference.copy(alloc)?;
                PullRefusal::OciReferenceNotValidError { reference }
            }
            PullRefusal::RegistryFetchManifestError { image, error } => {
                let row!(image, error) = copy_all(alloc, row!(image, error))?;
                PullRefusal::RegistryFetchManifestError { image, error }
            }
            PullRefusal::RegistryPullError { image, error } => {
                let row!(image, error) = copy_all(alloc, row!(image, error))?;
                PullRefusal::RegistryPullError { image, error }
            }
            PullRefusal::Unsatisfied {
                digest,
                collected,
                skipped,
            } => {
                let row!(digest, collected, skipped) = copy_all(
                    alloc,
                    row!(digest, collected, skipped),
                )?;
                PullRefusal::Unsatisfied {
                    digest,
                    collected,
                    skipped,
                }
            }
            PullRefusal::WantOfMemory => PullRefusal::WantOfMemory,
        })
    }
}

/// Prints the number of signature layers that were found, not the layers.
impl fmt::Debug for PullRefusal {
    fn fmt<W: fmt::Write>(&self, f: &mut fmt::Formatter<W>) -> fmt::Result {
        match self {
            PullRefusal::EmptyPolicy => f.write_str("EmptyPolicy"),
            PullRefusal::OciReferenceNotValidError { reference } => f
                .debug_struct("OciReferenceNotValidError")
                .field("reference", &reference.as_str())
                .finish(),
            PullRefusal::RegistryFetchManifestError { image, error } => f
                .debug_struct("RegistryFetchManifestError")
                .field("image", &image.as_str())
                .field("error", error)
                .finish(),
            PullRefusal::RegistryPullError { image, error } => f
                .debug_struct("RegistryPullError")
                .field("image", &image.as_str())
                .field("error", error)
                .finish(),
            PullRefusal::Unsatisfied {
                digest,
                collected,
                skipped,
            } => f
                .debug_struct("Unsatisfied")
                .field("digest", &digest.as_str())
                .field("collected", &collected.as_slice().len())
                .field("skipped", &skipped.as_slice())
                .finish(),
            PullRefusal::WantOfMemory => f.write_str("WantOfMemory"),
        }
    }
}

impl From<AllocError> for PullRefusal {
    ghost use Rattle.std.specs.Prelude.{◌≡◌};
    ghost use Rattle.cosign_rows.specs.declared.refusal.PullRefusal.TheVariants.{WantOfMemory};

    ghost from_gives = { λ _ e. e ≡ WantOfMemory };

    fn from(_: AllocError) -> Self {
        PullRefusal::WantOfMemory
    }
}

impl<T: Drop> From<AllocFailed<T>> for PullRefusal {
    ghost use Rattle.std.specs.Prelude.{◌≡◌};
    ghost use Rattle.cosign_rows.specs.declared.refusal.PullRefusal.TheVariants.{WantOfMemory};

    ghost from_gives = { λ _ e. e ≡ WantOfMemory };

    fn from(_: AllocFailed<T>) -> Self {
        PullRefusal::WantOfMemory
    }
}

impl From<SigstoreError> for PullRefusal {
    ghost use Rattle.std.specs.Prelude.{◌≡◌};
    ghost use Rattle.cosign_rows.specs.Refusal.{refused_as};

    ghost from_gives = { λ e r. r ≡ refused_as e };

    fn from(error: SigstoreError) -> Self {
        match error {
            SigstoreError::OciReferenceNotValidError { reference } => {
                PullRefusal::OciReferenceNotValidError { reference }
            }
            SigstoreError::RegistryFetchManifestError { image, error } => {
                PullRefusal::RegistryFetchManifestError { image, error }
            }
            SigstoreError::RegistryPullError { image, error } => {
                PullRefusal::RegistryPullError { image, error }
            }
            SigstoreError::RegistryPullManifestError { image, error } => {
                PullRefusal::RegistryPullError { image, error }
            }
            SigstoreError::RegistryPushError { image, error } => {
                PullRefusal::RegistryPullError { image, error }
            }
            SigstoreError::WantOfMemory => PullRefusal::WantOfMemory,
        }
    }
}
