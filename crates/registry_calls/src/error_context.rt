// Errors of the registry's client, with the context of the call.
ghost use Rattle.std.specs.Prelude.{◌≡◌, IfOk};
ghost use Rattle.oci_names.specs.Reference.{whole_text};
ghost use Rattle.json_values.specs.Refusals.{Matches};
ghost use Rattle.registry_calls.specs.Error.{is_memory};
ghost use Rattle.registry_calls.specs.ErrorContext.{refusal, with_error_context};

use crate::error::SigstoreError;
use engine_terms::OciDistributionError;
use oci_names::Reference;
use std::alloc::{AllocError, Global};

/// The calls, by the error variant that each returns.
#[derive(Clone, Copy, Debug, PartialEq, Eq)]
pub enum Called {
    FetchManifest,
    Pull,
    PullManifest,
    Push,
}

fn refusal(
    alloc: Global,
    called: Called,
    image: &Reference,
    error: OciDistributionError,
) -> Result<SigstoreError, AllocError>
    ensures { IfOk result (λ e. e ≡ refusal called (whole_text image.now) error) }
{
    let image = image.whole(alloc)?;
    Ok(match called {
        Called::FetchManifest => SigstoreError::RegistryFetchManifestError { image, error },
        Called::Pull => SigstoreError::RegistryPullError { image, error },
        Called::PullManifest => SigstoreError::RegistryPullManifestError { image, error },
        Called::Push => SigstoreError::RegistryPushError { image, error },
    })
}

/// Returns the same result, with an error converted to the call's error variant.
pub fn with_error_context<A: Drop>(
    alloc: Global,
    called: Called,
    image: &Reference,
    outcome: Result<A, OciDistributionError>,
) -> Result<A, SigstoreError>
    ensures { Matches is_memory result (with_error_context called (whole_text image.now) outcome) }
{
    match outcome {
        Ok(answer) => Ok(answer),
        Err(error) => {
            if error.is_memory() {
                return Err(SigstoreError::WantOfMemory);
            }
            Err(refusal(alloc, called, image, error)?)
        }
    }
}
