// Where an image can be copied to.
ghost use Rattle.std.specs.Prelude.{◌≡◌, IfOk};
ghost use Rattle.pull_mirror.specs.Targets.{is_target};
ghost use Rattle.pull_mirror.specs.Errors.{IsTargetError, IsTargetOf};

use crate::refusals::MirrorError;
use oci_names::Reference;
use std::alloc::{AllocError, Global};

/// Returns whether an image can be copied to this reference: it has a tag and no digest, and round-trips.
pub fn is_target(alloc: Global, target: &Reference) -> Result<bool, AllocError>
    ensures { IfOk result (λ b. b ≡ is_target target.now) }
{
    let reads_back = target.reads_back(alloc)?;
    Ok(target.digest().is_none() && target.tag().is_some() && reads_back)
}

// The refusal of a target.
fn target_refusal(alloc: Global, target: &Reference) -> MirrorError
    ensures { IsTargetOf target.now result }
{
    match target.whole(alloc) {
        Ok(reference) => MirrorError::Target { reference },
        Err(_) => MirrorError::WantOfMemory,
    }
}

// The error of a copy to this target: `None` if an image can be copied to it.
pub(crate) fn target_error(alloc: Global, target: &Reference) -> Option<MirrorError>
    ensures { IsTargetError target.now result }
{
    match is_target(alloc, target) {
        Ok(true) => None,
        Ok(false) => Some(target_refusal(alloc, target)),
        Err(_) => Some(MirrorError::WantOfMemory),
    }
}
