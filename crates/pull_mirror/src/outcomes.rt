// The outcomes of a copy, by what the pull and the pushes return.
ghost use Rattle.std.specs.Prelude.{◌≡◌, IsErr, Ok};
ghost use Rattle.oci_engine.specs.Kept.{auth_state_of};
ghost use Rattle.oci_engine.specs.Refusals.{at_moment};
ghost use Rattle.registry_cache.specs.Auths.{registry_auth};
ghost use Rattle.registry_calls.specs.Direct.{reference_in};
ghost use Rattle.pull_mirror.specs.Found.{Follows};
ghost use Rattle.pull_mirror.specs.Sides.{TargetSide, copy_of, pull_error};

use crate::refusals::{MirrorError, MirrorReport, PushRefusal, PushReport};
use crate::sending::push_image;
use cosign_chain::VerifiedImage;
use cosign_rows::PullRefusal;
use oci_engine::Client;
use oci_transport::Transport;
use registry_cache::Auth;
use registry_calls::OciReference;
use std::alloc::Global;

// The result of a copy whose pushes had this outcome.
fn copied(
    found: VerifiedImage,
    outcome: Result<PushReport, PushRefusal>,
) -> Result<MirrorReport, MirrorError>
    ensures { result ≡ copy_of found outcome }
{
    match outcome {
        Ok(report) => Ok(MirrorReport {
            found,
            pushed: report.pushed,
            manifest_url: report.manifest_url,
        }),
        Err(PushRefusal::Refused { digest, error }) => Err(MirrorError::Push {
            found,
            digest,
            error,
        }),
        Err(PushRefusal::WantOfMemory) => Err(MirrorError::WantOfMemory),
    }
}

// The error of a copy whose pull was refused.
fn pull_error(refusal: PullRefusal) -> MirrorError
    ensures { result ≡ pull_error refusal }
{
    if refusal.is_memory() {
        return MirrorError::WantOfMemory;
    }
    MirrorError::Pull(refusal)
}

// Pushes an image that was pulled.
fn push_found<B: Transport>(
    alloc: Global,
    client: &mut Client,
    transport: &mut B,
    moment: u64,
    target: &OciReference,
    auth: &Auth,
    found: VerifiedImage,
) -> Result<MirrorReport, MirrorError>
    ensures follows { Follows (Ok found) result }
    ensures side { TargetSide (at_moment client.old moment) (reference_in target.now) (registry_auth auth.now)
        (B.state transport.old) (B.state transport.new) (auth_state_of client.old) (auth_state_of client.new) result }
    ensures settings { client.new.settings ≡ client.old.settings }
{
    let outcome = push_image(alloc, client, transport, moment, target, auth, &found);
    copied(found, outcome)
}

// Pushes an image if it was pulled, and returns what the copy returns.
pub(crate) fn push_pulled<B: Transport>(
    alloc: Global,
    client: &mut Client,
    transport: &mut B,
    moment: u64,
    target: &OciReference,
    auth: &Auth,
    pulled: Result<VerifiedImage, PullRefusal>,
) -> Result<MirrorReport, MirrorError>
    ensures follows { Follows pulled result }
    ensures side { TargetSide (at_moment client.old moment) (reference_in target.now) (registry_auth auth.now)
        (B.state transport.old) (B.state transport.new) (auth_state_of client.old) (auth_state_of client.new) result }
    ensures settings { client.new.settings ≡ client.old.settings }
    ensures unsent { IsErr pulled → (client.new ≡ client.old) × (B.state transport.new ≡ B.state transport.old) }
{
    let found = match pulled {
        Ok(found) => found,
        Err(refusal) => return Err(pull_error(refusal)),
    };
    push_found(alloc, client, transport, moment, target, auth, found)
}
