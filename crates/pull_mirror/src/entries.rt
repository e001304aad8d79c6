// The pushes of one image of an index.
ghost use Rattle.std.specs.Prelude.{◌≡◌, IfErr, IfOk, Some, false};
ghost use Rattle.oci_auth.specs.declared.token_type.RegistryOperation.TheVariants.{Push as ForPush};
ghost use Rattle.oci_protocol.specs.Runs.{Meets};
ghost use Rattle.engine_terms.specs.Error.{is_memory};
ghost use Rattle.oci_engine.specs.Confinement.{StaysFor};
ghost use Rattle.oci_engine.specs.Kept.{auth_state_of};
ghost use Rattle.oci_engine.specs.Refusals.{FaultCounted, at_moment};
ghost use Rattle.registry_cache.specs.Auths.{registry_auth};
ghost use Rattle.registry_calls.specs.Direct.{reference_in};
ghost use Rattle.pull_mirror.specs.Copies.{with_stored};
ghost use Rattle.pull_mirror.specs.EntryPushes.{entry_pushed, entry_pushes, sent_of, stored_pushed};
ghost use Rattle.pull_mirror.specs.Errors.{IfRefused};
ghost use Rattle.pull_mirror.specs.Plans.{pushes_of};
ghost use Rattle.pull_mirror.specs.Pushes.{digests_of};
ghost use Rattle.pull_mirror.specs.Stopped.{Stopped};

use crate::planning::{Planned, entry_pushes};
use crate::refusals::PushRefusal;
use crate::sending::send_each;
use cosign_chain::VerifiedImage;
use json_values::{List, Text};
use oci_auth::RegistryAuth;
use oci_engine::Client;
use oci_names::Reference;
use oci_transport::Transport;
use registry_cache::Auth;
use registry_calls::OciReference;
use std::alloc::Global;

// Stores the target's credentials, and sends each push, in order.
fn send_stored_each<B: Transport>(
    alloc: Global,
    client: &mut Client,
    transport: &mut B,
    moment: u64,
    target: &Reference,
    auth: &RegistryAuth,
    pushes: &[Planned<'_>],
) -> Result<List<Text>, PushRefusal>
    ensures run { Meets is_memory
        (stored_pushed (at_moment client.old moment) target.now auth.now (pushes_of pushes.now))
        (B.state transport.old) (B.state transport.new) (auth_state_of client.old) (auth_state_of client.new)
        (sent_of result) }
    ensures settings { client.new.settings ≡ client.old.settings }
    ensures pushed { IfOk result (λ digests. digests ≡ digests_of (pushes_of pushes.now)) }
    ensures stopped { IfErr result (λ e. IfRefused e (λ digest error.
        Stopped (at_moment client.old moment) target.now (pushes_of pushes.now) (B.state transport.old)
        (B.state transport.new) (with_stored target.now auth.now (auth_state_of client.old))
        (auth_state_of client.new) digest error × (is_memory error ≡ false))) }
{
    client.store_auth_if_needed(target.resolve_registry(), auth)?;
    let mut pushed = List::new(alloc);
    send_each(
        alloc,
        client,
        transport,
        moment,
        target,
        pushes,
        &mut pushed,
    )?;
    Ok(pushed)
}

/// Pushes an image that an index names: its layers and its configuration, each digest once, and its manifest by its
/// digest. Nothing is pushed under a tag, and no signature. The bytes are those of the image. The credentials are
/// stored first, unless some are stored for the target's registry. `moment` is in seconds since 1970. The result is the
/// digest of each push, in order.
///
/// Returns `Refused` with the first push that was refused; nothing was sent after it.
pub fn push_entry<B: Transport>(
    alloc: Global,
    client: &mut Client,
    transport: &mut B,
    moment: u64,
    target: &OciReference,
    auth: &Auth,
    found: &VerifiedImage,
) -> Result<List<Text>, PushRefusal>
    ensures run { Meets is_memory
        (entry_pushed (at_moment client.old moment) (reference_in target.now) (registry_auth auth.now) found.now)
        (B.state transport.old) (B.state transport.new) (auth_state_of client.old) (auth_state_of client.new)
        (sent_of result) }
    ensures settings { client.new.settings ≡ client.old.settings }
    ensures pushed { IfOk result
        (λ digests. digests ≡ digests_of (entry_pushes found.now (reference_in target.now))) }
    ensures stopped { IfErr result (λ e. IfRefused e (λ digest error.
        Stopped (at_moment client.old moment) (reference_in target.now)
        (entry_pushes found.now (reference_in target.now)) (B.state transport.old) (B.state transport.new)
        (with_stored (reference_in target.now) (registry_auth auth.now) (auth_state_of client.old))
        (auth_state_of client.new) digest error × (is_memory error ≡ false))) }
    ensures confined { StaysFor ForPush client.old client.new moment (reference_in target.now)
        (Some (registry_auth auth.now)) (B.state transport.old) (B.state transport.new) }
    ensures fault { FaultCounted (B.state transport.old) (B.state transport.new) (sent_of result) }
{
    let auth = auth.to_registry(alloc)?;
    let target = target.reference();
    let plan = entry_pushes(alloc, target, found)?;
    send_stored_each(
        alloc,
        client,
        transport,
        moment,
        target,
        &auth,
        plan.as_slice(),
    )
}
