// The pushes of an image to a target.
ghost use Rattle.std.specs.Prelude.{◌≡◌, List, [], ◌∷◌, ◌++◌, IfOk, IfErr, OnOk, Some, Ok, Err, false};
ghost use Rattle.oci_auth.specs.declared.token_type.RegistryOperation.TheVariants.{Push as ForPush};
ghost use Rattle.oci_names.specs.Reference.{resolved_registry};
ghost use Rattle.oci_protocol.specs.Runs.{Meets};
ghost use Rattle.engine_terms.specs.Error.{is_memory};
ghost use Rattle.oci_engine.specs.Confinement.{StaysFor};
ghost use Rattle.oci_engine.specs.Kept.{auth_state_of};
ghost use Rattle.oci_engine.specs.Refusals.{FaultCounted, at_moment};
ghost use Rattle.registry_cache.specs.Auths.{registry_auth};
ghost use Rattle.registry_calls.specs.Direct.{reference_in};
ghost use Rattle.cosign_chain.specs.declared.image.VerifiedImage.{VerifiedImage as Found};
ghost use Rattle.pull_mirror.specs.Copies.{all_pushed, image_copied, mirrored_row, push_row, with_stored};
ghost use Rattle.pull_mirror.specs.Errors.{IfRefused, IsRefusalOf, as_answered, error_of, url_answered};
ghost use Rattle.pull_mirror.specs.Plans.{IsPlan, push_of, pushes_of};
ghost use Rattle.pull_mirror.specs.Pushes.{Push, digests_of, push_digest, pushes};
ghost use Rattle.pull_mirror.specs.Stopped.{Stopped};
ghost use Rattle.pull_mirror.specs.Underway.{Made};

use crate::planning::{Plan, Planned, plan_for};
use crate::refusals::{PushRefusal, PushReport, refusal_of};
use crate::signatures::signature_text;
use cosign_chain::VerifiedImage;
use engine_terms::OciDistributionError;
use json_values::{Blob, Copied, List, Text};
use oci_auth::RegistryAuth;
use oci_engine::Client;
use oci_names::Reference;
use oci_transport::Transport;
use registry_cache::Auth;
use registry_calls::OciReference;
use std::alloc::Global;

// Sends one push, and returns the URL at which its bytes are then.
fn send<B: Transport>(
    alloc: Global,
    client: &mut Client,
    transport: &mut B,
    moment: u64,
    target: &Reference,
    push: &Planned<'_>,
) -> Result<Text, OciDistributionError>
    ensures run { Meets is_memory (push_row (at_moment client.old moment) target.now (push_of push.now))
        (B.state transport.old) (B.state transport.new) (auth_state_of client.old) (auth_state_of client.new) result }
    ensures settings { client.new.settings ≡ client.old.settings }
{
    match push {
        Planned::Blob { digest, bytes } => {
            client.push_blob(alloc, transport, moment, target, *bytes, digest.as_str())
        }
        Planned::Manifest {
            reference,
            bytes,
            content_type,
            ..
        } => {
            let body = Blob::new(alloc, *bytes)?;
            let kind = content_type.as_str();
            client.push_manifest_raw(alloc, transport, moment, reference, body, kind)
        }
    }
}

fn digest_of<'p>(push: &'p Planned<'_>) -> &'p Text
    ensures { result.now ≡ push_digest (push_of push.now) }
{
    match push {
        Planned::Blob { digest, .. } => digest,
        Planned::Manifest { digest, .. } => digest,
    }
}

// Sends one push, and adds its digest to those of the pushes before it.
pub(crate) fn send_next<B: Transport>(
    alloc: Global,
    client: &mut Client,
    transport: &mut B,
    moment: u64,
    target: &Reference,
    push: &Planned<'_>,
    digests: &mut List<Text>,
) -> Result<Text, PushRefusal>
    ensures run { Meets is_memory (push_row (at_moment client.old moment) target.now (push_of push.now))
        (B.state transport.old) (B.state transport.new) (auth_state_of client.old) (auth_state_of client.new)
        (as_answered result) }
    ensures settings { client.new.settings ≡ client.old.settings }
    ensures digests { OnOk result (digests.new ≡ digests.old ++ push_digest (push_of push.now) ∷ []) }
    ensures refusal { IfErr result (IsRefusalOf (push_digest (push_of push.now))) }
{
    let name = digest_of(push).copy(alloc)?;
    let digest = digest_of(push).copy(alloc)?;
    digests.push(digest)?;
    let error = match send(alloc, client, transport, moment, target, push) {
        Ok(url) => return Ok(url),
        Err(error) => error,
    };
    Err(refusal_of(name, error))
}

// Sends each push, in order.
pub(crate) fn send_each<B: Transport>(
    alloc: Global,
    client: &mut Client,
    transport: &mut B,
    moment: u64,
    target: &Reference,
    pushes: &[Planned<'_>],
    digests: &mut List<Text>,
) -> Result<(), PushRefusal>
    ensures made { OnOk result (Made (at_moment client.old moment) target.now (pushes_of pushes.now)
        (B.state transport.old) (B.state transport.new) (auth_state_of client.old) (auth_state_of client.new)) }
    ensures settings { client.new.settings ≡ client.old.settings }
    ensures digests { OnOk result (digests.new ≡ digests.old ++ digests_of (pushes_of pushes.now)) }
    ensures refusal { IfErr result (λ e. (rest : List Push) → Meets is_memory
        (all_pushed (at_moment client.old moment) target.now (pushes_of pushes.now ++ rest))
        (B.state transport.old) (B.state transport.new) (auth_state_of client.old) (auth_state_of client.new)
        (Err (error_of e))) }
    ensures stopped { IfErr result (λ e. IfRefused e (λ digest error. (rest : List Push) →
        Stopped (at_moment client.old moment) target.now (pushes_of pushes.now ++ rest) (B.state transport.old)
        (B.state transport.new) (auth_state_of client.old) (auth_state_of client.new) digest error
        × (is_memory error ≡ false))) }
{
    for push in pushes {
        send_next(alloc, client, transport, moment, target, push, digests)?;
    }
    Ok(())
}

// Sends the pushes of an image, to a client that stores the target's credentials.
fn send_plan<B: Transport>(
    alloc: Global,
    client: &mut Client,
    transport: &mut B,
    moment: u64,
    target: &Reference,
    plan: &Plan<'_>,
) -> Result<PushReport, PushRefusal>
    ensures run { (v : Found) → IsPlan v target.now plan.now → Meets is_memory
        (image_copied (at_moment client.old moment) target.now v)
        (B.state transport.old) (B.state transport.new) (auth_state_of client.old) (auth_state_of client.new)
        (url_answered result) }
    ensures settings { client.new.settings ≡ client.old.settings }
    ensures pushed { (v : Found) → IsPlan v target.now plan.now
        → IfOk result (λ report. report.pushed ≡ digests_of (pushes v target.now)) }
    ensures stopped { (v : Found) → IsPlan v target.now plan.now → IfErr result (λ e. IfRefused e (λ digest error.
        Stopped (at_moment client.old moment) target.now (pushes v target.now) (B.state transport.old)
        (B.state transport.new) (auth_state_of client.old) (auth_state_of client.new) digest error
        × (is_memory error ≡ false))) }
{
    let mut pushed = List::new(alloc);
    let first = plan.first.as_slice();
    send_each(alloc, client, transport, moment, target, first, &mut pushed)?;
    let document = &plan.document;
    let manifest_url = send_next(
        alloc,
        client,
        transport,
        moment,
        target,
        document,
        &mut pushed,
    )?;
    let signature = &plan.signature;
    send_next(
        alloc,
        client,
        transport,
        moment,
        target,
        signature,
        &mut pushed,
    )?;
    Ok(PushReport {
        pushed,
        manifest_url,
    })
}

// Stores the target's credentials, and sends the pushes of an image.
fn send_stored<B: Transport>(
    alloc: Global,
    client: &mut Client,
    transport: &mut B,
    moment: u64,
    target: &Reference,
    auth: &RegistryAuth,
    plan: &Plan<'_>,
) -> Result<PushReport, PushRefusal>
    ensures run { (v : Found) → IsPlan v target.now plan.now → Meets is_memory
        (mirrored_row (at_moment client.old moment) target.now auth.now v)
        (B.state transport.old) (B.state transport.new) (auth_state_of client.old) (auth_state_of client.new)
        (url_answered result) }
    ensures settings { client.new.settings ≡ client.old.settings }
    ensures pushed { (v : Found) → IsPlan v target.now plan.now
        → IfOk result (λ report. report.pushed ≡ digests_of (pushes v target.now)) }
    ensures stopped { (v : Found) → IsPlan v target.now plan.now → IfErr result (λ e. IfRefused e (λ digest error.
        Stopped (at_moment client.old moment) target.now (pushes v target.now) (B.state transport.old)
        (B.state transport.new) (with_stored target.now auth.now (auth_state_of client.old))
        (auth_state_of client.new) digest error × (is_memory error ≡ false))) }
{
    client.store_auth_if_needed(target.resolve_registry(), auth)?;
    send_plan(alloc, client, transport, moment, target, plan)
}

/// Pushes an image that was pulled: its layers, its configuration, its signature's layer and an empty configuration,
/// each digest once; if an index led to its manifest, that manifest by its digest; the document that was signed under
/// the target's tag; and the signature's manifest, a payload's under the digest's signature tag and a bundle's by its
/// own digest. The bytes are those of the image. Every part is sent, also one that the target has. The credentials are
/// stored first, unless some are stored for the target's registry. `moment` is in seconds since 1970.
///
/// Returns `Refused` with the first push that was refused; nothing was sent after it.
pub fn push_image<B: Transport>(
    alloc: Global,
    client: &mut Client,
    transport: &mut B,
    moment: u64,
    target: &OciReference,
    auth: &Auth,
    found: &VerifiedImage,
) -> Result<PushReport, PushRefusal>
    ensures run { Meets is_memory
        (mirrored_row (at_moment client.old moment) (reference_in target.now) (registry_auth auth.now) found.now)
        (B.state transport.old) (B.state transport.new) (auth_state_of client.old) (auth_state_of client.new)
        (url_answered result) }
    ensures settings { client.new.settings ≡ client.old.settings }
    ensures pushed { IfOk result
        (λ report. report.pushed ≡ digests_of (pushes found.now (reference_in target.now))) }
    ensures stopped { IfErr result (λ e. IfRefused e (λ digest error.
        Stopped (at_moment client.old moment) (reference_in target.now)
        (pushes found.now (reference_in target.now)) (B.state transport.old) (B.state transport.new)
        (with_stored (reference_in target.now) (registry_auth auth.now) (auth_state_of client.old))
        (auth_state_of client.new) digest error × (is_memory error ≡ false))) }
    ensures confined { StaysFor ForPush client.old client.new moment (reference_in target.now)
        (Some (registry_auth auth.now)) (B.state transport.old) (B.state transport.new) }
    ensures fault { FaultCounted (B.state transport.old) (B.state transport.new) (url_answered result) }
{
    let auth = auth.to_registry(alloc)?;
    let target = target.reference();
    let text = signature_text(alloc, &found.signature, &found.digest, &found.first)?;
    let plan = plan_for(alloc, target, found, &text)?;
    send_stored(alloc, client, transport, moment, target, &auth, &plan)
}
