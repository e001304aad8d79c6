// Copies of verified images.
ghost use Rattle.std.specs.Prelude.{◌≡◌, All, IfOk, IfErr, IsErr, Some, Ok, false};
ghost use Rattle.oci_auth.specs.declared.token_type.RegistryOperation.TheVariants.{Push as ForPush};
ghost use Rattle.oci_names.specs.Reference.{whole_text};
ghost use Rattle.oci_protocol.specs.Runs.{Meets, Performs, Told};
ghost use Rattle.engine_terms.specs.Contexts.{within};
ghost use Rattle.engine_terms.specs.Error.{is_memory as out_of_memory};
ghost use Rattle.oci_engine.specs.Confinement.{StaysFor};
ghost use Rattle.oci_engine.specs.Kept.{auth_state_of};
ghost use Rattle.oci_engine.specs.Refusals.{at_moment};
ghost use Rattle.registry_cache.specs.Auths.{registry_auth};
ghost use Rattle.registry_calls.specs.Confinement.{StaysConfined};
ghost use Rattle.registry_calls.specs.Direct.{reference_in};
ghost use Rattle.registry_calls.specs.Error.{FaultCounted, NoSinkFault};
ghost use Rattle.cosign_chain.specs.Chain.{Chain};
ghost use Rattle.cosign_chain.specs.Links.{Links};
ghost use Rattle.cosign_client.specs.State.{client_state, trusts};
ghost use Rattle.cosign_layers.specs.Satisfying.{policy_context};
ghost use Rattle.cosign_rows.specs.Causes.{PullCause};
ghost use Rattle.cosign_rows.specs.Refusal.{is_memory, client_refusal};
ghost use Rattle.cosign_rows.specs.Skips.{CountsFaults, HoldsNoMemoryNorSink, OnSkipped};
ghost use Rattle.cosign_rows.specs.Snapshots.{snapshot_of};
ghost use Rattle.cosign_rows.specs.Sound.{Backed};
ghost use Rattle.cosign_rows.specs.Verified.{verified};
ghost use Rattle.pull_mirror.specs.Copies.{mirrored_row, with_stored};
ghost use Rattle.engine_terms.specs.declared.error.OciDistributionError.TheVariants.{TransportFault};
ghost use Rattle.json_values.specs.Counts.{Increased};
ghost use Rattle.pull_mirror.specs.Errors.{IsTargetOf};
ghost use Rattle.pull_mirror.specs.Found.{IfFound, IfNoTarget, IfNotFound, IfPulled, IfStopped};
ghost use Rattle.pull_mirror.specs.Pushes.{IsNamed, digests_of, pushes};
ghost use Rattle.pull_mirror.specs.Signatures.{AreTyped};
ghost use Rattle.pull_mirror.specs.Stopped.{Stopped};
ghost use Rattle.pull_mirror.specs.Targets.{is_target};

use crate::outcomes::push_pulled;
use crate::refusals::{MirrorError, MirrorReport};
use crate::targets::target_error;
use cosign_client::Client;
use cosign_layers::PullPolicy;
use cosign_parts::{Offline, SignatureVerifier};
use json_values::Text;
use oci_transport::Transport;
use registry_cache::Auth;
use registry_calls::OciReference;
use std::alloc::Global;

/// Copies an image to a target, only if a trusted signature stands for it: it is pulled as `Client::verified_pull`
/// does, and then exactly its bytes are pushed, with that signature, as `push_image` does. `moment` is in seconds since
/// 1970, and the same for both registries.
///
/// Returns `Target` if the target's reference has a digest, has no tag or does not round-trip, without a request;
/// `Pull` if the image was not pulled, with nothing sent to the target; `Push` with the image and the first push that
/// was refused.
pub fn mirror<'a, A: Transport, B: Transport, V: SignatureVerifier, O: Offline>(
    alloc: Global,
    client: &mut Client,
    transport: &mut A,
    moment: u64,
    image: &OciReference,
    auth: &Auth,
    accepted_media_types: &'a [Text],
    policy: &'a PullPolicy,
    verifier: &'a V,
    judge: &'a O,
    target_client: &mut oci_engine::Client,
    target_transport: &mut B,
    target: &OciReference,
    target_auth: &Auth,
) -> Result<MirrorReport, MirrorError>
    ensures target { is_target (reference_in target.now) ≡ false → IfErr result (IsTargetOf (reference_in target.now))
        × IsErr result × (client.new ≡ client.old) × (A.state transport.new ≡ A.state transport.old)
        × (target_client.new ≡ target_client.old)
        × (B.state target_transport.new ≡ B.state target_transport.old) }
    ensures target_cause { IfNoTarget result (λ reference.
        (is_target (reference_in target.now) ≡ false) × (reference ≡ whole_text (reference_in target.now))) }
    ensures run { IfPulled result (λ pulled. Meets is_memory
        (verified (policy_context policy.now (λ b. accepts (b.vtable, b.value))
        (trusts (V.valid verifier.now) (O.vouched judge.now) client.old))
        (within (client_state client.old).settings moment) (reference_in image.now)
        (registry_auth auth.now) accepted_media_types.now)
        (A.state transport.old) (A.state transport.new)
        (client_state client.old).kept (client_state client.new).kept pulled) }
    ensures chain { IfFound result (λ v. Chain
        (policy_context policy.now (λ b. accepts (b.vtable, b.value))
        (trusts (V.valid verifier.now) (O.vouched judge.now) client.old))
        (reference_in image.now) accepted_media_types.now
        (client_state client.old).settings.platform_resolver v) }
    ensures backed { IfFound result (λ v. Told
        (λ c. Backed (client_state client.old).kept (within (client_state client.old).settings moment)
        (reference_in image.now) (registry_auth auth.now) c v)
        (A.state transport.old) (A.state transport.new)) }
    ensures links { IfFound result (λ v. Links (reference_in image.now) accepted_media_types.now v) }
    ensures causes { IfNotFound result (λ e. Told
        (λ c. PullCause (policy_context policy.now (λ b. accepts (b.vtable, b.value))
        (trusts (V.valid verifier.now) (O.vouched judge.now) client.old))
        (within (client_state client.old).settings moment) (reference_in image.now)
        (registry_auth auth.now) accepted_media_types.now
        (snapshot_of (client_state client.old) (A.state transport.old)) c
        (snapshot_of (client_state client.new) (A.state transport.new)) e)
        (A.state transport.old) (A.state transport.new)) }
    ensures fault { IfPulled result
        (λ pulled. FaultCounted client_refusal (A.state transport.old) (A.state transport.new) pulled) }
    ensures no_sink_fault { IfPulled result (λ pulled. NoSinkFault client_refusal pulled) }
    ensures no_memory { IfNotFound result (λ e. (is_memory e ≡ false) × OnSkipped HoldsNoMemoryNorSink e) }
    ensures faults { IfNotFound result (λ e. OnSkipped
        (CountsFaults (A.state transport.old).faults (A.state transport.new).faults) e) }
    ensures unsent { IfNotFound result (λ e. (target_client.new ≡ target_client.old)
        × (B.state target_transport.new ≡ B.state target_transport.old)) }
    ensures mirrored { IfOk result (λ report. Performs
        (mirrored_row (at_moment target_client.old moment) (reference_in target.now) (registry_auth target_auth.now)
        report.found) (B.state target_transport.old) (B.state target_transport.new)
        (auth_state_of target_client.old) (auth_state_of target_client.new) (Ok report.manifest_url)) }
    ensures pushed { IfOk result
        (λ report. report.pushed ≡ digests_of (pushes report.found (reference_in target.now))) }
    ensures named { IfFound result (λ v. All IsNamed (pushes v (reference_in target.now))) }
    ensures typed { IfFound result AreTyped }
    ensures stopped { IfStopped result (λ v digest error. Stopped (at_moment target_client.old moment)
        (reference_in target.now) (pushes v (reference_in target.now))
        (B.state target_transport.old) (B.state target_transport.new)
        (with_stored (reference_in target.now) (registry_auth target_auth.now) (auth_state_of target_client.old))
        (auth_state_of target_client.new) digest error) }
    ensures no_target_memory { IfStopped result (λ v digest error. out_of_memory error ≡ false) }
    ensures target_fault { IfStopped result (λ v digest error. error ≡ TransportFault
        → Increased (B.state target_transport.old).faults (B.state target_transport.new).faults) }
    ensures confined { StaysConfined (client_state client.old) (client_state client.new) moment (reference_in image.now)
        (Some (registry_auth auth.now)) (A.state transport.old) (A.state transport.new) }
    ensures confined_target { StaysFor ForPush target_client.old target_client.new moment (reference_in target.now)
        (Some (registry_auth target_auth.now)) (B.state target_transport.old) (B.state target_transport.new) }
    ensures settings { (client_state client.new).settings ≡ (client_state client.old).settings }
    ensures keys { client.new.rekor_pub_keys ≡ client.old.rekor_pub_keys }
    ensures target_settings { target_client.new.settings ≡ target_client.old.settings }
{
    if let Some(error) = target_error(alloc, target.reference()) {
        return Err(error);
    }
    let pulled = client.verified_pull(
        alloc,
        transport,
        moment,
        image,
        auth,
        accepted_media_types,
        policy,
        verifier,
        judge,
    );
    push_pulled(
        alloc,
        target_client,
        target_transport,
        moment,
        target,
        target_auth,
        pulled,
    )
}
