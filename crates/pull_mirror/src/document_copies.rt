// Copies of documents whose blobs the target has.
ghost use Rattle.std.specs.Prelude.{◌≡◌, All, IfErr, IfOk, None, false};
ghost use Rattle.oci_names.specs.Reference.{mirror_of};
ghost use Rattle.oci_protocol.specs.Runs.{Meets, Told};
ghost use Rattle.engine_terms.specs.Error.{is_memory};
ghost use Rattle.oci_engine.specs.Kept.{auth_state_of};
ghost use Rattle.oci_engine.specs.Refusals.{FaultCounted, at_moment};
ghost use Rattle.registry_cache.specs.Auths.{registry_auth};
ghost use Rattle.registry_calls.specs.Direct.{reference_in};
ghost use Rattle.pull_mirror.specs.Asked.{CopyWithin, StoppedCopy, outcome_of};
ghost use Rattle.pull_mirror.specs.Copies.{with_stored};
ghost use Rattle.pull_mirror.specs.DocumentCopies.{documents_copied, parts_copied, parts_pushed};
ghost use Rattle.pull_mirror.specs.DocumentPlans.{AreIn, parts_planned};
ghost use Rattle.pull_mirror.specs.DocumentPushes.{AreNamed, all_of, blobs_named, parts_of};
ghost use Rattle.pull_mirror.specs.Errors.{IfRefused, url_answered};
ghost use Rattle.pull_mirror.specs.Pushes.{IsNamed, digests_of};
ghost use Rattle.pull_mirror.specs.Stopped.{Stopped};

use crate::absences::{DocumentsRefusal, of_push};
use crate::documents::{DocumentPlan, PartsPlan, plan_documents};
use crate::questions::ask_stored;
use crate::refusals::{PushRefusal, PushReport};
use crate::sending::{send_each, send_next};
use crate::signatures::signature_text;
use cosign_chain::VerifiedDocuments;
use json_values::List;
use oci_auth::RegistryAuth;
use oci_engine::Client;
use oci_names::Reference;
use oci_transport::Transport;
use registry_cache::Auth;
use registry_calls::OciReference;
use std::alloc::Global;

/// Where documents are copied to.
#[derive(Drop)]
pub struct CopyTarget {
    pub image: OciReference,
    /// The credentials, which are stored unless some are stored for the target's registry.
    pub auth: Auth,
    /// Whether the document that was signed is pushed under the target's tag, and its signature; otherwise only the
    /// manifest is, by its digest.
    pub tag: bool,
}

// Sends the pushes of documents.
fn send_parts<B: Transport>(
    alloc: Global,
    client: &mut Client,
    transport: &mut B,
    moment: u64,
    target: &Reference,
    plan: &PartsPlan<'_>,
) -> Result<PushReport, PushRefusal>
    ensures run { Meets is_memory
        (parts_pushed (at_moment client.old moment) target.now (parts_planned plan.now))
        (B.state transport.old) (B.state transport.new) (auth_state_of client.old) (auth_state_of client.new)
        (url_answered result) }
    ensures settings { client.new.settings ≡ client.old.settings }
    ensures pushed { IfOk result (λ report. report.pushed ≡ digests_of (all_of (parts_planned plan.now))) }
    ensures stopped { IfErr result (λ e. IfRefused e (λ digest error.
        Stopped (at_moment client.old moment) target.now (all_of (parts_planned plan.now)) (B.state transport.old)
        (B.state transport.new) (auth_state_of client.old) (auth_state_of client.new) digest error
        × (is_memory error ≡ false))) }
{
    let mut pushed = List::new(alloc);
    let first = plan.first.as_slice();
    send_each(alloc, client, transport, moment, target, first, &mut pushed)?;
    let document = &plan.document;
    let manifest_url = send_next(
        alloc,
        client,
        transport,
        moment,
        target,
        document,
        &mut pushed,
    )?;
    let after = plan.after.as_slice();
    send_each(alloc, client, transport, moment, target, after, &mut pushed)?;
    Ok(PushReport {
        pushed,
        manifest_url,
    })
}

// Asks for the blobs, and sends the pushes if the target has each.
fn send_documents<B: Transport>(
    alloc: Global,
    client: &mut Client,
    transport: &mut B,
    moment: u64,
    target: &Reference,
    auth: &RegistryAuth,
    plan: &DocumentPlan<'_>,
) -> Result<PushReport, DocumentsRefusal>
    ensures run { Meets is_memory
        (parts_copied (at_moment client.old moment) target.now auth.now plan.now.asked (parts_planned plan.now.parts))
        (B.state transport.old) (B.state transport.new) (auth_state_of client.old) (auth_state_of client.new)
        (outcome_of result) }
    ensures settings { client.new.settings ≡ client.old.settings }
    ensures pushed { IfOk result (λ report. report.pushed ≡ digests_of (all_of (parts_planned plan.now.parts))) }
    ensures stopped { IfErr result (StoppedCopy (at_moment client.old moment) target.now plan.now.asked
        (all_of (parts_planned plan.now.parts)) (B.state transport.old) (B.state transport.new)
        (with_stored target.now auth.now (auth_state_of client.old)) (auth_state_of client.new)) }
    ensures confined { mirror_of target.now ≡ None → AreIn target.now (parts_planned plan.now.parts)
        → Told (CopyWithin (auth_state_of client.old) (at_moment client.old moment) target.now auth.now
        (auth_state_of client.new)) (B.state transport.old) (B.state transport.new) }
{
    ask_stored(
        alloc,
        client,
        transport,
        moment,
        target,
        auth,
        plan.asked.as_slice(),
    )?;
    match send_parts(alloc, client, transport, moment, target, &plan.parts) {
        Ok(report) => Ok(report),
        Err(refusal) => Err(of_push(refusal)),
    }
}

/// Copies documents whose blobs were carried to the target: stores the target's credentials, asks the target for each
/// blob that the manifest names, its layers in order and its configuration, each digest once, and pushes only if it has
/// them all. With `tag`: the signature's layer and an empty configuration; if an index led to the manifest, that
/// manifest by its digest; the document that was signed under the target's tag; and the signature's manifest, a
/// payload's under the digest's signature tag and a bundle's by its own digest. Without: the manifest, by its digest.
/// The bytes are those of the documents. `moment` is in seconds since 1970.
///
/// Returns `Missing` with the first blob that the target does not have, with nothing pushed; `Refused` with the first
/// question or push that was refused, with nothing sent after it.
pub fn push_documents<B: Transport>(
    alloc: Global,
    client: &mut Client,
    transport: &mut B,
    moment: u64,
    to: &CopyTarget,
    found: &VerifiedDocuments,
) -> Result<PushReport, DocumentsRefusal>
    ensures run { Meets is_memory
        (documents_copied (at_moment client.old moment) (reference_in to.now.image) (registry_auth to.now.auth)
        to.now.tag found.now)
        (B.state transport.old) (B.state transport.new) (auth_state_of client.old) (auth_state_of client.new)
        (outcome_of result) }
    ensures settings { client.new.settings ≡ client.old.settings }
    ensures pushed { IfOk result (λ report. report.pushed
        ≡ digests_of (all_of (parts_of to.now.tag found.now (reference_in to.now.image)))) }
    ensures stopped { IfErr result (StoppedCopy (at_moment client.old moment) (reference_in to.now.image)
        (blobs_named found.now.manifest) (all_of (parts_of to.now.tag found.now (reference_in to.now.image)))
        (B.state transport.old) (B.state transport.new)
        (with_stored (reference_in to.now.image) (registry_auth to.now.auth) (auth_state_of client.old))
        (auth_state_of client.new)) }
    ensures named { AreNamed found.now
        → All IsNamed (all_of (parts_of to.now.tag found.now (reference_in to.now.image))) }
    ensures confined { Told (CopyWithin (auth_state_of client.old) (at_moment client.old moment)
        (reference_in to.now.image) (registry_auth to.now.auth) (auth_state_of client.new))
        (B.state transport.old) (B.state transport.new) }
    ensures fault { FaultCounted (B.state transport.old) (B.state transport.new) (outcome_of result) }
{
    let auth = to.auth.to_registry(alloc)?;
    let target = to.image.reference();
    let text = signature_text(alloc, &found.signature, &found.digest, &found.first)?;
    let plan = plan_documents(alloc, target, found, &text, to.tag)?;
    send_documents(alloc, client, transport, moment, target, &auth, &plan)
}
