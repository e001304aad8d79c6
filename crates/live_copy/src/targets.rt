// Which tags of a target are queried.
ghost use Rattle.std.specs.Prelude.{◌≡◌, IfErr, IfOk, Some};
ghost use Rattle.oci_protocol.specs.Runs.{Meets, Told};
ghost use Rattle.engine_terms.specs.Error.{is_memory};
ghost use Rattle.oci_engine.specs.Confinement.{StaysConfined};
ghost use Rattle.oci_engine.specs.Kept.{auth_state_of};
ghost use Rattle.oci_engine.specs.Refusals.{FaultCounted, at_moment};
ghost use Rattle.registry_cache.specs.Auths.{registry_auth};
ghost use Rattle.registry_calls.specs.Direct.{reference_in};
ghost use Rattle.cosign_parts.specs.declared.layer.LayerKind.TheVariants.{Payload};
ghost use Rattle.cosign_rows.specs.References.{tag_reference as signature_reference};
ghost use Rattle.live_copy.specs.FreeTargets.{document_tag, signature_asked, signature_tag, target_free};
ghost use Rattle.live_copy.specs.Taken.{IsOfTag, IsOfTarget, TagsWithin, taken_of};

use crate::questions::{TagPush, ask_tag};
use crate::refusals::TargetRefusal;
use cosign_chain::VerifiedDocuments;
use cosign_parts::LayerKind;
use cosign_rows::tag_reference;
use json_values::Copied;
use oci_auth::RegistryAuth;
use oci_digests::sha256_digest;
use oci_engine::Client;
use oci_names::Reference;
use oci_transport::Transport;
use pull_mirror::{CopyTarget, signature_text};
use std::alloc::{AllocError, Global};

fn document_tag(
    alloc: Global,
    target: &Reference,
    found: &VerifiedDocuments,
) -> Result<TagPush, AllocError>
    ensures { IfOk result (λ tag. tag ≡ document_tag found.now target.now) }
{
    let reference = target.copy(alloc)?;
    let digest = found.digest.copy(alloc)?;
    Ok(TagPush { reference, digest })
}

fn signature_tag(
    alloc: Global,
    target: &Reference,
    found: &VerifiedDocuments,
) -> Result<TagPush, AllocError>
    ensures { IfOk result (λ tag. tag ≡ signature_tag found.now target.now) }
{
    let text = signature_text(alloc, &found.signature, &found.digest, &found.first)?;
    let reference = tag_reference(alloc, target, found.digest.as_str())?;
    let digest = sha256_digest(alloc, text.as_slice())?;
    Ok(TagPush { reference, digest })
}

// Asks what the tag of a signature names, if the signature is pushed under one.
fn ask_signature<B: Transport>(
    alloc: Global,
    client: &mut Client,
    transport: &mut B,
    moment: u64,
    auth: &RegistryAuth,
    kind: LayerKind,
    tag: &TagPush,
) -> Result<(), TargetRefusal>
    ensures run { Meets is_memory (signature_asked (at_moment client.old moment) auth.now kind tag.now)
        (B.state transport.old) (B.state transport.new) (auth_state_of client.old) (auth_state_of client.new)
        (taken_of result) }
    ensures settings { client.new.settings ≡ client.old.settings }
    ensures confined { StaysConfined client.old client.new moment tag.now.reference (Some auth.now)
        (B.state transport.old) (B.state transport.new) }
    ensures of_tag { IfErr result (λ e. (kind ≡ Payload) × IsOfTag (at_moment client.old moment) auth.now tag.now
        (B.state transport.old) (B.state transport.new) (auth_state_of client.old) (auth_state_of client.new) e) }
{
    match kind {
        LayerKind::Payload => ask_tag(alloc, client, transport, moment, auth, tag),
        LayerKind::Bundle => Ok(()),
    }
}

// Asks what the two tags name.
fn ask_tags<B: Transport>(
    alloc: Global,
    client: &mut Client,
    transport: &mut B,
    moment: u64,
    auth: &RegistryAuth,
    target: &Reference,
    found: &VerifiedDocuments,
) -> Result<(), TargetRefusal>
    ensures run { Meets is_memory (target_free (at_moment client.old moment) target.now auth.now found.now)
        (B.state transport.old) (B.state transport.new) (auth_state_of client.old) (auth_state_of client.new)
        (taken_of result) }
    ensures settings { client.new.settings ≡ client.old.settings }
    ensures confined { Told (TagsWithin (auth_state_of client.old) (at_moment client.old moment) target.now
        (signature_reference target.now found.now.digest) auth.now (auth_state_of client.new))
        (B.state transport.old) (B.state transport.new) }
    ensures stopped { IfErr result (IsOfTarget (at_moment client.old moment) target.now auth.now found.now
        (B.state transport.old) (B.state transport.new) (auth_state_of client.old) (auth_state_of client.new)) }
{
    let document = document_tag(alloc, target, found)?;
    let signature = signature_tag(alloc, target, found)?;
    ask_tag(alloc, client, transport, moment, auth, &document)?;
    let kind = found.signature.kind;
    ask_signature(alloc, client, transport, moment, auth, kind, &signature)
}

/// Requests what the target's tag names and, if the signature is a payload, what the signature tag of the signed digest
/// names. A tag may be pushed if the registry states that nothing exists under it, or if it names the digest of what
/// `push_documents` of `pull_mirror` pushes under it. A signature's manifest is compared whole, since that of another
/// signature may have the same layer. Nothing is pushed. `moment` is in seconds since 1970.
///
/// Returns `Taken` with the first tag that names another digest, and that digest; `Unread` with the first question that
/// was refused. No request is sent after either.
pub fn free_target<B: Transport>(
    alloc: Global,
    client: &mut Client,
    transport: &mut B,
    moment: u64,
    to: &CopyTarget,
    found: &VerifiedDocuments,
) -> Result<(), TargetRefusal>
    ensures run { Meets is_memory
        (target_free (at_moment client.old moment) (reference_in to.now.image) (registry_auth to.now.auth) found.now)
        (B.state transport.old) (B.state transport.new) (auth_state_of client.old) (auth_state_of client.new)
        (taken_of result) }
    ensures stopped { IfErr result (IsOfTarget (at_moment client.old moment) (reference_in to.now.image)
        (registry_auth to.now.auth) found.now (B.state transport.old) (B.state transport.new)
        (auth_state_of client.old) (auth_state_of client.new)) }
    ensures confined { Told (TagsWithin (auth_state_of client.old) (at_moment client.old moment)
        (reference_in to.now.image) (signature_reference (reference_in to.now.image) found.now.digest)
        (registry_auth to.now.auth) (auth_state_of client.new)) (B.state transport.old) (B.state transport.new) }
    ensures fault { FaultCounted (B.state transport.old) (B.state transport.new) (taken_of result) }
    ensures settings { client.new.settings ≡ client.old.settings }
{
    let auth = to.auth.to_registry(alloc)?;
    let target = to.image.reference();
    ask_tags(alloc, client, transport, moment, &auth, target, found)
}
