// The question what one tag of a target names.
ghost use Rattle.std.specs.List.{list_any};
ghost use Rattle.std.specs.Prelude.{◌≡◌, bytes_eq, Err, IfErr, Ok, Some, false, true};
ghost use Rattle.oci_names.specs.Reference.{whole_text};
ghost use Rattle.oci_protocol.specs.Runs.{Meets};
ghost use Rattle.engine_terms.specs.Error.{is_memory};
ghost use Rattle.engine_terms.specs.declared.error.OciDistributionError.TheVariants.{WantOfMemory};
ghost use Rattle.oci_engine.specs.Confinement.{StaysConfined};
ghost use Rattle.oci_engine.specs.Kept.{auth_state_of};
ghost use Rattle.oci_engine.specs.Refusals.{at_moment};
ghost use Rattle.live_copy.specs.FreeTargets.{is_unknown, is_unknown_error, tag_asked};
ghost use Rattle.live_copy.specs.FreeTargets.{unless_same, unless_unknown};
ghost use Rattle.live_copy.specs.Steps.{SaysTaken, SaysUnread};
ghost use Rattle.live_copy.specs.Taken.{IsOfTag, taken_of};

use crate::refusals::TargetRefusal;
use engine_terms::OciDistributionError;
use json_values::Text;
use oci_auth::RegistryAuth;
use oci_engine::Client;
use oci_errors::{OciError, OciErrorCode};
use oci_names::Reference;
use oci_transport::Transport;
use std::alloc::Global;

/// A tag, and the digest of what would be pushed under it.
#[derive(Drop)]
pub(crate) struct TagPush {
    pub reference: Reference,
    pub digest: Text,
}

fn is_unknown_error(error: &OciError) -> bool
    ensures { result ≡ is_unknown_error error.now }
{
    match error.code {
        OciErrorCode::ManifestUnknown => true,
        OciErrorCode::NameUnknown => true,
        OciErrorCode::NotFound => true,
        _ => false,
    }
}

fn is_any_unknown(errors: &[OciError]) -> bool
    ensures { result ≡ list_any is_unknown_error errors.now }
{
    errors.iter().any(|error| is_unknown_error(error))
}

// Whether the registry states that nothing exists under the tag.
fn is_unknown(error: &OciDistributionError) -> bool
    ensures { result ≡ is_unknown error.now }
{
    match error {
        OciDistributionError::RegistryError { envelope, .. } => {
            is_any_unknown(envelope.errors.as_slice())
        }
        OciDistributionError::ServerError { code, .. } => *code == 404,
        _ => false,
    }
}

// What the digest under a tag leads to.
fn tag_named(reference: Text, digest: Text, own: &Text) -> Result<(), TargetRefusal>
    ensures shown { taken_of result ≡ Ok (unless_same (bytes_eq digest own.now) digest) }
    ensures says { IfErr result (SaysTaken reference digest own.now) }
{
    if digest.as_str() == own.as_str() {
        return Ok(());
    }
    Err(TargetRefusal::Taken { reference, digest })
}

// What the error of the question about a tag leads to.
fn tag_refused(reference: Text, error: OciDistributionError) -> Result<(), TargetRefusal>
    ensures read { is_memory error ≡ false → taken_of result ≡ unless_unknown (is_unknown error) error }
    ensures memory { is_memory error ≡ true → taken_of result ≡ Err WantOfMemory }
    ensures says { IfErr result (SaysUnread reference error) }
{
    if error.is_memory() {
        return Err(TargetRefusal::WantOfMemory);
    }
    if is_unknown(&error) {
        return Ok(());
    }
    Err(TargetRefusal::Unread { reference, error })
}

/// Requests what a tag names. Returns `Taken` if that is another digest than that of what would be pushed, and `Unread`
/// if the question was refused, unless the registry states that nothing exists under the tag.
pub(crate) fn ask_tag<B: Transport>(
    alloc: Global,
    client: &mut Client,
    transport: &mut B,
    moment: u64,
    auth: &RegistryAuth,
    tag: &TagPush,
) -> Result<(), TargetRefusal>
    ensures run { Meets is_memory (tag_asked (at_moment client.old moment) auth.now tag.now)
        (B.state transport.old) (B.state transport.new) (auth_state_of client.old) (auth_state_of client.new)
        (taken_of result) }
    ensures settings { client.new.settings ≡ client.old.settings }
    ensures confined { StaysConfined client.old client.new moment tag.now.reference (Some auth.now)
        (B.state transport.old) (B.state transport.new) }
    ensures of_tag { IfErr result (IsOfTag (at_moment client.old moment) auth.now tag.now
        (B.state transport.old) (B.state transport.new) (auth_state_of client.old) (auth_state_of client.new)) }
{
    let name = tag.reference.whole(alloc)?;
    match client.fetch_manifest_digest(alloc, transport, moment, &tag.reference, auth) {
        Ok(digest) => tag_named(name, digest, &tag.digest),
        Err(error) => tag_refused(name, error),
    }
}
