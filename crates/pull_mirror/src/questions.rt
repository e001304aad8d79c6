// The questions whether a target has the blobs of a manifest.
ghost use Rattle.std.specs.Prelude.{◌≡◌, IfErr, None, Ok, OnOk, Some};
ghost use Rattle.oci_protocol.specs.Runs.{Meets, Performs, Told};
ghost use Rattle.engine_pull.specs.Listings.{blob_exists};
ghost use Rattle.engine_rows.specs.Confined.{Within};
ghost use Rattle.engine_rows.specs.Held.{pulling};
ghost use Rattle.engine_terms.specs.Error.{is_memory};
ghost use Rattle.oci_engine.specs.Kept.{auth_state_of};
ghost use Rattle.oci_engine.specs.Refusals.{at_moment};
ghost use Rattle.pull_mirror.specs.Asked.{IsAbout, StoppedAsking, missing_of, there_of};
ghost use Rattle.pull_mirror.specs.Copies.{with_stored};
ghost use Rattle.pull_mirror.specs.DocumentCopies.{blobs_asked, first_missing};

use crate::absences::{DocumentsRefusal, question_refusal};
use json_values::{Copied, Text};
use oci_auth::RegistryAuth;
use oci_engine::Client;
use oci_names::Reference;
use oci_transport::Transport;
use std::alloc::Global;

// Asks for one blob.
fn ask_one<B: Transport>(
    alloc: Global,
    client: &mut Client,
    transport: &mut B,
    moment: u64,
    target: &Reference,
    digest: &Text,
) -> Result<(), DocumentsRefusal>
    ensures run { Meets is_memory (blob_exists (at_moment client.old moment) target.now digest.now)
        (B.state transport.old) (B.state transport.new) (auth_state_of client.old) (auth_state_of client.new)
        (there_of result) }
    ensures settings { client.new.settings ≡ client.old.settings }
    ensures about { IfErr result (IsAbout digest.now) }
{
    let name = digest.copy(alloc)?;
    let error = match client.blob_exists(alloc, transport, moment, target, digest.as_str()) {
        Ok(true) => return Ok(()),
        Ok(false) => return Err(DocumentsRefusal::Missing { digest: name }),
        Err(error) => error,
    };
    Err(question_refusal(name, error))
}

// Asks for each blob, in order, until one is missing.
fn ask_each<B: Transport>(
    alloc: Global,
    client: &mut Client,
    transport: &mut B,
    moment: u64,
    target: &Reference,
    digests: &[Text],
) -> Result<(), DocumentsRefusal>
    ensures run { Meets is_memory (first_missing (at_moment client.old moment) target.now digests.now)
        (B.state transport.old) (B.state transport.new) (auth_state_of client.old) (auth_state_of client.new)
        (missing_of result) }
    ensures settings { client.new.settings ≡ client.old.settings }
    ensures stopped { IfErr result (StoppedAsking (at_moment client.old moment) target.now digests.now
        (B.state transport.old) (B.state transport.new) (auth_state_of client.old) (auth_state_of client.new)) }
{
    for digest in digests {
        ask_one(alloc, client, transport, moment, target, digest)?;
    }
    Ok(())
}

/// Stores the target's credentials, and asks for each blob, in order. Returns `Missing` with the first that the target
/// does not have, `Refused` with the first question that was refused.
pub(crate) fn ask_stored<B: Transport>(
    alloc: Global,
    client: &mut Client,
    transport: &mut B,
    moment: u64,
    target: &Reference,
    auth: &RegistryAuth,
    digests: &[Text],
) -> Result<(), DocumentsRefusal>
    ensures run { Meets is_memory (blobs_asked (at_moment client.old moment) target.now auth.now digests.now)
        (B.state transport.old) (B.state transport.new) (auth_state_of client.old) (auth_state_of client.new)
        (missing_of result) }
    ensures settings { client.new.settings ≡ client.old.settings }
    ensures stopped { IfErr result (StoppedAsking (at_moment client.old moment) target.now digests.now
        (B.state transport.old) (B.state transport.new)
        (with_stored target.now auth.now (auth_state_of client.old)) (auth_state_of client.new)) }
    ensures there { OnOk result (Performs (first_missing (at_moment client.old moment) target.now digests.now)
        (B.state transport.old) (B.state transport.new)
        (with_stored target.now auth.now (auth_state_of client.old)) (auth_state_of client.new) (Ok None)) }
    ensures confined { Told
        (Within (pulling (auth_state_of client.old) (at_moment client.old moment) target.now (Some auth.now))
        client.old.settings (auth_state_of client.new))
        (B.state transport.old) (B.state transport.new) }
{
    client.store_auth_if_needed(target.resolve_registry(), auth)?;
    ask_each(alloc, client, transport, moment, target, digests)
}
