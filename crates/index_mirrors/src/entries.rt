// One image of an index after another: each is pulled, pushed and dropped.
ghost use Rattle.std.specs.Prelude.{◌≡◌, Ok, bytes_eq};
ghost use Rattle.oci_engine.specs.Kept.{auth_state_of};
ghost use Rattle.index_mirrors.specs.Courses.{EntriesCourse, EntryCourse, EntryPushed, stage, target_of};
ghost use Rattle.index_mirrors.specs.Courses.{pull_refusal, push_refusal};
ghost use Rattle.index_mirrors.specs.Terms.{meaning_of, source_of};

use crate::clients::pull_entry;
use crate::refusals::IndexRefusal;
use crate::terms::EntryTerms;
use cosign_chain::VerifiedImage;
use cosign_parts::{Offline, SignatureVerifier};
use cosign_rows::PullRefusal;
use json_values::{Copied, Text};
use oci_engine::Client;
use oci_transport::Transport;
use pull_mirror::{CopyTarget, PushRefusal, push_entry};
use std::alloc::Global;

// Large values are dropped in functions without other facts.
fn drop_image(_image: VerifiedImage) {}

// The refusal of an entry that was not pulled.
fn pull_refusal(entry: Text, refusal: PullRefusal) -> IndexRefusal
    ensures { result ≡ pull_refusal entry refusal }
{
    if refusal.is_memory() {
        return IndexRefusal::WantOfMemory;
    }
    IndexRefusal::Pull { entry, refusal }
}

// The refusal of an entry that was not pushed.
fn push_refusal(entry: Text, refusal: PushRefusal) -> IndexRefusal
    ensures { result ≡ push_refusal entry refusal }
{
    match refusal {
        PushRefusal::Refused { digest, error } => IndexRefusal::Push {
            entry,
            digest,
            error,
        },
        PushRefusal::WantOfMemory => IndexRefusal::WantOfMemory,
    }
}

// Whether it is the image of this entry.
fn is_image_of(found: &VerifiedImage, entry: &Text) -> bool
    ensures { result ≡ bytes_eq found.now.manifest_digest entry.now }
{
    found.manifest_digest.as_str() == entry.as_str()
}

// Pushes an image, if it is that of the entry.
fn push_found<B: Transport>(
    alloc: Global,
    client: &mut Client,
    transport: &mut B,
    moment: u64,
    to: &CopyTarget,
    entry: Text,
    found: &VerifiedImage,
) -> Result<(), IndexRefusal>
    ensures pushed { EntryPushed (target_of client.old moment to.now) entry (Ok found.now) (B.state transport.old)
        (B.state transport.new) (auth_state_of client.old) (auth_state_of client.new) result }
    ensures settings { client.new.settings ≡ client.old.settings }
{
    if !is_image_of(found, &entry) {
        return Err(IndexRefusal::Other { entry });
    }
    match push_entry(alloc, client, transport, moment, &to.image, &to.auth, found) {
        Ok(_) => Ok(()),
        Err(refusal) => Err(push_refusal(entry, refusal)),
    }
}

// The same, and drops the image.
fn push_owned<B: Transport>(
    alloc: Global,
    client: &mut Client,
    transport: &mut B,
    moment: u64,
    to: &CopyTarget,
    entry: Text,
    found: VerifiedImage,
) -> Result<(), IndexRefusal>
    ensures pushed { EntryPushed (target_of client.old moment to.now) entry (Ok found) (B.state transport.old)
        (B.state transport.new) (auth_state_of client.old) (auth_state_of client.new) result }
    ensures settings { client.new.settings ≡ client.old.settings }
{
    let ended = push_found(alloc, client, transport, moment, to, entry, &found);
    drop_image(found);
    ended
}

// Pushes what was pulled for an entry, if it was, and drops it.
fn push_pulled<B: Transport>(
    alloc: Global,
    client: &mut Client,
    transport: &mut B,
    moment: u64,
    to: &CopyTarget,
    entry: Text,
    pulled: Result<VerifiedImage, PullRefusal>,
) -> Result<(), IndexRefusal>
    ensures pushed { EntryPushed (target_of client.old moment to.now) entry pulled (B.state transport.old)
        (B.state transport.new) (auth_state_of client.old) (auth_state_of client.new) result }
    ensures settings { client.new.settings ≡ client.old.settings }
{
    let found = match pulled {
        Ok(found) => found,
        Err(refusal) => return Err(pull_refusal(entry, refusal)),
    };
    push_owned(alloc, client, transport, moment, to, entry, found)
}

// Pulls the image of one entry, pushes it, and drops it.
fn mirror_entry<'a, A: Transport, B: Transport, V: SignatureVerifier, O: Offline>(
    alloc: Global,
    transport: &mut A,
    terms: &EntryTerms<'a, V, O>,
    client: &mut Client,
    target_transport: &mut B,
    to: &CopyTarget,
    entry: &Text,
) -> Result<(), IndexRefusal>
    ensures course { EntryCourse (meaning_of V.valid O.vouched (λ b. accepts (b.vtable, b.value)) terms.now)
        (source_of terms.now) (target_of client.old terms.now.moment to.now) entry.now
        (stage (A.state transport.old) (B.state target_transport.old) client.old)
        (stage (A.state transport.new) (B.state target_transport.new) client.new) result }
    ensures settings { client.new.settings ≡ client.old.settings }
{
    let name = entry.copy(alloc)?;
    let pulled = pull_entry(alloc, transport, terms, entry);
    push_pulled(
        alloc,
        client,
        target_transport,
        terms.moment,
        to,
        name,
        pulled,
    )
}

/// Pulls, pushes and drops the image of each entry, in order, until one is refused.
pub(crate) fn mirror_entries<'a, A: Transport, B: Transport, V: SignatureVerifier, O: Offline>(
    alloc: Global,
    transport: &mut A,
    terms: &EntryTerms<'a, V, O>,
    client: &mut Client,
    target_transport: &mut B,
    to: &CopyTarget,
    entries: &[Text],
) -> Result<(), IndexRefusal>
    ensures course { EntriesCourse (meaning_of V.valid O.vouched (λ b. accepts (b.vtable, b.value)) terms.now)
        (source_of terms.now) (target_of client.old terms.now.moment to.now) entries.now
        (stage (A.state transport.old) (B.state target_transport.old) client.old)
        (stage (A.state transport.new) (B.state target_transport.new) client.new) result }
    ensures settings { client.new.settings ≡ client.old.settings }
{
    for entry in entries {
        mirror_entry(alloc, transport, terms, client, target_transport, to, entry)?;
    }
    Ok(())
}
