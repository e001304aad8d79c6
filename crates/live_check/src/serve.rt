// The check of an image, from its settings to its verdict.
ghost use Rattle.std.specs.Prelude.{◌≡◌, [], IfOk, IfErr};
ghost use Rattle.cosign_layers.specs.Satisfying.{policy_context};
ghost use Rattle.cosign_parts.specs.Trust.{trust};
ghost use Rattle.live_host.specs.Answers.{valid_by, vouched_by};
ghost use Rattle.live_host.specs.HostErrors.{TellCause};
ghost use Rattle.live_host.specs.Wire.{wire};
ghost use Rattle.live_pull.specs.Status.{StatusCause};
ghost use Rattle.pull_lock.specs.Unlocked.{GivesDocuments};
ghost use Rattle.call_laws.specs.Blobs.{descriptors_of, range_of};
ghost use Rattle.live_check.specs.Checked.{AsksAndDecides, AsksAndDecidesCut, BlobsCut, BlobsTold, Checked, CheckedCut};
ghost use Rattle.live_check.specs.Checked.{DecidesBy, NoneTold, VerdictCut, VerdictOn, status_by};
ghost use Rattle.live_check.specs.Ends.{EndsChecked};
ghost use Rattle.live_check.specs.Heads.{documents_head};

use crate::blobs::first_fallen;
use crate::heads::{documents_head, verdict_head};
use crate::settings::CheckSettings;
use crate::{Terms, ask_entry, promise_of, terms_in};
use byte_streams::{Sink, Source};
use cosign_chain::VerifiedDocuments;
use image_blobs::BlobRange;
use live_host::{Answers, Streams, tell};
use live_pull::{Ended, Status};
use oci_manifests::OciImageManifest;
use pull_lock::{LockEntry, documents_of};
use recorded_case::constraints_from;
use std::alloc::{AllocError, Global};

// The documents of the entry under the host's answers, if they hold.
fn documents_under(
    alloc: Global,
    terms: &Terms,
    answers: &Answers,
    entry: &LockEntry,
) -> Result<Option<VerifiedDocuments>, AllocError>
    ensures { IfOk result (GivesDocuments (policy_context terms.now.policy (λ b. accepts (b.vtable, b.value))
        (trust (valid_by answers.now) (vouched_by answers.now) terms.now.log_keys)) terms.now.platform
        entry.now) }
{
    let promise = promise_of(&terms.platform);
    documents_of(
        alloc,
        entry,
        promise,
        &terms.policy,
        &terms.log_keys,
        answers,
        answers,
    )
}

// Sends that the documents do not hold.
fn tell_none<S: Source, K: Sink>(alloc: Global, streams: &mut Streams<S, K>) -> Result<bool, Status>
    ensures told { IfOk result (λ held. NoneTold held
        (wire S.state K.state streams.old) (wire S.state K.state streams.new)) }
    ensures cause { IfErr result (StatusCause (λ e. TellCause (documents_head, []) e
        (wire S.state K.state streams.old) (wire S.state K.state streams.new))) }
{
    let head = documents_head(alloc)?;
    tell(alloc, streams, &head, &[])?;
    Ok(false)
}

// Checks the blobs of the range, and sends the verdict. Returns whether each stands.
fn tell_blobs<S: Source, K: Sink>(
    alloc: Global,
    streams: &mut Streams<S, K>,
    manifest: &OciImageManifest,
    range: BlobRange,
) -> Result<bool, Status>
    ensures told { IfOk result (λ held. BlobsTold (range_of range.first range.end (descriptors_of manifest.now)) held
        (wire S.state K.state streams.old) (wire S.state K.state streams.new)) }
    ensures cause { IfErr result (StatusCause (λ e. BlobsCut
        (range_of range.first range.end (descriptors_of manifest.now)) e
        (wire S.state K.state streams.old) (wire S.state K.state streams.new))) }
{
    let fell = first_fallen(alloc, streams, manifest, range)?;
    let head = verdict_head(alloc, &fell)?;
    tell(alloc, streams, &head, &[])?;
    Ok(fell.is_none())
}

// The verdict on documents, and on the blobs of the range if they hold.
fn tell_verdict<S: Source, K: Sink>(
    alloc: Global,
    streams: &mut Streams<S, K>,
    found: &Option<VerifiedDocuments>,
    range: BlobRange,
) -> Result<bool, Status>
    ensures told { IfOk result (λ held. VerdictOn range.first range.end held found.now
        (wire S.state K.state streams.old) (wire S.state K.state streams.new)) }
    ensures cause { IfErr result (StatusCause (λ e. VerdictCut range.first range.end e found.now
        (wire S.state K.state streams.old) (wire S.state K.state streams.new))) }
{
    match found {
        Some(documents) => tell_blobs(alloc, streams, &documents.manifest, range),
        None => tell_none(alloc, streams),
    }
}

// Large values are dropped in functions without other facts.
fn drop_found(_found: Option<VerifiedDocuments>) {}

fn drop_both(_terms: Terms, _entry: LockEntry) {}

fn drop_settings(_settings: CheckSettings) {}

// The documents under the host's answers, and the verdict.
fn decide_and_tell<S: Source, K: Sink>(
    alloc: Global,
    streams: &mut Streams<S, K>,
    terms: &Terms,
    answers: &Answers,
    entry: &LockEntry,
    range: BlobRange,
) -> Result<bool, Status>
    ensures told { IfOk result (λ held. DecidesBy (VerdictOn range.first range.end held)
        (policy_context terms.now.policy
        (λ b. accepts (b.vtable, b.value)) (trust (valid_by answers.now) (vouched_by answers.now) terms.now.log_keys))
        terms.now.platform entry.now
        (wire S.state K.state streams.old) (wire S.state K.state streams.new)) }
    ensures cause { IfErr result (StatusCause (λ e. DecidesBy (VerdictCut range.first range.end e)
        (policy_context terms.now.policy
        (λ b. accepts (b.vtable, b.value)) (trust (valid_by answers.now) (vouched_by answers.now) terms.now.log_keys))
        terms.now.platform entry.now
        (wire S.state K.state streams.old) (wire S.state K.state streams.new))) }
{
    let found = documents_under(alloc, terms, answers, entry)?;
    let held = tell_verdict(alloc, streams, &found, range);
    drop_found(found);
    held
}

// The questions to the host about the signature layer, and the verdict under its answers.
fn ask_and_decide<S: Source, K: Sink>(
    alloc: Global,
    streams: &mut Streams<S, K>,
    terms: &Terms,
    entry: &LockEntry,
    range: BlobRange,
) -> Result<bool, Status>
    ensures told { IfOk result (λ held. AsksAndDecides (λ answers. policy_context terms.now.policy
        (λ b. accepts (b.vtable, b.value)) (trust (valid_by answers) (vouched_by answers) terms.now.log_keys))
        terms.now.platform entry.now range.first range.end held
        (wire S.state K.state streams.old) (wire S.state K.state streams.new)) }
    ensures cause { IfErr result (StatusCause (λ e. AsksAndDecidesCut (λ answers. policy_context terms.now.policy
        (λ b. accepts (b.vtable, b.value)) (trust (valid_by answers) (vouched_by answers) terms.now.log_keys))
        terms.now.platform entry.now range.first range.end e
        (wire S.state K.state streams.old) (wire S.state K.state streams.new))) }
{
    let answers = ask_entry(
        alloc,
        streams,
        terms.policy.keys.as_slice(),
        &terms.log_keys,
        entry,
    )?;
    let held = decide_and_tell(alloc, streams, terms, &answers, entry, range)?;
    Ok(held)
}

fn status_by(held: Result<bool, Status>) -> Status
    ensures { result ≡ status_by held }
{
    match held {
        Ok(true) => Status::Pulled,
        Ok(false) => Status::Refused,
        Err(status) => status,
    }
}

fn end_with<S, K>(status: Status, streams: Streams<S, K>) -> Ended<S, K>
    ensures { result ≡ record { status = status; streams = streams } }
{
    Ended { status, streams }
}

/// Checks an image that the host has: asks the host about the signature layer of its documents, decides under its
/// answers whether they hold, asks for each blob of the range, and sends the verdict: that the documents hold and each
/// of these blobs is the one that the manifest names; or what does not hold first. No request is sent. Returns the exit
/// status, which is `Pulled` if all hold, and the streams.
pub fn serve_check<S: Source, K: Sink>(
    alloc: Global,
    streams: Streams<S, K>,
    settings: CheckSettings,
) -> Ended<S, K>
    ensures status { EndsChecked (λ held. Checked settings held
        (wire S.state K.state streams) (wire S.state K.state result.streams))
        (λ e. CheckedCut settings e (wire S.state K.state streams) (wire S.state K.state result.streams))
        result.status }
{
    let constraints = match constraints_from(alloc, settings.settings.constraints.as_slice()) {
        Ok(constraints) => constraints,
        Err(_) => {
            drop_settings(settings);
            return end_with(Status::WantOfMemory, streams);
        }
    };
    let CheckSettings {
        entry,
        settings,
        first,
        end,
    } = settings;
    let terms = terms_in(settings, constraints);
    let range = BlobRange {
        first: first as usize,
        end: end as usize,
    };
    let mut streams = streams;
    let held = ask_and_decide(alloc, &mut streams, &terms, &entry, range);
    drop_both(terms, entry);
    end_with(status_by(held), streams)
}
