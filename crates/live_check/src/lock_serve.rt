// The check of a lock, from its settings to its verdict.
ghost use Rattle.std.specs.Prelude.{◌≡◌, IfOk, IfErr};
ghost use Rattle.cosign_layers.specs.Satisfying.{policy_context};
ghost use Rattle.cosign_parts.specs.Trust.{trust};
ghost use Rattle.live_host.specs.Answers.{valid_by, vouched_by};
ghost use Rattle.live_host.specs.Wire.{wire};
ghost use Rattle.live_pull.specs.Status.{StatusCause, status_of};
ghost use Rattle.pull_lock.specs.Locked.{Judges, Locked};
ghost use Rattle.live_check.specs.Ends.{EndsChecked};
ghost use Rattle.live_check.specs.LockChecked.{AsksAndTells, AsksAndTellsCut, IsCut, IsTold, Judged, JudgedCut};
ghost use Rattle.live_check.specs.LockChecked.{JudgesBy, LockChecked, LockCheckedCut, Unread, UnreadCut, status_by};
ghost use Rattle.live_check.specs.LockHeads.{is_held};

use crate::layers::layers_in;
use crate::lock_heads::{unread_head, verdict_head};
use crate::lock_settings::LockSettings;
use crate::terms::{Terms, promise_of, terms_in};
use byte_streams::{Sink, Source};
use live_host::{Answers, HostError, Streams, ask_layers, tell};
use live_pull::{Ended, LiveSettings, Status};
use pull_lock::{Lock, LockError, LockVerdict, check_lock, read_lock};
use recorded_case::constraints_from;
use std::alloc::{AllocError, Global};

fn check_under(
    alloc: Global,
    terms: &Terms,
    answers: &Answers,
    lock: &Lock,
) -> Result<LockVerdict, AllocError>
    ensures { IfOk result (Judges (Locked (policy_context terms.now.policy (λ b. accepts (b.vtable, b.value))
        (trust (valid_by answers.now) (vouched_by answers.now) terms.now.log_keys)) terms.now.platform)
        lock.now.entries) }
{
    let promise = promise_of(&terms.platform);
    check_lock(
        alloc,
        lock,
        promise,
        &terms.policy,
        &terms.log_keys,
        answers,
        answers,
    )
}

fn is_held(verdict: &LockVerdict) -> bool
    ensures { result ≡ is_held verdict.now }
{
    match verdict {
        LockVerdict::Holds => true,
        LockVerdict::Fails { .. } => false,
    }
}

// The verdict under the host's answers, which is sent. Returns whether the lock holds.
fn judge<S: Source, K: Sink>(
    alloc: Global,
    streams: &mut Streams<S, K>,
    terms: &Terms,
    answers: &Answers,
    lock: &Lock,
) -> Result<bool, HostError>
    ensures told { IfOk result (λ held. JudgesBy (IsTold held)
        (policy_context terms.now.policy (λ b. accepts (b.vtable, b.value))
        (trust (valid_by answers.now) (vouched_by answers.now) terms.now.log_keys)) terms.now.platform lock.now
        (wire S.state K.state streams.old) (wire S.state K.state streams.new)) }
    ensures cause { IfErr result (λ e. StatusCause (λ cut. JudgesBy (IsCut cut)
        (policy_context terms.now.policy (λ b. accepts (b.vtable, b.value))
        (trust (valid_by answers.now) (vouched_by answers.now) terms.now.log_keys)) terms.now.platform lock.now
        (wire S.state K.state streams.old) (wire S.state K.state streams.new)) (status_of e)) }
{
    let verdict = check_under(alloc, terms, answers, lock)?;
    let head = verdict_head(alloc, &verdict)?;
    tell(alloc, streams, &head, &[])?;
    Ok(is_held(&verdict))
}

// The questions to the host about the signature layers, and the verdict under its answers.
fn ask_and_judge<S: Source, K: Sink>(
    alloc: Global,
    streams: &mut Streams<S, K>,
    terms: &Terms,
    lock: &Lock,
) -> Result<bool, HostError>
    ensures told { IfOk result (λ held. AsksAndTells (λ answers. policy_context terms.now.policy
        (λ b. accepts (b.vtable, b.value)) (trust (valid_by answers) (vouched_by answers) terms.now.log_keys))
        terms.now.platform lock.now held
        (wire S.state K.state streams.old) (wire S.state K.state streams.new)) }
    ensures cause { IfErr result (λ e. AsksAndTellsCut (λ answers. policy_context terms.now.policy
        (λ b. accepts (b.vtable, b.value)) (trust (valid_by answers) (vouched_by answers) terms.now.log_keys))
        terms.now.platform lock.now e
        (wire S.state K.state streams.old) (wire S.state K.state streams.new)) }
{
    let layers = layers_in(alloc, &terms.log_keys, lock)?;
    let answers = ask_layers(
        alloc,
        streams,
        terms.policy.keys.as_slice(),
        &terms.log_keys,
        layers.as_slice(),
    )?;
    let held = judge(alloc, streams, terms, &answers, lock)?;
    Ok(held)
}

// Drops both in a function without other facts, so that each of their many parts is dropped once.
fn drop_both(_terms: Terms, _lock: Lock) {}

fn drop_read(_settings: LiveSettings, _lock: Lock) {}

fn status_by(held: Result<bool, HostError>) -> Status
    ensures { result ≡ status_by held }
{
    match held {
        Ok(true) => Status::Pulled,
        Ok(false) => Status::Refused,
        Err(error) => Status::from(error),
    }
}

// The verdict on a lock that was read.
fn check_read<S: Source, K: Sink>(
    alloc: Global,
    streams: Streams<S, K>,
    settings: LiveSettings,
    lock: Lock,
) -> Ended<S, K>
    ensures { EndsChecked (λ held. Judged settings lock held
        (wire S.state K.state streams) (wire S.state K.state result.streams))
        (λ e. JudgedCut settings lock e (wire S.state K.state streams) (wire S.state K.state result.streams))
        result.status }
{
    let constraints = match constraints_from(alloc, settings.constraints.as_slice()) {
        Ok(constraints) => constraints,
        Err(_) => {
            drop_read(settings, lock);
            return end_with(Status::WantOfMemory, streams);
        }
    };
    let terms = terms_in(settings, constraints);
    let mut streams = streams;
    let held = ask_and_judge(alloc, &mut streams, &terms, &lock);
    drop_both(terms, lock);
    end_with(status_by(held), streams)
}

fn tell_unread<S: Source, K: Sink>(
    alloc: Global,
    streams: &mut Streams<S, K>,
    error: LockError,
) -> Result<bool, HostError>
    ensures told { IfOk result (λ held.
        Unread error held (wire S.state K.state streams.old) (wire S.state K.state streams.new)) }
    ensures cause { IfErr result (λ e.
        UnreadCut error e (wire S.state K.state streams.old) (wire S.state K.state streams.new)) }
{
    let head = unread_head(alloc, error)?;
    tell(alloc, streams, &head, &[])?;
    Ok(false)
}

// A text that is not a lock file, for a reason other than memory.
fn end_unread<S: Source, K: Sink>(
    alloc: Global,
    streams: Streams<S, K>,
    error: LockError,
) -> Ended<S, K>
    ensures { EndsChecked (λ held. Unread error held
        (wire S.state K.state streams) (wire S.state K.state result.streams))
        (λ e. UnreadCut error e (wire S.state K.state streams) (wire S.state K.state result.streams)) result.status }
{
    let mut streams = streams;
    let held = tell_unread(alloc, &mut streams, error);
    end_with(status_by(held), streams)
}

fn end_with<S, K>(status: Status, streams: Streams<S, K>) -> Ended<S, K>
    ensures { result ≡ record { status = status; streams = streams } }
{
    Ended { status, streams }
}

/// Checks a lock with a host: reads its text, asks the host about the signature layers of its entries, decides under
/// its answers, and sends the verdict, or why the text is not a lock file. No request is sent. Returns the exit status,
/// which is `Pulled` if the lock holds, and the streams.
pub fn serve_lock<S: Source, K: Sink>(
    alloc: Global,
    streams: Streams<S, K>,
    settings: LockSettings,
) -> Ended<S, K>
    ensures status { EndsChecked (λ held. LockChecked settings held
        (wire S.state K.state streams) (wire S.state K.state result.streams))
        (λ e. LockCheckedCut settings e (wire S.state K.state streams) (wire S.state K.state result.streams))
        result.status }
{
    let LockSettings { lock, settings } = settings;
    match read_lock(alloc, lock.as_str().as_bytes()) {
        Ok(read) => check_read(alloc, streams, settings, read),
        Err(LockError::WantOfMemory) => end_with(Status::WantOfMemory, streams),
        Err(error) => end_unread(alloc, streams, error),
    }
}
