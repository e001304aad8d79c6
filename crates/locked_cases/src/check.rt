// The subcommand `lockcheck`: whether a lock holds under the policy of a case.
ghost use Rattle.std.specs.Prelude.{◌≡◌, IfOk, IsErr, option_copied};
ghost use Rattle.cosign_layers.specs.Satisfying.{policy_context};
ghost use Rattle.cosign_parts.specs.Judge.{vouched_in};
ghost use Rattle.cosign_parts.specs.Trust.{trust};
ghost use Rattle.cosign_parts.specs.Verifier.{valid_in};
ghost use Rattle.pull_lock.specs.Locked.{Locked, Judges};
ghost use Rattle.locked_cases.specs.Checks.{error_print, error_report, verdict_report, ChecksLock, PrintsVerdict};

use crate::input::CheckInput;
use cosign_layers::{Constraint, PullPolicy};
use cosign_parts::{LogKeys, TableJudge, TableVerifier};
use json_values::{Blob, List};
use oci_manifests::{PlatformResolver, ResolverPromise};
use pull_lock::{Lock, LockError, LockVerdict, check_lock, read_lock};
use pull_report::{print_line, text_line};
use pulled_cases::Report;
use recorded_case::{Case, constraints_from};
use std::alloc::{AllocError, Global};

// The terms that a lock is checked against.
#[derive(Drop)]
struct Terms {
    platform: Option<PlatformResolver>,
    policy: PullPolicy,
    log_keys: LogKeys,
    verifier: TableVerifier,
    judge: TableJudge,
}

fn terms_in(case: Case, constraints: List<Constraint>) -> Terms
    ensures { result ≡ record {
      platform = case.platform;
      policy = record { keys = case.keys; constraints = constraints };
      log_keys = case.log_keys;
      verifier = record { rows = case.signatures };
      judge = case.vouched;
    } }
{
    Terms {
        platform: case.platform,
        policy: PullPolicy {
            keys: case.keys,
            constraints,
        },
        log_keys: case.log_keys,
        verifier: TableVerifier {
            rows: case.signatures,
        },
        judge: case.vouched,
    }
}

// The promise of a resolver, if there is one.
fn promise_of(platform: &Option<PlatformResolver>) -> Option<&ResolverPromise>
    ensures { option_copied result ≡ platform.now }
{
    match platform {
        Some(resolver) => Some(resolver.promise()),
        None => None,
    }
}

fn check_under(alloc: Global, terms: &Terms, lock: &Lock) -> Result<LockVerdict, AllocError>
    ensures { IfOk result (Judges (Locked (policy_context terms.now.policy (λ b. accepts (b.vtable, b.value))
        (trust (valid_in terms.now.verifier) (vouched_in terms.now.judge) terms.now.log_keys)) terms.now.platform)
        lock.now.entries) }
{
    let promise = promise_of(&terms.platform);
    check_lock(
        alloc,
        lock,
        promise,
        &terms.policy,
        &terms.log_keys,
        &terms.verifier,
        &terms.judge,
    )
}

fn write_verdict(alloc: Global, verdict: &LockVerdict) -> Result<Report, AllocError>
    ensures { IfOk result (λ made. made ≡ verdict_report verdict.now) }
{
    let mut bytes = Blob::empty(alloc);
    match verdict {
        LockVerdict::Holds => {
            bytes.append(b"lock holds\n")?;
            Ok(Report {
                bytes,
                refused: false,
            })
        }
        LockVerdict::Fails { image } => {
            print_line(alloc, &mut bytes, "lock fails", image)?;
            Ok(Report {
                bytes,
                refused: true,
            })
        }
    }
}

// The name of an error's variant.
fn error_print(error: LockError) -> &'static str
    ensures { result.now ≡ error_print error }
{
    match error {
        LockError::NotText => "NotText",
        LockError::Order => "Order",
        LockError::Unreadable => "Unreadable",
        LockError::NotCanonical => "NotCanonical",
        LockError::WantOfMemory => "WantOfMemory",
    }
}

fn write_error(alloc: Global, error: LockError) -> Result<Report, AllocError>
    ensures { IfOk result (λ made. made ≡ error_report error) }
{
    let mut bytes = Blob::empty(alloc);
    text_line(&mut bytes, "lock refused", error_print(error))?;
    Ok(Report {
        bytes,
        refused: true,
    })
}

// Drops both in a function without other facts, so that each of their many parts is dropped once.
fn drop_both(_terms: Terms, _lock: Lock) {}

// The line of a lock that was read.
fn check_read(alloc: Global, case: Case, lock: Lock) -> Result<Report, AllocError>
    ensures { IfOk result (PrintsVerdict case lock) }
{
    let constraints = match constraints_from(alloc, case.constraints.as_slice()) {
        Ok(constraints) => constraints,
        Err(_) => return without_memory(case, lock),
    };
    let terms = terms_in(case, constraints);
    let verdict = check_under(alloc, &terms, &lock);
    drop_both(terms, lock);
    let verdict = verdict?;
    let report = write_verdict(alloc, &verdict)?;
    Ok(report)
}

fn without_memory(_case: Case, _lock: Lock) -> Result<Report, AllocError>
    ensures { IsErr result }
{
    Err(AllocError)
}

/// Reads the lock file of the input and checks it again under the case's policy, tables of valid signatures and vouched
/// certificates, keys of logs and platform. Returns the line of the verdict, or of why there is no lock: `Unreadable`,
/// `NotCanonical` or `Order`, as `read_lock` returns it.
pub fn check_input(alloc: Global, input: CheckInput) -> Result<Report, AllocError>
    ensures { IfOk result (ChecksLock input) }
{
    match read_lock(alloc, input.lock.as_str().as_bytes()) {
        Ok(lock) => check_read(alloc, input.case, lock),
        Err(LockError::WantOfMemory) => Err(AllocError),
        Err(error) => write_error(alloc, error),
    }
}
