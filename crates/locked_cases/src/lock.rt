// The subcommand `lock`: the file of the images of several cases.
ghost use Rattle.std.specs.Prelude.{◌≡◌, false, true, IfOk, IsErr, IsTrue, Ok};
ghost use Rattle.oci_names.specs.Reference.{reference_of, whole_text};
ghost use Rattle.registry_calls.specs.Direct.{reference_in};
ghost use Rattle.recorded_case.specs.Case.{IsReady};
ghost use Rattle.pull_lock.specs.Files.{increases, IsFileOf};
ghost use Rattle.pull_lock.specs.Locked.{entry_with, is_text};
ghost use Rattle.pulled_cases.specs.Once.{HasOneMoment, PulledOnce};
ghost use Rattle.locked_cases.specs.Input.{whole_of, AreReady};
ghost use Rattle.locked_cases.specs.Locks.{refused_line, LocksCases};
ghost use Rattle.locked_cases.specs.Entering.{AsksFor, Enters, EntersCase, EntersAll};

use crate::input::{LockInput, whole_of};
use crate::refused::{Cause, Refused};
use cosign_chain::VerifiedImage;
use cosign_client::image_in;
use json_values::{Blob, Copied, List, Text};
use pull_lock::{Lock, LockEntry, LockError, lock_entry, write_lock};
use pull_report::print_line;
use pulled_cases::{OnePull, Report, pull_once};
use recorded_case::{Case, Replay};
use sig_registry::OciReference;
use std::alloc::{AllocError, Global};

// What the entry of a case has of it.
#[derive(Drop)]
struct Asked {
    whole: Text,
    image: OciReference,
    accepted: List<Text>,
}

fn asked_of(alloc: Global, case: &Case) -> Result<Asked, AllocError>
    requires { IsReady case.now }
    ensures { IfOk result (AsksFor case.now) }
{
    let whole = whole_of(alloc, case)?;
    let image = image_in(alloc, case.reference.as_str())?;
    let accepted = case.accepted.copy(alloc)?;
    Ok(Asked {
        whole,
        image,
        accepted,
    })
}

// Drops an image in a function without other facts.
fn drop_found(_found: VerifiedImage) {}

// Drops a conversation in a function without other facts.
fn drop_replay(_replay: Replay) {}

// The entry of an image, or its refusal if it is not UTF-8.
fn enter_found(
    alloc: Global,
    asked: Asked,
    found: &VerifiedImage,
) -> Result<Result<LockEntry, Refused>, AllocError>
    ensures { IfOk result (Enters asked found.now) }
{
    let Asked {
        whole,
        image,
        accepted,
    } = asked;
    match lock_entry(alloc, image.reference(), accepted.as_slice(), found) {
        Ok(entry) => Ok(Ok(entry)),
        Err(LockError::NotText) => {
            let cause = Cause::NotText;
            Ok(Err(Refused {
                image: whole,
                cause,
            }))
        }
        Err(_) => Err(AllocError),
    }
}

// The entry of what a case was pulled to, or its refusal.
fn enter_pull(
    alloc: Global,
    asked: Asked,
    pull: OnePull,
) -> Result<Result<LockEntry, Refused>, AllocError>
    ensures { (case : _) → AsksFor case asked → PulledOnce case pull → IfOk result (EntersCase case) }
{
    let OnePull { outcome, replay } = pull;
    drop_replay(replay);
    match outcome {
        Ok(found) => {
            let entered = enter_found(alloc, asked, &found);
            drop_found(found);
            entered
        }
        Err(refusal) => {
            let cause = Cause::Pull(refusal);
            Ok(Err(Refused {
                image: asked.whole,
                cause,
            }))
        }
    }
}

fn enter_asked(
    alloc: Global,
    asked: Asked,
    case: Case,
) -> Result<Result<LockEntry, Refused>, AllocError>
    requires ready { IsReady case }
    requires once { HasOneMoment case }
    ensures { AsksFor case asked → IfOk result (EntersCase case) }
{
    match pull_once(alloc, case) {
        Ok(pull) => enter_pull(alloc, asked, pull),
        Err(_) => Err(AllocError),
    }
}

// The entry of a case, after its one pull by a new client.
fn enter_case(alloc: Global, case: Case) -> Result<Result<LockEntry, Refused>, AllocError>
    requires ready { IsReady case }
    requires once { HasOneMoment case }
    ensures { IfOk result (EntersCase case) }
{
    match asked_of(alloc, &case) {
        Ok(asked) => enter_asked(alloc, asked, case),
        Err(_) => without_memory(case),
    }
}

fn without_memory(_case: Case) -> Result<Result<LockEntry, Refused>, AllocError>
    ensures { IsErr result }
{
    Err(AllocError)
}

// The entries of all cases, or the refusal of the first one that has none.
fn enter_all(alloc: Global, input: LockInput) -> Result<Result<Lock, Refused>, AllocError>
    requires { AreReady input }
    ensures { IfOk result (EntersAll input) }
{
    let mut entries = List::new(alloc);
    for case in input.cases.into_vec() {
        let entered = enter_case(alloc, case)?;
        match entered {
            Ok(entry) => entries.push(entry)?,
            Err(refused) => return Ok(Err(refused)),
        }
    }
    Ok(Ok(Lock { entries }))
}

fn write_file(alloc: Global, lock: &Lock) -> Result<Report, AllocError>
    requires { IsTrue (increases lock.now.entries) }
    ensures { IfOk result (λ made. (made.refused ≡ false) × IsFileOf lock.now made.bytes) }
{
    match write_lock(alloc, lock) {
        Ok(bytes) => Ok(Report {
            bytes,
            refused: false,
        }),
        Err(LockError::WantOfMemory) => Err(AllocError),
        Err(_) => unreachable!(),
    }
}

fn write_refused(alloc: Global, refused: &Refused) -> Result<Report, AllocError>
    ensures { IfOk result (λ made. made ≡ record { bytes = refused_line refused.now; refused = true }) }
{
    let mut bytes = Blob::empty(alloc);
    print_line(alloc, &mut bytes, "refused", refused)?;
    Ok(Report {
        bytes,
        refused: true,
    })
}

/// Pulls the image of each case in order, each with a new client, and returns the lock file of all images. At the first
/// case whose pull is refused, or whose image is not UTF-8, returns its line alone, and pulls no later case.
pub fn lock_cases(alloc: Global, input: LockInput) -> Result<Report, AllocError>
    requires { AreReady input }
    ensures { IfOk result (LocksCases input) }
{
    let entered = enter_all(alloc, input)?;
    match entered {
        Ok(lock) => write_file(alloc, &lock),
        Err(refused) => write_refused(alloc, &refused),
    }
}
