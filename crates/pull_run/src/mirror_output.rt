// The report of a mirror.
ghost use Rattle.std.specs.Prelude.{◌≡◌, [], false, true, Ok, Err, IfOk, OnOk};
ghost use Rattle.pull_mirror.specs.declared.refusals.MirrorError.TheVariants as mirror;
ghost use Rattle.pull_report.specs.Report.{report as lines_of};
ghost use Rattle.pull_run.specs.Mirrors.{mirror_report, wants_memory};

use crate::prints::{RefusedPush, RefusedTarget, write_pushed};
use cosign_client::{PullRefusal, VerifiedImage};
use json_values::{Blob, Text};
use oci_transport::Exchange;
use pull_mirror::{MirrorError, MirrorReport};
use pull_report::{drop_outcome, print_line, text_line, write_lines, write_report};
use pulled_cases::Report;
use std::alloc::{AllocError, Global};

// The report of a pull.
fn report_pull(
    alloc: Global,
    moment: u64,
    pull: &[Exchange],
    outcome: &Result<VerifiedImage, PullRefusal>,
) -> Result<Blob, AllocError>
    ensures { IfOk result (λ bytes. bytes ≡ lines_of moment pull.now outcome.now) }
{
    let mut bytes = Blob::empty(alloc);
    write_report(alloc, &mut bytes, moment, pull, outcome)?;
    Ok(bytes)
}

// The report of a pull that returned an image.
fn report_found(
    alloc: Global,
    moment: u64,
    pull: &[Exchange],
    found: VerifiedImage,
) -> Result<Blob, AllocError>
    ensures { IfOk result (λ bytes. bytes ≡ lines_of moment pull.now (Ok found)) }
{
    let outcome = Ok(found);
    let bytes = report_pull(alloc, moment, pull, &outcome);
    drop_outcome(outcome);
    bytes
}

fn refused_report(bytes: Blob) -> Report
    ensures { result ≡ record { bytes = bytes; refused = true } }
{
    Report {
        bytes,
        refused: true,
    }
}

// The line of a refused target, and nothing else.
fn refuse_target(alloc: Global, reference: Text) -> Result<Report, AllocError>
    ensures { IfOk result (λ made. made ≡ mirror_report 0 [] [] (Err (mirror.Target reference))) }
{
    let refused = RefusedTarget { reference };
    let mut bytes = Blob::empty(alloc);
    print_line(alloc, &mut bytes, "refused", &refused)?;
    Ok(refused_report(bytes))
}

// The report of a refused pull, and nothing else.
fn refuse_pull(
    alloc: Global,
    moment: u64,
    pull: &[Exchange],
    refusal: PullRefusal,
) -> Result<Report, AllocError>
    ensures { IfOk result (λ made. made ≡ mirror_report moment pull.now [] (Err (mirror.Pull refusal))) }
{
    let outcome = Err(refusal);
    let bytes = report_pull(alloc, moment, pull, &outcome);
    drop_outcome(outcome);
    let bytes = bytes?;
    Ok(refused_report(bytes))
}

// The report of the pull, the requests to the target, and the push that it refused.
fn refuse_push(
    alloc: Global,
    moment: u64,
    pull: &[Exchange],
    pushes: &[Exchange],
    found: VerifiedImage,
    refused: &RefusedPush,
) -> Result<Report, AllocError>
    ensures { IfOk result (λ made. made ≡ mirror_report moment pull.now pushes.now
        (Err (mirror.Push found refused.now.digest refused.now.error))) }
{
    let mut bytes = report_found(alloc, moment, pull, found)?;
    write_lines(alloc, &mut bytes, pushes)?;
    print_line(alloc, &mut bytes, "refused", refused)?;
    Ok(refused_report(bytes))
}

// The report of the pull, the requests to the target, and what was pushed.
fn report_mirror(
    alloc: Global,
    moment: u64,
    pull: &[Exchange],
    pushes: &[Exchange],
    report: MirrorReport,
) -> Result<Report, AllocError>
    ensures { IfOk result (λ made. made ≡ mirror_report moment pull.now pushes.now (Ok report)) }
{
    let MirrorReport {
        found,
        pushed,
        manifest_url,
    } = report;
    let mut bytes = report_found(alloc, moment, pull, found)?;
    write_lines(alloc, &mut bytes, pushes)?;
    write_pushed(&mut bytes, pushed.as_slice())?;
    text_line(&mut bytes, "mirrored", manifest_url.as_str())?;
    Ok(Report {
        bytes,
        refused: false,
    })
}

/// Writes the report of what a mirror returned, with its two conversations. Returns an error if memory ran out, also in
/// the mirror.
pub fn report_outcome(
    alloc: Global,
    moment: u64,
    pull: &[Exchange],
    pushes: &[Exchange],
    outcome: Result<MirrorReport, MirrorError>,
) -> Result<Report, AllocError>
    ensures written { IfOk result (λ made. made ≡ mirror_report moment pull.now pushes.now outcome) }
    ensures whole { OnOk result (wants_memory outcome ≡ false) }
{
    match outcome {
        Ok(report) => report_mirror(alloc, moment, pull, pushes, report),
        Err(MirrorError::Target { reference }) => refuse_target(alloc, reference),
        Err(MirrorError::Pull(refusal)) => refuse_pull(alloc, moment, pull, refusal),
        Err(
            MirrorError::Push {
                found,
                digest,
                error,
            },
        ) => {
            let refused = RefusedPush { digest, error };
            refuse_push(alloc, moment, pull, pushes, found, &refused)
        }
        Err(MirrorError::WantOfMemory) => Err(AllocError),
    }
}
