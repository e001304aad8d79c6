// What is sent at the end of a copy.
ghost use Rattle.std.specs.Prelude.{◌≡◌, Ok, Err, IfErr, IfOk, OnOk};
ghost use Rattle.live_host.specs.Wire.{wire};
ghost use Rattle.live_copy.specs.Course.{CopyTold, IsReport, OfDocuments, OfTags, OutcomeCut, RefusalCut, RefusalTold};
ghost use Rattle.live_copy.specs.Course.{copied_of, ran_out, tags_ran_out};
ghost use Rattle.live_copy.specs.Parts.{Delivers, EndsTelling};

use crate::TargetRefusal;
use crate::heads::copied_head;
use byte_streams::{Sink, Source};
use json_values::{Blob, Text};
use live_host::{HostError, Streams, refused_head, tell};
use live_pull::Status;
use pull_mirror::{DocumentsRefusal, PushReport};
use pull_report::{Printed, print_line};
use std::alloc::{AllocError, Global};

// The line of a refusal, or nothing if it is not UTF-8.
fn report_of<R: Printed>(alloc: Global, refusal: &R) -> Result<Text, AllocError>
    ensures { IfOk result (λ report. IsReport (R.print refusal.now) report) }
{
    let mut line = Blob::empty(alloc);
    print_line(alloc, &mut line, "refused", refusal)?;
    match std::str::from_utf8(line.as_slice()) {
        Ok(text) => Text::new(alloc, text),
        Err(_) => Text::new(alloc, ""),
    }
}

fn give_refusal<S: Source, K: Sink, R: Printed>(
    alloc: Global,
    streams: &mut Streams<S, K>,
    refusal: &R,
) -> Result<(), HostError>
    ensures told { OnOk result (RefusalTold (R.print refusal.now)
        (wire S.state K.state streams.old) (wire S.state K.state streams.new)) }
    ensures cause { IfErr result (λ e. RefusalCut (R.print refusal.now) e
        (wire S.state K.state streams.old) (wire S.state K.state streams.new)) }
{
    let report = report_of(alloc, refusal)?;
    let head = refused_head(alloc, report.as_str())?;
    tell(alloc, streams, &head, &[])?;
    Ok(())
}

fn send_refusal<S: Source, K: Sink, R: Printed>(
    alloc: Global,
    streams: &mut Streams<S, K>,
    refusal: &R,
) -> Status
    ensures { EndsTelling (R.print refusal.now) result
        (wire S.state K.state streams.old) (wire S.state K.state streams.new) }
{
    match give_refusal(alloc, streams, refusal) {
        Ok(()) => Status::Refused,
        Err(error) => Status::from(error),
    }
}

fn give_report<S: Source, K: Sink>(
    alloc: Global,
    streams: &mut Streams<S, K>,
    report: &PushReport,
) -> Result<(), HostError>
    ensures told { OnOk result (CopyTold (Ok report.now)
        (wire S.state K.state streams.old) (wire S.state K.state streams.new)) }
    ensures cause { IfErr result (λ e. OutcomeCut e (Ok report.now)
        (wire S.state K.state streams.old) (wire S.state K.state streams.new)) }
{
    let head = copied_head(alloc, &report.manifest_url, &report.pushed)?;
    tell(alloc, streams, &head, &[])?;
    Ok(())
}

fn ran_out(refusal: &DocumentsRefusal) -> bool
    ensures { result ≡ ran_out refusal.now }
{
    match refusal {
        DocumentsRefusal::Missing { .. } => false,
        DocumentsRefusal::Refused { .. } => false,
        DocumentsRefusal::WantOfMemory => true,
    }
}

fn tags_ran_out(refusal: &TargetRefusal) -> bool
    ensures { result ≡ tags_ran_out refusal.now }
{
    match refusal {
        TargetRefusal::Taken { .. } => false,
        TargetRefusal::Unread { .. } => false,
        TargetRefusal::WantOfMemory => true,
    }
}

fn deliver_report<S: Source, K: Sink>(
    alloc: Global,
    streams: &mut Streams<S, K>,
    report: &PushReport,
) -> Status
    ensures { Delivers (Ok report.now) result
        (wire S.state K.state streams.old) (wire S.state K.state streams.new) }
{
    match give_report(alloc, streams, report) {
        Ok(()) => Status::Pulled,
        Err(error) => Status::from(error),
    }
}

fn deliver_refusal<S: Source, K: Sink>(
    alloc: Global,
    streams: &mut Streams<S, K>,
    refusal: &DocumentsRefusal,
) -> Status
    ensures { Delivers (Err (OfDocuments refusal.now)) result
        (wire S.state K.state streams.old) (wire S.state K.state streams.new) }
{
    if ran_out(refusal) {
        return Status::WantOfMemory;
    }
    send_refusal(alloc, streams, refusal)
}

/// Sends why a tag of the target refused a copy, unless memory ran out. Returns the exit status.
pub(crate) fn deliver_taken<S: Source, K: Sink>(
    alloc: Global,
    streams: &mut Streams<S, K>,
    refusal: &TargetRefusal,
) -> Status
    ensures { Delivers (Err (OfTags refusal.now)) result
        (wire S.state K.state streams.old) (wire S.state K.state streams.new) }
{
    if tags_ran_out(refusal) {
        return Status::WantOfMemory;
    }
    send_refusal(alloc, streams, refusal)
}

/// Sends what was pushed, or why a copy was refused, unless memory ran out. Returns the exit status.
pub(crate) fn deliver<S: Source, K: Sink>(
    alloc: Global,
    streams: &mut Streams<S, K>,
    outcome: &Result<PushReport, DocumentsRefusal>,
) -> Status
    ensures { Delivers (copied_of outcome.now) result
        (wire S.state K.state streams.old) (wire S.state K.state streams.new) }
{
    match outcome {
        Ok(report) => deliver_report(alloc, streams, report),
        Err(refusal) => deliver_refusal(alloc, streams, refusal),
    }
}
