// What is sent at the end of a carry.
ghost use Rattle.std.specs.Prelude.{[], Ok, Err, IfErr, IfOk, OnOk};
ghost use Rattle.live_host.specs.HostErrors.{TellCause};
ghost use Rattle.live_host.specs.Wire.{wire, SendsFrame};
ghost use Rattle.live_blobs.specs.CarryEnds.{Delivers};
ghost use Rattle.live_blobs.specs.CarryHeads.{carried_head};
ghost use Rattle.live_blobs.specs.Delivery.{IsReport, RefusalCut, RefusalTold};

use crate::carry_heads::carried_head;
use byte_streams::{Sink, Source};
use engine_terms::OciDistributionError;
use json_values::{Blob, Text};
use live_host::{HostError, Streams, refused_head, tell};
use live_pull::Status;
use pull_report::print_line;
use std::alloc::{AllocError, Global};

// The line of an error, or nothing if it is not UTF-8.
fn report_of(alloc: Global, error: &OciDistributionError) -> Result<Text, AllocError>
    ensures { IfOk result (λ report. IsReport error.now report) }
{
    let mut line = Blob::empty(alloc);
    print_line(alloc, &mut line, "refused", error)?;
    match std::str::from_utf8(line.as_slice()) {
        Ok(text) => Text::new(alloc, text),
        Err(_) => Text::new(alloc, ""),
    }
}

fn give_error<S: Source, K: Sink>(
    alloc: Global,
    streams: &mut Streams<S, K>,
    error: &OciDistributionError,
) -> Result<(), HostError>
    ensures told { OnOk result (RefusalTold error.now
        (wire S.state K.state streams.old) (wire S.state K.state streams.new)) }
    ensures cause { IfErr result (λ e. RefusalCut error.now e
        (wire S.state K.state streams.old) (wire S.state K.state streams.new)) }
{
    let report = report_of(alloc, error)?;
    let head = refused_head(alloc, report.as_str())?;
    tell(alloc, streams, &head, &[])?;
    Ok(())
}

fn give_carried<S: Source, K: Sink>(
    alloc: Global,
    streams: &mut Streams<S, K>,
    digest: &str,
    pushed: bool,
) -> Result<(), HostError>
    ensures told { OnOk result (SendsFrame (carried_head digest.now pushed) []
        (wire S.state K.state streams.old) (wire S.state K.state streams.new)) }
    ensures cause { IfErr result (λ e. TellCause (carried_head digest.now pushed, []) e
        (wire S.state K.state streams.old) (wire S.state K.state streams.new)) }
{
    let head = carried_head(alloc, digest, pushed)?;
    tell(alloc, streams, &head, &[])?;
    Ok(())
}

fn deliver_carried<S: Source, K: Sink>(
    alloc: Global,
    streams: &mut Streams<S, K>,
    digest: &str,
    pushed: bool,
) -> Status
    ensures { Delivers digest.now (Ok pushed) result
        (wire S.state K.state streams.old) (wire S.state K.state streams.new) }
{
    match give_carried(alloc, streams, digest, pushed) {
        Ok(()) => Status::Pulled,
        Err(error) => Status::from(error),
    }
}

fn deliver_error<S: Source, K: Sink>(
    alloc: Global,
    streams: &mut Streams<S, K>,
    digest: &str,
    error: &OciDistributionError,
) -> Status
    ensures { Delivers digest.now (Err error.now) result
        (wire S.state K.state streams.old) (wire S.state K.state streams.new) }
{
    if error.is_memory() {
        return Status::WantOfMemory;
    }
    match give_error(alloc, streams, error) {
        Ok(()) => Status::Refused,
        Err(error) => Status::from(error),
    }
}

/// Sends that the target has the blob of this digest, or why it was not carried, unless memory ran out. Returns the
/// exit status.
pub(crate) fn deliver<S: Source, K: Sink>(
    alloc: Global,
    streams: &mut Streams<S, K>,
    digest: &str,
    outcome: &Result<bool, OciDistributionError>,
) -> Status
    ensures { Delivers digest.now outcome.now result
        (wire S.state K.state streams.old) (wire S.state K.state streams.new) }
{
    match outcome {
        Ok(pushed) => deliver_carried(alloc, streams, digest, *pushed),
        Err(error) => deliver_error(alloc, streams, digest, error),
    }
}
