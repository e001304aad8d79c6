// How an error is sent.
ghost use Rattle.std.specs.Prelude.{◌≡◌, IfOk, IfErr, OnOk};
ghost use Rattle.live_host.specs.Wire.{wire};
ghost use Rattle.live_pull.specs.Refusals.{IsReport, RefusalCut, RefusalTold};

use byte_streams::{Sink, Source};
use cosign_client::PullRefusal;
use json_values::{Blob, Text};
use live_host::{HostError, Streams, refused_head, tell};
use pull_report::write_refusal;
use std::alloc::{AllocError, Global};

// The lines of an error, or nothing if they are not UTF-8.
fn report_of(alloc: Global, refusal: &PullRefusal) -> Result<Text, AllocError>
    ensures { IfOk result (λ report. IsReport refusal.now report) }
{
    let mut lines = Blob::empty(alloc);
    write_refusal(alloc, &mut lines, refusal)?;
    match std::str::from_utf8(lines.as_slice()) {
        Ok(text) => Text::new(alloc, text),
        Err(_) => Text::new(alloc, ""),
    }
}

/// Sends why an image was not pulled.
pub(crate) fn give_refusal<S: Source, K: Sink>(
    alloc: Global,
    streams: &mut Streams<S, K>,
    refusal: &PullRefusal,
) -> Result<(), HostError>
    ensures told { OnOk result (RefusalTold refusal.now
        (wire S.state K.state streams.old) (wire S.state K.state streams.new)) }
    ensures cause { IfErr result (λ e. RefusalCut refusal.now e
        (wire S.state K.state streams.old) (wire S.state K.state streams.new)) }
{
    let report = report_of(alloc, refusal)?;
    let head = refused_head(alloc, report.as_str())?;
    tell(alloc, streams, &head, &[])?;
    Ok(())
}
