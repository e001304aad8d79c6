// What the core does, as the first frame asks.
ghost use Rattle.std.specs.Prelude.{◌≡◌, IfOk, IfErr, []};
ghost use Rattle.live_host.specs.Heads.{begin_head};
ghost use Rattle.live_host.specs.Wire.{wire, SendsAndReceives};
ghost use Rattle.live_pull.specs.Parts.{FirstCause, ReadsFirst};
ghost use Rattle.roksnaep_core.specs.First.{first_of, IsFirstReady};
ghost use Rattle.roksnaep_core.specs.Whole.{CoreMeans, Serves};

use crate::first::{FirstFrame, read_first};
use byte_streams::{Sink, Source};
use json_tables::ReadError;
use json_values::Json;
use live_admit::serve_admit;
use live_blobs::{serve_blobs, serve_carry};
use live_check::{serve_check, serve_lock};
use live_copy::serve_copy;
use live_host::{Streams, begin_head, hear, tell};
use live_pull::{Ended, Status, serve, serve_documents};
use std::alloc::Global;

// What a frame asks for.
fn first_in(alloc: Global, frame: &Json) -> Result<FirstFrame, Status>
    ensures reads { ReadsFirst first_of result frame.now }
    ensures ready { IfOk result IsFirstReady }
{
    match read_first(alloc, frame.value()) {
        Ok(first) => Ok(first),
        Err(ReadError::WantOfMemory) => Err(Status::WantOfMemory),
        Err(ReadError::Shape) => Err(Status::UnreadableSettings),
        Err(ReadError::Float) => Err(Status::UnreadableSettings),
        Err(ReadError::Ambiguous) => Err(Status::UnreadableSettings),
    }
}

// Begins, and receives the first frame.
fn begin<S: Source, K: Sink>(
    alloc: Global,
    streams: &mut Streams<S, K>,
) -> Result<FirstFrame, Status>
    ensures begun { IfOk result (λ first. SendsAndReceives begin_head [] first_of first
        (wire S.state K.state streams.old) (wire S.state K.state streams.new)) }
    ensures ready { IfOk result IsFirstReady }
    ensures cause { IfErr result (λ status. FirstCause first_of status
        (wire S.state K.state streams.old) (wire S.state K.state streams.new)) }
{
    let head = begin_head(alloc)?;
    tell(alloc, streams, &head, &[])?;
    let frame = hear(alloc, streams)?;
    let first = first_in(alloc, &frame)?;
    Ok(first)
}

// What the first frame asks for.
fn serve_first<S: Source, K: Sink, B: Source>(
    alloc: Global,
    streams: Streams<S, K>,
    bytes: B,
    first: FirstFrame,
) -> (Ended<S, K>, B)
    requires { IsFirstReady first }
    ensures { Serves first result.0.status (B.state bytes) (B.state result.1)
        (wire S.state K.state streams) (wire S.state K.state result.0.streams) }
{
    match first {
        FirstFrame::Image(settings) => (serve(alloc, streams, settings), bytes),
        FirstFrame::Documents(settings) => (serve_documents(alloc, streams, settings), bytes),
        FirstFrame::Lock(settings) => (serve_lock(alloc, streams, settings), bytes),
        FirstFrame::Blobs(settings) => (serve_blobs(alloc, streams, settings), bytes),
        FirstFrame::Copy(settings) => (serve_copy(alloc, streams, settings), bytes),
        FirstFrame::Carry(settings) => serve_carry(alloc, streams, bytes, settings),
        FirstFrame::Check(settings) => (serve_check(alloc, streams, settings), bytes),
        FirstFrame::Admit(settings) => (serve_admit(alloc, streams, settings), bytes),
    }
}

fn end_with<S, K>(status: Status, streams: Streams<S, K>) -> Ended<S, K>
    ensures { result ≡ record { status = status; streams = streams } }
{
    Ended { status, streams }
}

/// Does what a host asks for, which opens the connections, verifies signatures and supplies the time: receives the
/// first frame, does what it asks for, and sends the result. Returns the exit status with the streams, and the
/// second source, which only a carry reads.
pub fn run<S: Source, K: Sink, B: Source>(
    alloc: Global,
    streams: Streams<S, K>,
    bytes: B,
) -> (Ended<S, K>, B)
    ensures status { CoreMeans result.0.status (B.state bytes) (B.state result.1)
        (wire S.state K.state streams) (wire S.state K.state result.0.streams) }
{
    let mut streams = streams;
    match begin(alloc, &mut streams) {
        Ok(first) => serve_first(alloc, streams, bytes, first),
        Err(status) => (end_with(status, streams), bytes),
    }
}
