//! Pushes a small image with a host, which opens the connections: asks for the settings, pushes the image, asks for its
//! blobs, lists tags, pushes the manifest again as bytes, mounts the blobs in another repository, pushes a signature of
//! the manifest and an index that is refused, and sends a line for each call.
#![tactic(auto)]

mod calls;
mod frames;
mod image;
mod lines;
mod settings;
mod signature;
mod status;

use byte_streams::{Sink, Source, StdSink, StdSource};
use calls::{calls_of, end_calls, make_calls};
use frames::{begin_head, lines_head};
use json_values::Blob;
use live_host::{Streams, hear, tell};
use live_link::StreamTransport;
use settings::{Target, read_settings};
use status::Failure;
use std::alloc::Global;
use std::process::ExitCode;

// Begins, and receives the settings.
fn begin<S: Source, K: Sink>(
    alloc: Global,
    streams: &mut Streams<S, K>,
) -> Result<Target, Failure> {
    let head = begin_head(alloc)?;
    tell(alloc, streams, &head, &[])?;
    let frame = hear(alloc, streams)?;
    let settings = read_settings(alloc, frame.value())?;
    Ok(settings)
}

// Makes the calls over the streams, and returns them with the lines.
fn converse<S: Source + Drop, K: Sink + Drop>(
    alloc: Global,
    streams: Streams<S, K>,
    target: Target,
) -> Result<(Streams<S, K>, Blob), Failure> {
    let Streams { source, sink } = streams;
    let transport = StreamTransport::new(source, sink);
    let mut calls = calls_of(alloc, target, transport)?;
    make_calls(alloc, &mut calls)?;
    let (transport, lines) = end_calls(calls);
    let (source, sink) = transport.finish();
    Ok((Streams { source, sink }, lines))
}

fn run<S: Source + Drop, K: Sink + Drop>(
    alloc: Global,
    streams: Streams<S, K>,
) -> Result<(), Failure> {
    let mut streams = streams;
    let target = begin(alloc, &mut streams)?;
    let (mut streams, lines) = converse(alloc, streams, target)?;
    let head = lines_head(alloc, lines.as_slice().len())?;
    tell(alloc, &mut streams, &head, lines.as_slice())?;
    Ok(())
}

fn main(rt: HostRuntime) -> ExitCode {
    let streams = Streams {
        source: StdSource::new(rt.stdin()),
        sink: StdSink::new(rt.stdout()),
    };
    match run(rt.alloc(), streams) {
        Ok(()) => ExitCode::from(0),
        Err(failure) => ExitCode::from(failure.code()),
    }
}
