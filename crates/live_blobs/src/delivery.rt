// What is sent after a pull of blobs.
ghost use Rattle.std.specs.Prelude.{◌≡◌, ◌≤◌, [], length, Ok, Err, IfOk, IfErr, OnOk, MatchOption};
ghost use Rattle.call_laws.specs.Blobs.{descriptors_of, range_of};
ghost use Rattle.image_blobs.specs.Taken.{IsAt};
ghost use Rattle.live_host.specs.HostErrors.{TellCause};
ghost use Rattle.live_host.specs.Wire.{wire, SendsFrame};
ghost use Rattle.live_blobs.specs.Delivery.{BlobsCut, BlobsTold, Delivers, IsReport, RefusalCut, RefusalTold};
ghost use Rattle.live_blobs.specs.Heads.{stood_head};
ghost use Rattle.live_blobs.specs.LiveBlobs.{digests_of};

use crate::heads::stood_head;
use byte_streams::{Sink, Source};
use engine_terms::OciDistributionError;
use image_blobs::BlobRange;
use json_values::{Blob, Copied, List, Text};
use live_host::{HostError, Streams, refused_head, tell};
use live_pull::Status;
use oci_manifests::{OciDescriptor, OciImageManifest};
use pull_report::print_line;
use std::alloc::{AllocError, Global};

/// Returns the descriptor of the blob at this index.
pub fn descriptor_at(manifest: &OciImageManifest, at: usize) -> Option<&OciDescriptor>
    ensures { MatchOption result (length (descriptors_of manifest.now) ≤ at)
        (λ x. IsAt (descriptors_of manifest.now) at x.now) }
{
    if at == 0 {
        return Some(&manifest.config);
    }
    let layers = manifest.layers.as_slice();
    if at > layers.len() {
        return None;
    }
    Some(&layers[at - 1])
}

// Returns the digests of the blobs of the range.
fn digests(
    alloc: Global,
    manifest: &OciImageManifest,
    range: BlobRange,
) -> Result<List<Text>, AllocError>
    ensures { IfOk result (λ list.
        list ≡ digests_of (range_of range.first range.end (descriptors_of manifest.now))) }
{
    let mut list = List::new(alloc);
    let mut at = range.first;
    while at < range.end {
        let Some(x) = descriptor_at(manifest, at) else {
            return Ok(list);
        };
        let digest = x.digest.copy(alloc)?;
        list.push(digest)?;
        at += 1;
    }
    Ok(list)
}

// Sends the digests of the blobs of the range.
fn give_stood<S: Source, K: Sink>(
    alloc: Global,
    streams: &mut Streams<S, K>,
    manifest: &OciImageManifest,
    range: BlobRange,
) -> Result<(), HostError>
    ensures told { OnOk result (SendsFrame
        (stood_head (digests_of (range_of range.first range.end (descriptors_of manifest.now)))) []
        (wire S.state K.state streams.old) (wire S.state K.state streams.new)) }
    ensures cause { IfErr result (λ e. TellCause
        (stood_head (digests_of (range_of range.first range.end (descriptors_of manifest.now))), []) e
        (wire S.state K.state streams.old) (wire S.state K.state streams.new)) }
{
    let digests = digests(alloc, manifest, range)?;
    let head = stood_head(alloc, &digests)?;
    tell(alloc, streams, &head, &[])?;
    Ok(())
}

// The line of an error, or nothing if it is not UTF-8.
fn report_of(alloc: Global, error: &OciDistributionError) -> Result<Text, AllocError>
    ensures { IfOk result (λ report. IsReport error.now report) }
{
    let mut line = Blob::empty(alloc);
    print_line(alloc, &mut line, "refused", error)?;
    match std::str::from_utf8(line.as_slice()) {
        Ok(text) => Text::new(alloc, text),
        Err(_) => Text::new(alloc, ""),
    }
}

/// Sends an error as the line of a refusal.
pub fn give_error<S: Source, K: Sink>(
    alloc: Global,
    streams: &mut Streams<S, K>,
    error: &OciDistributionError,
) -> Result<(), HostError>
    ensures told { OnOk result (RefusalTold error.now
        (wire S.state K.state streams.old) (wire S.state K.state streams.new)) }
    ensures cause { IfErr result (λ e. RefusalCut error.now e
        (wire S.state K.state streams.old) (wire S.state K.state streams.new)) }
{
    let report = report_of(alloc, error)?;
    let head = refused_head(alloc, report.as_str())?;
    tell(alloc, streams, &head, &[])?;
    Ok(())
}

// Sends the digests of the blobs of the range, and an error.
fn give_both<S: Source, K: Sink>(
    alloc: Global,
    streams: &mut Streams<S, K>,
    manifest: &OciImageManifest,
    range: BlobRange,
    error: &OciDistributionError,
) -> Result<(), HostError>
    ensures told { OnOk result (BlobsTold
        (digests_of (range_of range.first range.end (descriptors_of manifest.now))) (Err error.now)
        (wire S.state K.state streams.old) (wire S.state K.state streams.new)) }
    ensures cause { IfErr result (λ e. BlobsCut
        (digests_of (range_of range.first range.end (descriptors_of manifest.now))) (Err error.now) e
        (wire S.state K.state streams.old) (wire S.state K.state streams.new)) }
{
    give_stood(alloc, streams, manifest, range)?;
    give_error(alloc, streams, error)?;
    Ok(())
}

fn deliver_blobs<S: Source, K: Sink>(
    alloc: Global,
    streams: &mut Streams<S, K>,
    manifest: &OciImageManifest,
    range: BlobRange,
) -> Status
    ensures { Delivers (digests_of (range_of range.first range.end (descriptors_of manifest.now)))
        (Ok tt) result (wire S.state K.state streams.old) (wire S.state K.state streams.new) }
{
    match give_stood(alloc, streams, manifest, range) {
        Ok(()) => Status::Pulled,
        Err(error) => Status::from(error),
    }
}

fn deliver_error<S: Source, K: Sink>(
    alloc: Global,
    streams: &mut Streams<S, K>,
    manifest: &OciImageManifest,
    range: BlobRange,
    error: &OciDistributionError,
) -> Status
    ensures { Delivers (digests_of (range_of range.first range.end (descriptors_of manifest.now)))
        (Err error.now) result (wire S.state K.state streams.old) (wire S.state K.state streams.new) }
{
    if error.is_memory() {
        return Status::WantOfMemory;
    }
    match give_both(alloc, streams, manifest, range, error) {
        Ok(()) => Status::Refused,
        Err(error) => Status::from(error),
    }
}

/// Sends the digests of the blobs of the range, which stand, and the error if there is one, unless memory ran out.
/// Returns the exit status.
pub(crate) fn deliver<S: Source, K: Sink>(
    alloc: Global,
    streams: &mut Streams<S, K>,
    manifest: &OciImageManifest,
    range: BlobRange,
    outcome: &Result<(), OciDistributionError>,
) -> Status
    ensures { Delivers (digests_of (range_of range.first range.end (descriptors_of manifest.now)))
        outcome.now result (wire S.state K.state streams.old) (wire S.state K.state streams.new) }
{
    match outcome {
        Ok(()) => deliver_blobs(alloc, streams, manifest, range),
        Err(error) => deliver_error(alloc, streams, manifest, range, error),
    }
}
