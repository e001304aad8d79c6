// The blobs of a range, each received in parts and held to its descriptor.
ghost use Rattle.std.specs.Prelude.{IfOk, IfErr};
ghost use Rattle.call_laws.specs.Blobs.{descriptors_of, range_of};
ghost use Rattle.live_host.specs.Wire.{wire};
ghost use Rattle.live_pull.specs.Status.{StatusCause};
ghost use Rattle.live_check.specs.Blobs.{BlobChecked, PartsChecked, PartsHashed, Went};
ghost use Rattle.live_check.specs.Blobs.{BlobCut, PartsCut, PiecesCut, WentCut};

use crate::heads::want_head;
use crate::parts::{Part, next_part};
use byte_streams::{Sink, Source};
use image_blobs::{BlobRange, descriptor_at, digester_of};
use json_values::{Copied, Text};
use live_host::{Streams, tell};
use live_pull::Status;
use oci_digests::Digester;
use oci_manifests::{OciDescriptor, OciImageManifest};
use std::alloc::Global;

// Receives the parts of a blob, piece by piece, and hashes them; returns whether they are whole and have `size` bytes.
// Stops as soon as more were received.
fn hash_parts<S: Source, K: Sink>(
    alloc: Global,
    streams: &mut Streams<S, K>,
    size: u64,
    digester: &mut Digester,
) -> Result<bool, Status>
    ensures hashed { IfOk result (λ sized. PartsHashed size digester.old digester.new sized
        (wire S.state K.state streams.old) (wire S.state K.state streams.new)) }
    ensures cause { IfErr result (StatusCause (λ e. PiecesCut size e
        (wire S.state K.state streams.old) (wire S.state K.state streams.new))) }
{
    let mut left = size;
    loop {
        let part = next_part(alloc, streams)?;
        let piece = match part {
            Part::Piece(piece) => piece,
            Part::End => return Ok(left == 0),
            Part::Failed => return Ok(false),
        };
        let count = piece.as_slice().len() as u64;
        if count > left {
            return Ok(false);
        }
        left -= count;
        digester.update(piece.as_slice());
    }
}

// Receives the parts of a blob, and returns whether they are the descriptor's.
fn parts_stand<S: Source, K: Sink>(
    alloc: Global,
    streams: &mut Streams<S, K>,
    x: &OciDescriptor,
) -> Result<bool, Status>
    ensures checked { IfOk result (λ stood. PartsChecked x.now stood
        (wire S.state K.state streams.old) (wire S.state K.state streams.new)) }
    ensures cause { IfErr result (StatusCause (λ e. PartsCut x.now e
        (wire S.state K.state streams.old) (wire S.state K.state streams.new))) }
{
    if x.size < 0 {
        return Ok(false);
    }
    let Some(mut digester) = digester_of(alloc, x.digest.as_str())? else {
        return Ok(false);
    };
    let sized = hash_parts(alloc, streams, x.size as u64, &mut digester)?;
    if !sized {
        return Ok(false);
    }
    let text = digester.finalize(alloc)?;
    Ok(text.as_str() == x.digest.as_str())
}

// Asks for the blob of a descriptor, and returns whether it stands.
fn blob_stands<S: Source, K: Sink>(
    alloc: Global,
    streams: &mut Streams<S, K>,
    x: &OciDescriptor,
) -> Result<bool, Status>
    ensures checked { IfOk result (λ stood. BlobChecked x.now stood
        (wire S.state K.state streams.old) (wire S.state K.state streams.new)) }
    ensures cause { IfErr result (StatusCause (λ e. BlobCut x.now e
        (wire S.state K.state streams.old) (wire S.state K.state streams.new))) }
{
    let head = want_head(alloc, &x.digest)?;
    tell(alloc, streams, &head, &[])?;
    let stood = parts_stand(alloc, streams, x)?;
    Ok(stood)
}

/// Asks for the blobs of a range one after another, up to the first that does not stand; returns the digest of that
/// one, or `None` if each stands.
pub(crate) fn first_fallen<S: Source, K: Sink>(
    alloc: Global,
    streams: &mut Streams<S, K>,
    manifest: &OciImageManifest,
    range: BlobRange,
) -> Result<Option<Text>, Status>
    ensures went { IfOk result (λ fell. Went (range_of range.first range.end (descriptors_of manifest.now)) fell
        (wire S.state K.state streams.old) (wire S.state K.state streams.new)) }
    ensures cause { IfErr result (StatusCause (λ e. WentCut
        (range_of range.first range.end (descriptors_of manifest.now)) e
        (wire S.state K.state streams.old) (wire S.state K.state streams.new))) }
{
    let mut at = range.first;
    while at < range.end {
        let Some(x) = descriptor_at(manifest, at) else {
            return Ok(None);
        };
        let stood = blob_stands(alloc, streams, x)?;
        if !stood {
            let digest = x.digest.copy(alloc)?;
            return Ok(Some(digest));
        }
        at += 1;
    }
    Ok(None)
}
