// Bytes that are held to a descriptor.
ghost use Rattle.std.specs.Prelude.{◌≡◌, ◌<◌, ◌+◌, IfOk, length, vec_len};
ghost use Rattle.call_laws.specs.Cut.{size_of};
ghost use Rattle.image_blobs.specs.Checked.{Checks, DecidesAll, IsDigesterOf, ReadsBlob, TakesWithin};

use byte_streams::{Failed, Source};
use engine_terms::OciDistributionError;
use oci_digests::Digester;
use oci_manifests::OciDescriptor;
use std::alloc::{AllocError, Global};

/// The greatest length of a piece in bytes.
const PIECE: usize = 65536;

fn zeros(alloc: Global, count: usize) -> Result<Vec<u8>, AllocError>
    ensures { IfOk result (λ room. vec_len room ≡ count) }
{
    vec![in alloc; 0; count]
}

/// Returns a digester of the algorithm that the text names. `None` if it names none. Fails only if memory runs out.
pub fn digester_of(alloc: Global, digest: &str) -> Result<Option<Digester>, AllocError>
    ensures { IfOk result (IsDigesterOf digest.now) }
{
    match Digester::new(alloc, digest) {
        Ok(digester) => Ok(Some(digester)),
        Err(error) => {
            if error.is_memory() {
                return Err(AllocError);
            }
            Ok(None)
        }
    }
}

// Reads a source to its end, piece by piece in this room, and hashes its bytes; returns whether it has `size` bytes.
// Stops as soon as more were read, so that it reads at most one room more.
fn hashed<S: Source>(
    source: &mut S,
    size: u64,
    digester: &mut Digester,
    room: &mut [u8],
) -> Result<bool, OciDistributionError>
    requires { 0 < length room.now }
    ensures reads { ReadsBlob size digester.old digester.new (S.state source.old) (S.state source.new) result }
    ensures most { TakesWithin (size + length room.old) (S.state source.old) (S.state source.new) }
{
    let mut left = size;
    loop {
        let count = match source.take(room) {
            Ok(count) => count,
            Err(Failed) => return Err(OciDistributionError::SourceFault),
        };
        if count == 0 {
            return Ok(left == 0);
        }
        if count as u64 > left {
            return Ok(false);
        }
        left -= count as u64;
        digester.update(&room[..count]);
    }
}

// Reads the bytes of a source, and returns whether they are a descriptor's blob.
fn is_blob<S: Source>(
    alloc: Global,
    source: &mut S,
    descriptor: &OciDescriptor,
) -> Result<bool, OciDistributionError>
    ensures checks { Checks descriptor.now (S.state source.old) (S.state source.new) result }
    ensures most { TakesWithin (size_of descriptor.now + 65536) (S.state source.old) (S.state source.new) }
{
    if descriptor.size < 0 {
        return Ok(false);
    }
    let Some(mut digester) = digester_of(alloc, descriptor.digest.as_str())? else {
        return Ok(false);
    };
    let mut room = zeros(alloc, PIECE)?;
    let sized = hashed(source, descriptor.size as u64, &mut digester, &mut room)?;
    if !sized {
        return Ok(false);
    }
    let text = digester.finalize(alloc)?;
    Ok(text.as_str() == descriptor.digest.as_str())
}

/// Returns whether the bytes of a source are a descriptor's blob: they have its size, and its digest names them. Reads
/// at most one piece, of at most 65536 bytes, after as many bytes as the descriptor states.
///
/// Returns `SourceFault` if the source failed: its fault count increases then.
pub fn check_blob<S: Source>(
    alloc: Global,
    source: &mut S,
    descriptor: &OciDescriptor,
) -> Result<bool, OciDistributionError>
    ensures checks { Checks descriptor.now (S.state source.old) (S.state source.new) result }
    ensures blob { IfOk result (DecidesAll descriptor.now (S.state source.old)) }
    ensures most { TakesWithin (size_of descriptor.now + 65536) (S.state source.old) (S.state source.new) }
{
    is_blob(alloc, source, descriptor)
}
