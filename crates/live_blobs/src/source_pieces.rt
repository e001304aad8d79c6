// A blob's bytes from a source, piece by piece.
ghost use Rattle.std.specs.Prelude.{◌≡◌, ◌≤◌, [], IfOk, OnOk, IsErrOf, vec_len};
ghost use Rattle.std.specs.Io.KnownBytes.{IsAtEnd};
ghost use Rattle.json_values.specs.Counts.{Increased, Unchanged};
ghost use Rattle.byte_streams.specs.Source.{Takes};

use byte_streams::Source;
use json_values::Blob;
use oci_engine::PieceSource;
use oci_transport::LinkError;
use std::alloc::{AllocError, Global};

/// The greatest length of a piece in bytes.
const PIECE: usize = 4194304;

/// The greatest number of bytes that are taken from the source at once.
const ROOM: usize = 65536;

/// Gives the bytes of a source in pieces of at most 4194304 bytes, each of which is one chunk of a push.
#[derive(Drop)]
pub(crate) struct SourcePieces<B> {
    pub source: B,
}

fn zeros(alloc: Global, count: usize) -> Result<Vec<u8>, AllocError>
    ensures { IfOk result (λ room. vec_len room ≡ count) }
{
    vec![in alloc; 0; count]
}

// Takes bytes from a source until a piece is full or the source ends.
fn next_piece<B: Source>(alloc: Global, source: &mut B) -> Result<Blob, LinkError>
    ensures count { (B.state source.old).faults ≤ (B.state source.new).faults }
    ensures prefix { IfOk result (λ piece. Takes piece (B.state source.old) (B.state source.new)) }
    ensures end { IfOk result (λ piece. piece ≡ [] → IsAtEnd (B.state source.new).left) }
    ensures fault { IsErrOf result LinkError.Failed
        → Increased (B.state source.old).faults (B.state source.new).faults }
    ensures no_fault { OnOk result (Unchanged (B.state source.old).faults (B.state source.new).faults) }
{
    let mut room = zeros(alloc, ROOM)?;
    let mut piece = Blob::empty(alloc);
    loop {
        let Ok(count) = source.take(&mut room) else {
            return Err(LinkError::Failed);
        };
        if count == 0 {
            return Ok(piece);
        }
        piece.append(&room[..count])?;
        if piece.as_slice().len() > PIECE - ROOM {
            return Ok(piece);
        }
    }
}

impl<B: Source> PieceSource for SourcePieces<B> {
    ghost use Rattle.live_blobs.specs.SourcePieces.{pieces_state};

    ghost state = { pieces_state B.state };

    fn piece(&mut self, alloc: Global) -> Result<Blob, LinkError> {
        let piece = next_piece(alloc, &mut self.source)?;
        Ok(piece)
    }

    fn faults(&self) -> u64 {
        self.source.faults()
    }
}
