// Takes the pieces of a source, in its order.
ghost use Rattle.std.specs.Prelude.{◌≡◌, ◌≤◌, ◌++◌, [], ℕ, List, IfOk, IfErr, OnErr, is_some};
ghost use Rattle.std.specs.Io.KnownBytes.{IsAtEnd};
ghost use Rattle.json_values.specs.Counts.{Increased};
ghost use Rattle.push_rows.specs.PieceStates.{Takes, TakesPieces, NoneAhead, part};
ghost use Rattle.oci_auth.specs.declared.auth_state.AuthState.{AuthState};
ghost use Rattle.oci_transport.specs.Link.{Link};
ghost use Rattle.oci_protocol.specs.Runs.{Meets};
ghost use Rattle.engine_terms.specs.Contexts.{context_of};
ghost use Rattle.engine_terms.specs.Error.{is_memory};
ghost use Rattle.push_rows.specs.Uploads.{next_piece, all_sent, all_read};
ghost use Rattle.engine_push.specs.Sources.{Pushes, Cuts, AllConsumed, AllGathered, TookAll, NoPiece, NotHeld, NotSent};
ghost use Rattle.engine_push.specs.Sources.{Hashed, IsUpload, sent_in};

use crate::piece_source::PieceSource;
use crate::uploads::chunks_sent;
use engine_terms::{Call, OciDistributionError};
use json_values::{Blob, Copied, Text};
use oci_auth::AuthState;
use oci_digests::Digester;
use oci_transport::{LinkError, Transport};
use std::alloc::Global;

/// Bytes that were sent: where the upload continues, how many they are, and their hash if one is required.
#[derive(Drop)]
pub struct Upload {
    pub location: Text,
    pub size: u64,
    pub digester: Option<Digester>,
}

// Takes the next piece of the source.
fn next_piece<P: PieceSource>(alloc: Global, pieces: &mut P) -> Result<Blob, OciDistributionError>
    ensures run { (link : Link) (k : AuthState) → Meets is_memory next_piece link link k k result }
    ensures prefix { IfOk result (λ piece. Takes piece (P.state pieces.old) (P.state pieces.new)) }
    ensures end { IfOk result (λ piece. piece ≡ [] → IsAtEnd (P.state pieces.new).left) }
    ensures next { IfOk result (λ piece. TakesPieces (part piece) (P.state pieces.old) (P.state pieces.new)) }
    ensures last { IfOk result (λ piece. piece ≡ [] → NoneAhead (P.state pieces.new)) }
    ensures keeps { OnErr result (TakesPieces [] (P.state pieces.old) (P.state pieces.new)) }
    ensures refused { IfErr result (NoPiece (P.state pieces.old) (P.state pieces.new)) }
    ensures count { (P.state pieces.old).faults ≤ (P.state pieces.new).faults }
{
    match pieces.piece(alloc) {
        Ok(piece) => Ok(piece),
        Err(LinkError::Failed) => Err(OciDistributionError::SourceFault),
        Err(LinkError::WantOfMemory) => Err(OciDistributionError::WantOfMemory),
    }
}

fn hash(digester: &mut Option<Digester>, piece: &[u8])
    ensures hashed { (bytes : List ℕ) → Hashed digester.old bytes → Hashed digester.new (bytes ++ piece.now) }
    ensures given { is_some digester.new ≡ is_some digester.old }
{
    if let Some(digester) = digester {
        digester.update(piece);
    }
}

/// Sends all pieces of the source in chunks, at most as many bytes as the settings allow.
pub(crate) fn pieces_sent<T: Transport, P: PieceSource>(
    alloc: Global,
    transport: &mut T,
    memory: &mut AuthState,
    call: &Call,
    pieces: &mut P,
    location: Text,
    digester: Option<Digester>,
) -> Result<Upload, OciDistributionError>
    requires { Hashed digester [] }
    ensures run { (bytes : List ℕ) × Meets is_memory (all_sent (context_of call.now) call.now.image.now location)
        (T.state transport.old) (T.state transport.new) memory.old memory.new (sent_in bytes result)
        × IfOk result (λ upload. IsUpload digester upload bytes
        × TookAll bytes (P.state pieces.old) (P.state pieces.new)) }
    ensures pushes { Pushes (P.state pieces.old) (P.state pieces.new)
        (T.state transport.old) (T.state transport.new) result }
    ensures cuts { Cuts (P.state pieces.old) (P.state pieces.new)
        (T.state transport.old) (T.state transport.new) result }
    ensures refused { IfErr result (NotSent call.now.settings.now.max_body_bytes
        (P.state pieces.old) (P.state pieces.new) (T.state transport.old) (T.state transport.new)) }
{
    let mut next = location;
    let mut hashing = digester;
    let mut size: u64 = 0;
    loop {
        let piece = next_piece(alloc, pieces)?;
        let bytes = piece.as_slice();
        let more = bytes.len() as u64;
        if more > call.settings.max_body_bytes - size {
            return Err(OciDistributionError::BodyTooLong);
        }
        if more == 0 {
            return Ok(Upload {
                location: next,
                size,
                digester: hashing,
            });
        }
        hash(&mut hashing, bytes);
        next = chunks_sent(alloc, transport, memory, call, next, size, bytes)?;
        size += more;
    }
}

/// Returns all pieces of the source, concatenated, at most `limit` bytes.
pub(crate) fn pieces_read<P: PieceSource>(
    alloc: Global,
    pieces: &mut P,
    limit: u64,
) -> Result<Blob, OciDistributionError>
    ensures run { (link : Link) (k : AuthState) → Meets is_memory (all_read limit) link link k k result }
    ensures gives { AllConsumed (P.state pieces.old) (P.state pieces.new) result }
    ensures gathers { AllGathered (P.state pieces.old) (P.state pieces.new) result }
    ensures refused { IfErr result (NotHeld limit (P.state pieces.old) (P.state pieces.new)) }
{
    let mut held = Blob::empty(alloc);
    loop {
        let piece = next_piece(alloc, pieces)?;
        let more = piece.as_slice().len() as u64;
        if more > limit - held.as_slice().len() as u64 {
            return Err(OciDistributionError::BodyTooLong);
        }
        if more == 0 {
            return Ok(held);
        }
        held = held.join(piece)?;
    }
}
