// Pushes bytes from a source.
ghost use Rattle.std.specs.Prelude.{◌≡◌, true, None, IfErr};
ghost use Rattle.std.specs.Option.{option_copied};
ghost use Rattle.oci_protocol.specs.Runs.{Meets};
ghost use Rattle.engine_terms.specs.Contexts.{context_of};
ghost use Rattle.engine_terms.specs.Error.{is_memory};
ghost use Rattle.push_rows.specs.Calls.{stream_whole, stream_chunked, push_blob_stream, push_blob_stream_chunked};
ghost use Rattle.engine_push.specs.Sources.{Pushes, Cuts, CutBy, NotSent, SourceCause};

use crate::piece_source::PieceSource;
use crate::pieces::{Upload, pieces_read, pieces_sent};
use crate::uploads::{upload_begun, upload_ended};
use engine_terms::{Call, GenericCause, OciDistributionError};
use json_values::Text;
use oci_auth::AuthState;
use oci_digests::{Algorithm, Digester};
use oci_transport::Transport;
use push_rows::{Content, PushBlobStreamChunkedResponse};
use std::alloc::Global;

#[tactic(none)]
fn stream_whole<T: Transport, P: PieceSource>(
    alloc: Global,
    transport: &mut T,
    memory: &mut AuthState,
    call: &Call,
    pieces: &mut P,
    digest: &str,
    size: Option<u64>,
) -> Result<Text, OciDistributionError>
    ensures run { Meets is_memory (stream_whole (context_of call.now) call.now.image.now digest.now size)
        (T.state transport.old) (T.state transport.new) memory.old memory.new result }
    ensures pushes { Pushes (P.state pieces.old) (P.state pieces.new)
        (T.state transport.old) (T.state transport.new) result }
    ensures cuts { CutBy true (P.state pieces.old) (P.state pieces.new)
        (T.state transport.old) (T.state transport.new) result }
    ensures source { IfErr result (SourceCause call.now.settings.now.max_body_bytes size
        (P.state pieces.old) (P.state pieces.new) (T.state transport.old) (T.state transport.new)) }
{
    let Some(size) = size else {
        return Err(OciDistributionError::GenericError(GenericCause::NoSize));
    };
    let location = upload_begun(alloc, transport, memory, call)?;
    let bytes = pieces_read(alloc, pieces, call.settings.max_body_bytes)?;
    if bytes.as_slice().len() as u64 != size {
        return Err(OciDistributionError::GenericError(GenericCause::SizeDiffers));
    }
    let whole = Content::Whole(bytes);
    let url = upload_ended(alloc, transport, memory, call, digest, location, whole)?;
    Ok(url)
}

#[tactic(none)]
fn stream_chunked<T: Transport, P: PieceSource>(
    alloc: Global,
    transport: &mut T,
    memory: &mut AuthState,
    call: &Call,
    pieces: &mut P,
    digest: &str,
) -> Result<Text, OciDistributionError>
    ensures run { Meets is_memory (stream_chunked (context_of call.now) call.now.image.now digest.now)
        (T.state transport.old) (T.state transport.new) memory.old memory.new result }
    ensures pushes { Pushes (P.state pieces.old) (P.state pieces.new)
        (T.state transport.old) (T.state transport.new) result }
    ensures cuts { Cuts (P.state pieces.old) (P.state pieces.new)
        (T.state transport.old) (T.state transport.new) result }
    ensures source { IfErr result (NotSent call.now.settings.now.max_body_bytes
        (P.state pieces.old) (P.state pieces.new) (T.state transport.old) (T.state transport.new)) }
{
    let location = upload_begun(alloc, transport, memory, call)?;
    let sent = pieces_sent(alloc, transport, memory, call, pieces, location, None)?;
    let Upload { location: end, .. } = sent;
    let nothing = Content::Nothing;
    let url = upload_ended(alloc, transport, memory, call, digest, end, nothing)?;
    Ok(url)
}

/// Pushes what the source gives as the blob of this digest, and returns the URL at which it is then. It is sent in
/// chunks as it is given, or is read whole and sent by one request if the client's settings say so. That request needs
/// its size: `NoSize` without it, `SizeDiffers` if the source gives another number of bytes.
#[tactic(none)]
pub fn push_blob_stream<T: Transport, P: PieceSource>(
    alloc: Global,
    transport: &mut T,
    memory: &mut AuthState,
    call: &Call,
    pieces: &mut P,
    digest: &str,
    size: Option<u64>,
) -> Result<Text, OciDistributionError>
    ensures run { Meets is_memory (push_blob_stream (context_of call.now) call.now.image.now digest.now size)
        (T.state transport.old) (T.state transport.new) memory.old memory.new result }
    ensures pushes { Pushes (P.state pieces.old) (P.state pieces.new)
        (T.state transport.old) (T.state transport.new) result }
    ensures cuts { CutBy call.now.settings.now.use_monolithic_push (P.state pieces.old) (P.state pieces.new)
        (T.state transport.old) (T.state transport.new) result }
    ensures source { IfErr result (SourceCause call.now.settings.now.max_body_bytes size
        (P.state pieces.old) (P.state pieces.new) (T.state transport.old) (T.state transport.new)) }
{
    if call.settings.use_monolithic_push {
        return stream_whole(alloc, transport, memory, call, pieces, digest, size);
    }
    stream_chunked(alloc, transport, memory, call, pieces, digest)
}

/// Pushes what the source gives in chunks, under the digest that is computed from its bytes. `PushNoDataError` if it
/// gives none.
#[tactic(none)]
pub fn push_blob_stream_chunked<T: Transport, P: PieceSource>(
    alloc: Global,
    transport: &mut T,
    memory: &mut AuthState,
    call: &Call,
    pieces: &mut P,
) -> Result<PushBlobStreamChunkedResponse, OciDistributionError>
    ensures run { Meets is_memory (push_blob_stream_chunked (context_of call.now) call.now.image.now)
        (T.state transport.old) (T.state transport.new) memory.old memory.new result }
    ensures pushes { Pushes (P.state pieces.old) (P.state pieces.new)
        (T.state transport.old) (T.state transport.new) result }
    ensures cuts { Cuts (P.state pieces.old) (P.state pieces.new)
        (T.state transport.old) (T.state transport.new) result }
    ensures source { IfErr result (SourceCause call.now.settings.now.max_body_bytes None
        (P.state pieces.old) (P.state pieces.new) (T.state transport.old) (T.state transport.new)) }
{
    let location = upload_begun(alloc, transport, memory, call)?;
    let fresh = Some(Digester::of(Algorithm::Sha256));
    let sent = pieces_sent(alloc, transport, memory, call, pieces, location, fresh)?;
    let Upload {
        location: end,
        size,
        digester,
    } = sent;
    if size == 0 {
        return Err(OciDistributionError::PushNoDataError);
    }
    let Some(mut digester) = digester else {
        unreachable!();
    };
    let blob_digest = digester.finalize(alloc)?;
    let digest = blob_digest.as_str();
    let nothing = Content::Nothing;
    let blob_url = upload_ended(alloc, transport, memory, call, digest, end, nothing)?;
    Ok(PushBlobStreamChunkedResponse {
        blob_url,
        blob_digest,
        size,
    })
}
