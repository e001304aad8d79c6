// Opens blobs whose bytes are taken afterwards.
ghost use Rattle.std.specs.Prelude.{◌≡◌, [], Some, None, IfOk};
ghost use Rattle.oci_auth.specs.declared.auth_state.AuthState.{AuthState};
ghost use Rattle.oci_protocol.specs.Runs.{Meets};
ghost use Rattle.engine_terms.specs.Contexts.{context_of};
ghost use Rattle.engine_terms.specs.Error.{is_memory};
ghost use Rattle.engine_requests.specs.Sources.{layer_in};
ghost use Rattle.engine_streams.specs.Blobs.{opened, blob_stream, blob_stream_partial, by_digests};
ghost use Rattle.engine_streams.specs.Blobs.{opening_in, response_in, response_of, stream_in, IsLeft};
ghost use Rattle.engine_streams.specs.Streams.{IsOpen, opening_of};

use crate::asking::tried;
use crate::head::Opening;
use crate::range::{ByteRange, range_text, with_range};
use crate::stream::SizedStream;
use engine_requests::{LayerDescriptor, MANIFEST_TYPES, blob_url};
use engine_steps::{Target, prepared};
use engine_terms::{Call, OciDistributionError};
use json_values::Text;
use oci_auth::{AuthState, RegistryOperation};
use oci_transport::{Method, Transport};
use std::alloc::Global;

/// The response to a request for a part of a blob.
#[derive(Drop)]
pub enum BlobResponse {
    /// The whole blob, with the status 200. Its bytes are compared with the digests.
    Full(SizedStream),
    /// The requested bytes, with the status 206. They are compared with nothing.
    Partial(SizedStream),
}

fn urls_of<'a>(layer: &LayerDescriptor<'a>) -> &'a [Text]
    ensures { result.now ≡ (layer_in layer.now).urls }
{
    match layer.urls {
        Some(urls) => urls.as_slice(),
        None => &[],
    }
}

// Returns what the response states about the bytes that are left.
fn opened<T: Transport>(
    alloc: Global,
    transport: &mut T,
    memory: &mut AuthState,
    call: &Call,
    layer: &LayerDescriptor,
    range: Option<ByteRange>,
) -> Result<Opening, OciDistributionError>
    ensures run { Meets is_memory (opened (context_of call.now) call.now.image.now (layer_in layer.now) range)
        (T.state transport.old) (T.state transport.new) memory.old memory.new result }
    ensures left { IfOk result (λ opening. IsLeft range layer.now.digest.now opening
        (T.state transport.old) (T.state transport.new)) }
{
    let text = range_text(alloc, &range)?;
    let url = blob_url(alloc, call.settings, call.image, layer.digest)?;
    let target = Target {
        method: Method::Get,
        url: &url,
    };
    let request = prepared(
        alloc,
        transport,
        memory,
        call,
        RegistryOperation::Pull,
        &target,
        MANIFEST_TYPES,
    )?;
    let ranged = with_range(request, &text)?;
    let opening = tried(
        alloc,
        transport,
        call.settings,
        layer.digest,
        &range,
        urls_of(layer),
        ranged,
    )?;
    Ok(opening)
}

/// Returns a stream of a blob. Nothing of its body is taken yet: what is left is the whole body of the last response,
/// whose status is 2xx.
pub fn pull_blob_stream<T: Transport>(
    alloc: Global,
    transport: &mut T,
    memory: &mut AuthState,
    call: &Call,
    layer: &LayerDescriptor,
) -> Result<SizedStream, OciDistributionError>
    ensures run { Meets is_memory (blob_stream (context_of call.now) call.now.image.now (layer_in layer.now))
        (T.state transport.old) (T.state transport.new) memory.old memory.new (opening_in result) }
    ensures fresh { IfOk result (λ stream. IsOpen call.now.settings.now.max_body_bytes [] stream) }
    ensures left { IfOk result (λ stream. IsLeft None layer.now.digest.now (opening_of stream)
        (T.state transport.old) (T.state transport.new)) }
{
    let opening = opened(alloc, transport, memory, call, layer, None)?;
    Ok(SizedStream::new(opening, call.settings.max_body_bytes))
}

fn by_digests(opening: Opening, limit: u64) -> BlobResponse
    ensures response { response_of result ≡ by_digests opening opening.digests }
    ensures opening { opening_of (stream_in result) ≡ opening }
    ensures fresh { IsOpen limit [] (stream_in result) }
{
    if opening.digests.is_some() {
        return BlobResponse::Full(SizedStream::new(opening, limit));
    }
    BlobResponse::Partial(SizedStream::new(opening, limit))
}

/// Returns a stream of a part of a blob.
///
/// `RangeOverflow`, without a request, if the sum of the offset and the length is beyond 2^64 - 1.
pub fn pull_blob_stream_partial<T: Transport>(
    alloc: Global,
    transport: &mut T,
    memory: &mut AuthState,
    call: &Call,
    layer: &LayerDescriptor,
    range: ByteRange,
) -> Result<BlobResponse, OciDistributionError>
    ensures run { Meets is_memory
        (blob_stream_partial (context_of call.now) call.now.image.now (layer_in layer.now) range)
        (T.state transport.old) (T.state transport.new) memory.old memory.new (response_in result) }
    ensures fresh { IfOk result (λ response. IsOpen call.now.settings.now.max_body_bytes [] (stream_in response)) }
    ensures left { IfOk result (λ response. IsLeft (Some range) layer.now.digest.now (opening_of (stream_in response))
        (T.state transport.old) (T.state transport.new)) }
{
    let opening = opened(alloc, transport, memory, call, layer, Some(range))?;
    Ok(by_digests(opening, call.settings.max_body_bytes))
}
