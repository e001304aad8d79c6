// Sends the requests of an upload.
ghost use Rattle.std.specs.Prelude.{◌≡◌, ◌+◌, ◌<◌, ◌^◌, [], length};
ghost use Rattle.oci_auth.specs.declared.auth_state.AuthState.{AuthState};
ghost use Rattle.oci_protocol.specs.Runs.{Meets};
ghost use Rattle.engine_terms.specs.Contexts.{context_of};
ghost use Rattle.engine_terms.specs.Error.{is_memory};
ghost use Rattle.push_rows.specs.Contents.{IsWithin, bytes_of};
ghost use Rattle.push_rows.specs.Bodies.{Sends};
ghost use Rattle.push_rows.specs.PieceStates.{part};
ghost use Rattle.push_rows.specs.Uploads.{location_after, sent, upload_begun, upload_ended};
ghost use Rattle.push_rows.specs.Uploads.{chunk_sent, chunks, chunks_sent};

use crate::content::with_content;
use crate::locations::located;
use engine_answers::is_success;
use engine_requests::{read_url, request_of, uploads_url, with_pair};
use engine_steps::{Target, authorized};
use engine_terms::{Call, OciDistributionError};
use json_values::{Blob, Text};
use oci_auth::{AuthState, RegistryOperation};
use oci_protocol::{Reached, reach};
use oci_transport::{BodyError, LinkError, Method, Request, Transport, read_body};
use push_rows::Content;
use std::alloc::Global;

/// The maximum size of a chunk, in bytes.
const PUSH_CHUNK_MAX_SIZE: usize = 4194304;

// Returns the location that the response to a request names.
#[tactic(none)]
fn location_after<T: Transport>(
    alloc: Global,
    transport: &mut T,
    call: &Call,
    expected: u16,
    request: &Request,
) -> Result<Text, OciDistributionError>
    ensures { (k : AuthState) → Meets is_memory
        (location_after call.now.settings.now call.now.image.now expected request.now)
        (T.state transport.old) (T.state transport.new) k k result }
{
    let reached = match reach(alloc, transport, 0, request) {
        Ok(reached) => reached,
        Err(LinkError::Failed) => return Err(OciDistributionError::TransportFault),
        Err(LinkError::WantOfMemory) => return Err(OciDistributionError::WantOfMemory),
    };
    let Reached { request, head } = reached;
    if is_success(head.status) {
        let location = located(alloc, call, expected, request.url, &head)?;
        return Ok(location);
    }
    match read_body(alloc, transport, call.settings.max_body_bytes) {
        Ok(message) => Err(OciDistributionError::ServerError {
            code: head.status,
            url: request.url,
            message,
        }),
        Err(BodyError::TransportFault) => Err(OciDistributionError::TransportFault),
        Err(BodyError::BodyTooLong) => Err(OciDistributionError::BodyTooLong),
        Err(BodyError::WantOfMemory) => Err(OciDistributionError::WantOfMemory),
    }
}

/// Sends a request of a push, with its token if it goes to the registry, and returns the location in the response, which
/// must have the expected status. `ServerError` if the response has a status other than 2xx, `SpecViolationError` if it
/// has another 2xx status, `RegistryNoLocationError` if it names no location, `HeaderValueError` if the location is not
/// text.
#[tactic(none)]
pub fn sent<T: Transport>(
    alloc: Global,
    transport: &mut T,
    memory: &mut AuthState,
    call: &Call,
    target: &Target,
    content: Content,
    expected: u16,
) -> Result<Text, OciDistributionError>
    requires { IsWithin content }
    ensures run { Meets is_memory
        (sent (context_of call.now) call.now.image.now target.now.method target.now.url.now content expected)
        (T.state transport.old) (T.state transport.new) memory.old memory.new result }
    ensures sends { Sends (part (bytes_of content)) (T.state transport.old) (T.state transport.new) result }
{
    let push = RegistryOperation::Push;
    let token = authorized(alloc, transport, memory, call, push, target.url)?;
    let bare = request_of(
        alloc,
        call.settings,
        target.method,
        target.url,
        None,
        &token,
    )?;
    let request = with_content(alloc, bare, content)?;
    let location = location_after(alloc, transport, call, expected, &request)?;
    Ok(location)
}

/// Begins an upload.
#[tactic(none)]
pub(crate) fn upload_begun<T: Transport>(
    alloc: Global,
    transport: &mut T,
    memory: &mut AuthState,
    call: &Call,
) -> Result<Text, OciDistributionError>
    ensures run { Meets is_memory (upload_begun (context_of call.now) call.now.image.now)
        (T.state transport.old) (T.state transport.new) memory.old memory.new result }
    ensures sends { Sends [] (T.state transport.old) (T.state transport.new) result }
{
    let url = uploads_url(alloc, call.settings, call.image)?;
    let target = Target {
        method: Method::Post,
        url: &url,
    };
    let location = sent(
        alloc,
        transport,
        memory,
        call,
        &target,
        Content::Nothing,
        202,
    )?;
    Ok(location)
}

#[tactic(none)]
fn chunk_sent<T: Transport>(
    alloc: Global,
    transport: &mut T,
    memory: &mut AuthState,
    call: &Call,
    location: Text,
    start: u64,
    bytes: Blob,
) -> Result<Text, OciDistributionError>
    requires { start + length bytes < 2 ^ 64 }
    ensures run { Meets is_memory (chunk_sent (context_of call.now) call.now.image.now location start bytes)
        (T.state transport.old) (T.state transport.new) memory.old memory.new result }
    ensures sends { Sends (part bytes) (T.state transport.old) (T.state transport.new) result }
{
    let url = read_url(alloc, location)?;
    let target = Target {
        method: Method::Patch,
        url: &url,
    };
    let content = Content::Chunk { start, bytes };
    let location = sent(alloc, transport, memory, call, &target, content, 202)?;
    Ok(location)
}

/// Ends an upload, and returns the location of the blob.
#[tactic(none)]
pub(crate) fn upload_ended<T: Transport>(
    alloc: Global,
    transport: &mut T,
    memory: &mut AuthState,
    call: &Call,
    digest: &str,
    location: Text,
    content: Content,
) -> Result<Text, OciDistributionError>
    requires { IsWithin content }
    ensures run { Meets is_memory (upload_ended (context_of call.now) call.now.image.now digest.now location content)
        (T.state transport.old) (T.state transport.new) memory.old memory.new result }
    ensures sends { Sends (part (bytes_of content)) (T.state transport.old) (T.state transport.new) result }
{
    let read = read_url(alloc, location)?;
    let url = with_pair(read, "digest", digest)?;
    let target = Target {
        method: Method::Put,
        url: &url,
    };
    let location = sent(alloc, transport, memory, call, &target, content, 201)?;
    Ok(location)
}

/// Sends bytes of a blob in chunks, from this offset on, and returns where the upload continues.
#[tactic(none)]
pub(crate) fn chunks_sent<T: Transport>(
    alloc: Global,
    transport: &mut T,
    memory: &mut AuthState,
    call: &Call,
    location: Text,
    start: u64,
    bytes: &[u8],
) -> Result<Text, OciDistributionError>
    requires { start + length bytes.now < 2 ^ 64 }
    ensures run { Meets is_memory
        (chunks_sent (context_of call.now) call.now.image.now location start (chunks bytes.now))
        (T.state transport.old) (T.state transport.new) memory.old memory.new result }
    ensures sends { Sends (chunks bytes.now) (T.state transport.old) (T.state transport.new) result }
{
    let mut next = location;
    let mut place = start;
    let mut left = bytes;
    while left.len() > 0 {
        let (first, rest) = left.split_at(left.len().min(PUSH_CHUNK_MAX_SIZE));
        let chunk = Blob::new(alloc, first)?;
        next = chunk_sent(alloc, transport, memory, call, next, place, chunk)?;
        place += first.len() as u64;
        left = rest;
    }
    Ok(next)
}
