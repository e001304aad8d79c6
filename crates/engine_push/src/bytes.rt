// Pushes bytes in memory.
ghost use Rattle.std.specs.Prelude.{◌≡◌};
ghost use Rattle.oci_protocol.specs.Runs.{Meets};
ghost use Rattle.engine_terms.specs.Contexts.{context_of};
ghost use Rattle.engine_terms.specs.Error.{is_memory};
ghost use Rattle.push_rows.specs.Calls.{push_chunked, push_whole, is_violation, push_blob};

use crate::uploads::{chunks_sent, upload_begun, upload_ended};
use engine_terms::{Call, OciDistributionError};
use json_values::{Blob, Text};
use oci_auth::AuthState;
use oci_transport::Transport;
use push_rows::Content;
use std::alloc::Global;

fn push_chunked<T: Transport>(
    alloc: Global,
    transport: &mut T,
    memory: &mut AuthState,
    call: &Call,
    content: &[u8],
    digest: &str,
) -> Result<Text, OciDistributionError>
    ensures { Meets is_memory (push_chunked (context_of call.now) call.now.image.now content.now digest.now)
        (T.state transport.old) (T.state transport.new) memory.old memory.new result }
{
    let location = upload_begun(alloc, transport, memory, call)?;
    let end = chunks_sent(alloc, transport, memory, call, location, 0, content)?;
    let nothing = Content::Nothing;
    let url = upload_ended(alloc, transport, memory, call, digest, end, nothing)?;
    Ok(url)
}

#[tactic(none)]
fn push_whole<T: Transport>(
    alloc: Global,
    transport: &mut T,
    memory: &mut AuthState,
    call: &Call,
    content: &[u8],
    digest: &str,
) -> Result<Text, OciDistributionError>
    ensures { Meets is_memory (push_whole (context_of call.now) call.now.image.now content.now digest.now)
        (T.state transport.old) (T.state transport.new) memory.old memory.new result }
{
    let location = upload_begun(alloc, transport, memory, call)?;
    if content.len() == 0 {
        return Err(OciDistributionError::PushNoDataError);
    }
    let bytes = Blob::new(alloc, content)?;
    let whole = Content::Whole(bytes);
    let url = upload_ended(alloc, transport, memory, call, digest, location, whole)?;
    Ok(url)
}

fn is_violation(error: &OciDistributionError) -> bool
    ensures { result ≡ is_violation error.now }
{
    matches!(error, OciDistributionError::SpecViolationError(_))
}

/// Pushes a blob to the image's repository, and returns the URL at which it is then. It is sent in chunks, or by one
/// request if the client's settings say so or the registry responds to a chunk with another 2xx status than expected.
#[tactic(none)]
pub fn push_blob<T: Transport>(
    alloc: Global,
    transport: &mut T,
    memory: &mut AuthState,
    call: &Call,
    content: &[u8],
    digest: &str,
) -> Result<Text, OciDistributionError>
    ensures { Meets is_memory (push_blob (context_of call.now) call.now.image.now content.now digest.now)
        (T.state transport.old) (T.state transport.new) memory.old memory.new result }
{
    if call.settings.use_monolithic_push {
        return push_whole(alloc, transport, memory, call, content, digest);
    }
    let error = match push_chunked(alloc, transport, memory, call, content, digest) {
        Ok(url) => return Ok(url),
        Err(error) => error,
    };
    if is_violation(&error) {
        return push_whole(alloc, transport, memory, call, content, digest);
    }
    Err(error)
}
