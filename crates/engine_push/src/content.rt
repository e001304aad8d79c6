// What a request of a push contains.
ghost use Rattle.std.specs.Prelude.{◌≡◌, ◌+◌, ◌<◌, ◌^◌, length, IfOk};
ghost use Rattle.json_values.specs.Refusals.{Matches};
ghost use Rattle.engine_terms.specs.Error.{is_memory};
ghost use Rattle.push_rows.specs.Contents.{IsWithin, bytes_of, range_text, with_length, with_type};
ghost use Rattle.push_rows.specs.Contents.{with_fields, with_content};

use engine_requests::with_header;
use engine_terms::OciDistributionError;
use json_values::{Blob, Text, write_decimal};
use oci_transport::{Headers, Request};
use push_rows::Content;
use std::alloc::{AllocError, Global};

/// The media type of a blob's bytes.
const OCTET_STREAM: &str = "application/octet-stream";

fn range_text(alloc: Global, start: u64, bytes: &[u8]) -> Result<Text, AllocError>
    requires { start + length bytes.now < 2 ^ 64 }
    ensures { IfOk result (λ text. text ≡ range_text start bytes.now) }
{
    let mut text = write_decimal(alloc, start)?;
    let end = write_decimal(alloc, (start + bytes.len() as u64).saturating_sub(1))?;
    text.push_str("-")?;
    text.push_str(end.as_str())?;
    Ok(text)
}

fn with_length(
    alloc: Global,
    headers: Headers,
    bytes: &[u8],
) -> Result<Headers, OciDistributionError>
    ensures { Matches is_memory result (with_length bytes.now headers) }
{
    let digits = write_decimal(alloc, bytes.len() as u64)?;
    let sized = with_header(headers, "content-length", digits.as_str())?;
    Ok(sized)
}

fn with_type(headers: Headers, media_type: &str) -> Result<Headers, OciDistributionError>
    ensures { Matches is_memory result (with_type media_type.now headers) }
{
    with_header(headers, "content-type", media_type)
}

fn with_fields(
    alloc: Global,
    headers: Headers,
    content: &Content,
) -> Result<Headers, OciDistributionError>
    requires { IsWithin content.now }
    ensures { Matches is_memory result (with_fields content.now headers) }
{
    match content {
        Content::Nothing => {
            let sized = with_length(alloc, headers, &[])?;
            Ok(sized)
        }
        Content::Whole(bytes) => {
            let sized = with_length(alloc, headers, bytes.as_slice())?;
            let typed = with_type(sized, OCTET_STREAM)?;
            Ok(typed)
        }
        Content::Chunk { start, bytes } => {
            let range = range_text(alloc, *start, bytes.as_slice())?;
            let ranged = with_header(headers, "content-range", range.as_str())?;
            let sized = with_length(alloc, ranged, bytes.as_slice())?;
            let typed = with_type(sized, OCTET_STREAM)?;
            Ok(typed)
        }
        Content::Document { media_type, .. } => {
            let typed = with_type(headers, media_type.as_str())?;
            Ok(typed)
        }
    }
}

fn into_bytes(alloc: Global, content: Content) -> Blob
    ensures { result ≡ bytes_of content }
{
    match content {
        Content::Nothing => Blob::empty(alloc),
        Content::Whole(bytes) => bytes,
        Content::Chunk { bytes, .. } => bytes,
        Content::Document { bytes, .. } => bytes,
    }
}

/// Returns the request with this content, and the header fields that describe it.
#[tactic(auto, unfolding(push_rows::specs::Contents::with_content))]
pub(crate) fn with_content(
    alloc: Global,
    request: Request,
    content: Content,
) -> Result<Request, OciDistributionError>
    requires { IsWithin content }
    ensures { Matches is_memory result (with_content content request) }
{
    let Request {
        method,
        url,
        headers,
        ..
    } = request;
    let headers = with_fields(alloc, headers, &content)?;
    let body = into_bytes(alloc, content);
    Ok(Request {
        method,
        url,
        headers,
        body,
    })
}
