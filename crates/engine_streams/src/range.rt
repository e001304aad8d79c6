// Which bytes of a blob are requested.
ghost use Rattle.std.specs.Prelude.{◌≡◌, IfOk};
ghost use Rattle.json_values.specs.Refusals.{Matches};
ghost use Rattle.engine_terms.specs.Error.{is_memory};
ghost use Rattle.engine_streams.specs.Range.{onward_text, text_by, range_text, onward, with_range, is_part};

use engine_requests::with_header;
use engine_terms::{GenericCause, OciDistributionError};
use json_values::{Text, write_decimal};
use oci_transport::Request;
use std::alloc::{AllocError, Global};

/// Bytes of a blob: those from the offset on, at most as many as the length if one is given.
#[derive(Clone, Copy)]
pub struct ByteRange {
    pub offset: u64,
    pub length: Option<u64>,
}

fn onward_text(alloc: Global, offset: u64) -> Result<Text, AllocError>
    ensures { IfOk result (λ text. text ≡ onward_text offset) }
{
    let mut text = Text::new(alloc, "bytes=")?;
    let digits = write_decimal(alloc, offset)?;
    text.push_str(digits.as_str())?;
    text.push_str("-")?;
    Ok(text)
}

fn text_by(alloc: Global, offset: u64, length: Option<u64>) -> Result<Text, OciDistributionError>
    ensures { Matches is_memory result (text_by offset length) }
{
    let mut text = onward_text(alloc, offset)?;
    let Some(length) = length else {
        return Ok(text);
    };
    let Some(end) = offset.checked_add(length) else {
        return Err(OciDistributionError::GenericError(GenericCause::RangeOverflow));
    };
    let digits = write_decimal(alloc, end.saturating_sub(1))?;
    text.push_str(digits.as_str())?;
    Ok(text)
}

/// Returns the header `range` of the registry's request, if a part is requested. `RangeOverflow` if the end of the
/// range would be beyond 2^64 - 1.
pub(crate) fn range_text(
    alloc: Global,
    range: &Option<ByteRange>,
) -> Result<Option<Text>, OciDistributionError>
    ensures { Matches is_memory result (range_text range.now) }
{
    let Some(range) = range else {
        return Ok(None);
    };
    let text = text_by(alloc, range.offset, range.length)?;
    Ok(Some(text))
}

/// Returns the same for requests at other places, which have no last byte.
pub(crate) fn onward(alloc: Global, range: &Option<ByteRange>) -> Result<Option<Text>, AllocError>
    ensures { IfOk result (λ text. text ≡ onward range.now) }
{
    let Some(range) = range else {
        return Ok(None);
    };
    let text = onward_text(alloc, range.offset)?;
    Ok(Some(text))
}

/// Returns the request for these bytes.
pub(crate) fn with_range(
    request: Request,
    range: &Option<Text>,
) -> Result<Request, OciDistributionError>
    ensures { Matches is_memory result (with_range range.now request) }
{
    let Some(range) = range else {
        return Ok(request);
    };
    let Request {
        method,
        url,
        headers,
        body,
    } = request;
    let headers = with_header(headers, "range", range.as_str())?;
    Ok(Request {
        method,
        url,
        headers,
        body,
    })
}

/// Returns whether a response with this status is a part of the blob.
pub(crate) fn is_part(range: &Option<ByteRange>, status: u16) -> bool
    ensures { result ≡ is_part range.now status }
{
    match range {
        Some(_) => status == 206,
        None => false,
    }
}
