// What the head of a blob's response states about its body.
ghost use Rattle.std.specs.Prelude.{◌≡◌, IfOk};
ghost use Rattle.oci_transport.specs.Headers.{first_of};
ghost use Rattle.json_values.specs.Refusals.{Matches};
ghost use Rattle.engine_terms.specs.Error.{is_memory};
ghost use Rattle.engine_streams.specs.Head.{content_length, expected, given, is_streamed, opening, unless_part};

use crate::range::{ByteRange, is_part};
use engine_answers::{Expected, digest_expected, header_digest, is_success, of_digest};
use engine_terms::OciDistributionError;
use json_values::{Text, read_decimal};
use oci_transport::{AnswerHead, Headers};
use std::alloc::Global;

/// The digests that the bytes of a blob must have: that of the response's header, if it names one, and the
/// descriptor's.
#[derive(Drop)]
pub struct Digests {
    pub given: Option<Expected>,
    pub own: Expected,
}

/// What the head of a response states about the body that is left.
#[derive(Drop)]
pub struct Opening {
    /// In bytes, from the header `content-length`.
    pub content_length: Option<u64>,
    pub digest_header_value: Option<Text>,
    /// What the bytes are compared with. `None` if they are a part of the blob.
    pub digests: Option<Digests>,
}

fn content_length(headers: &Headers) -> Option<u64>
    ensures { result ≡ content_length headers.now }
{
    match headers.first("content-length") {
        Some(value) => read_decimal(value),
        None => None,
    }
}

fn expected(alloc: Global, text: &str) -> Result<Expected, OciDistributionError>
    ensures { Matches is_memory result (expected text.now) }
{
    let expected = of_digest(digest_expected(alloc, text))?;
    Ok(expected)
}

fn given(alloc: Global, value: &Option<Text>) -> Result<Option<Expected>, OciDistributionError>
    ensures { Matches is_memory result (given value.now) }
{
    match value {
        Some(text) => {
            let expected = expected(alloc, text.as_str())?;
            Ok(Some(expected))
        }
        None => Ok(None),
    }
}

fn unless_part(part: bool, given: Option<Expected>, own: Expected) -> Option<Digests>
    ensures { result ≡ unless_part part given own }
{
    if part {
        return None;
    }
    Some(Digests { given, own })
}

/// Returns what the head states about the body: the descriptor's digest is checked, and then the header's.
/// `DigestError` if one of them is malformed, or of an unknown algorithm.
#[tactic(auto, unfolding(crate::specs::Head::opening))]
pub(crate) fn read_head(
    alloc: Global,
    range: &Option<ByteRange>,
    digest: &str,
    head: &AnswerHead,
) -> Result<Opening, OciDistributionError>
    ensures { Matches is_memory result (opening range.now digest.now head.now) }
{
    let own = expected(alloc, digest)?;
    let value = header_digest(alloc, &head.headers)?;
    let given = given(alloc, &value)?;
    Ok(Opening {
        content_length: content_length(&head.headers),
        digest_header_value: value,
        digests: unless_part(is_part(range, head.status), given, own),
    })
}

/// Returns whether the body of a response with this status is streamed.
pub(crate) fn is_streamed(range: &Option<ByteRange>, status: u16) -> bool
    ensures { result ≡ is_streamed range.now status }
{
    match range {
        Some(_) => status == 200 || status == 206,
        None => is_success(status),
    }
}
