// Checks a body against the digest texts of a header and of a reference.
ghost use Rattle.std.specs.Prelude.{◌≡◌, true, false, ℕ, List, Some, MatchOption, IfOk, IfErr};
ghost use Rattle.std.specs.Option.{option_copied};
ghost use Rattle.oci_digests.specs.Checks.{checked, validated, header_digest, is_header_text};
ghost use Rattle.json_values.specs.Refusals.{Matches};
ghost use Rattle.oci_digests.specs.Error.{is_memory};
ghost use Rattle.oci_digests.specs.Checks.{named_algorithm};
ghost use Rattle.oci_digests.specs.Validates.{Validates, ValidatesNone};

use crate::digest::Digest;
use crate::error::DigestError;
use crate::hasher::digest_text;
use crate::names::sha256_digest;
use json_values::{Blob, Text};
use oci_names::Algorithm;
use std::alloc::Global;

/// Returns the algorithm that a digest text names.
pub fn named_algorithm(alloc: Global, text: &str) -> Result<Algorithm, DigestError>
    ensures { Matches is_memory result (named_algorithm text.now) }
{
    let parts = Digest::new(text)?;
    match Algorithm::named(parts.algorithm) {
        Some(algorithm) => Ok(algorithm),
        None => Err(DigestError::UnsupportedAlgorithm(Text::new(alloc, parts.algorithm)?)),
    }
}

// Returns the text, if it names the body.
fn check(alloc: Global, body: &[u8], text: &str) -> Result<Text, DigestError>
    ensures { Matches is_memory result (checked body.now text.now) }
{
    let algorithm = named_algorithm(alloc, text)?;
    let actual = digest_text(alloc, algorithm, body)?;
    if text == actual.as_str() {
        return Ok(actual);
    }
    let expected = Text::new(alloc, text)?;
    Err(DigestError::VerificationError { expected, actual })
}

/// Returns the digest of a body, checked against the digest in its header and the one in its reference.
///
/// Returns `MissingAlgorithm` if a given text has no colon. Then checks the reference's text, and the header's if it
/// differs; a check returns `UnsupportedAlgorithm`, or `VerificationError` with the expected and the actual text.
/// On success returns the header's text, else the reference's, else the SHA-256 text of the body.
#[tactic(auto, using(crate::proofs::ExactChecks::ok_of, crate::proofs::ExactChecks::err_of))]
pub fn validate_digest(
    alloc: Global,
    body: &[u8],
    digest_header: Option<&str>,
    reference_digest: Option<&str>,
) -> Result<Text, DigestError>
    ensures exact { Matches is_memory result (validated body.now
        (option_copied digest_header.entry) (option_copied reference_digest.entry)) }
    ensures ok { IfOk result (Validates body.now
        (option_copied digest_header.entry) (option_copied reference_digest.entry)) }
    ensures err { IfErr result (λ e. is_memory e ≡ false → ValidatesNone body.now
        (option_copied digest_header.entry) (option_copied reference_digest.entry)) }
{
    check_given(alloc, body, digest_header, reference_digest)
}

fn check_given(
    alloc: Global,
    body: &[u8],
    digest_header: Option<&str>,
    reference_digest: Option<&str>,
) -> Result<Text, DigestError>
    ensures { Matches is_memory result (validated body.now
        (option_copied digest_header.entry) (option_copied reference_digest.entry)) }
{
    match (digest_header, reference_digest) {
        (None, None) => Ok(sha256_digest(alloc, body)?),
        (Some(header), None) => check(alloc, body, header),
        (None, Some(reference)) => check(alloc, body, reference),
        (Some(header), Some(reference)) => check_both(alloc, body, header, reference),
    }
}

fn check_both(
    alloc: Global,
    body: &[u8],
    header: &str,
    reference: &str,
) -> Result<Text, DigestError>
    ensures { Matches is_memory result (validated body.now (Some header.now) (Some reference.now)) }
{
    Digest::new(header)?;
    Digest::new(reference)?;
    if header != reference {
        check(alloc, body, reference)?;
    }
    let text = check(alloc, body, header)?;
    Ok(text)
}

// Returns the value as text, if each byte is valid in one.
#[tactic(auto, using(crate::proofs::HeaderText::not_text))]
fn header_text(value: &[u8]) -> Option<&str>
    ensures { MatchOption result
        (is_header_text value.now ≡ false)
        (λ text. (is_header_text value.now ≡ true) × (text.now ≡ value.now)) }
{
    if !is_header_text(value) {
        return None;
    }
    match str::from_utf8(value) {
        Ok(text) => Some(text),
        Err(_) => None,
    }
}

fn is_header_text(value: &[u8]) -> bool
    ensures { result ≡ is_header_text value.now }
{
    value
        .iter()
        .all(|&byte| byte == 0x09 || (0x20 <= byte && byte <= 0x7E))
}

/// Returns the digest in the value of the first `Docker-Content-Digest` header (OCI distribution specification,
/// "Pulling manifests"): `None` if the header is missing or empty. Returns `InvalidHeader` if it is not text.
pub fn digest_header_value(alloc: Global, value: Option<&[u8]>) -> Result<Option<Text>, DigestError>
    ensures { Matches is_memory result (header_digest (option_copied value.entry)) }
{
    let Some(value) = value else {
        return Ok(None);
    };
    if value.is_empty() {
        return Ok(None);
    }
    let Some(text) = header_text(value) else {
        return Err(DigestError::InvalidHeader(Blob::new(alloc, value)?));
    };
    Ok(Some(Text::new(alloc, text)?))
}
