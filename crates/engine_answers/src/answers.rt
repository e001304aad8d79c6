// Interprets a whole response.
ghost use Rattle.std.specs.Prelude.{◌≡◌, IfOk, Result, Some, option_copied};
ghost use Rattle.oci_digests.specs.Checks.{header_digest as digest_in};
ghost use Rattle.json_values.specs.Refusals.{Matches, MatchesError};
ghost use Rattle.oci_digests.specs.Error.{is_memory as digest_is_memory};
ghost use Rattle.oci_digests.specs.declared.error.DigestError.{DigestError};
ghost use Rattle.oci_transport.specs.Headers.{first_of, digest_header};
ghost use Rattle.oci_digests.specs.Checks.{parts_of};
ghost use Rattle.oci_names.specs.Reference.{digest_of};
ghost use Rattle.engine_terms.specs.Error.{is_memory};
ghost use Rattle.engine_answers.specs.Answers.{is_success, is_error, is_client_error, envelope_in};
ghost use Rattle.engine_answers.specs.Answers.{by_envelope, refused_answer, accepted};
ghost use Rattle.engine_answers.specs.Answers.{or_digest_error, header_digest, body_digest};
ghost use Rattle.engine_answers.specs.Answers.{answer_digest, document_in, agreed, fits_reference};

use engine_terms::{OciDistributionError, SpecViolation};
use json_values::{Blob, Text, read_json};
use oci_digests::{Digest, DigestError, digest_header_value, validate_digest};
use oci_errors::OciEnvelope;
use oci_manifests::ReadError;
use oci_names::Reference;
use oci_transport::{Answer, DIGEST_HEADER, Headers};
use std::alloc::{AllocError, Global};

/// A whole response, and the URL that it came from.
#[derive(Drop)]
pub struct Got {
    pub url: Text,
    pub answer: Answer,
}

/// Returns whether the status is 2xx.
pub fn is_success(status: u16) -> bool
    ensures { result ≡ is_success status }
{
    200 <= status && status < 300
}

/// Returns whether the status is 4xx or 5xx.
pub fn is_error(status: u16) -> bool
    ensures { result ≡ is_error status }
{
    400 <= status && status < 600
}

fn is_client_error(status: u16) -> bool
    ensures { result ≡ is_client_error status }
{
    400 <= status && status < 500
}

// Parses the registry's own list of errors, if the body is one.
fn envelope_in(alloc: Global, body: &Blob) -> Result<Option<OciEnvelope>, AllocError>
    ensures { IfOk result (λ envelope. envelope ≡ envelope_in body.now) }
{
    let Some(json) = read_json(alloc, body.as_slice())? else {
        return Ok(None);
    };
    match OciEnvelope::read(alloc, json.value()) {
        Ok(envelope) => Ok(Some(envelope)),
        Err(ReadError::WantOfMemory) => Err(AllocError),
        Err(ReadError::Float) => Ok(None),
        Err(ReadError::Shape) => Ok(None),
        Err(ReadError::Ambiguous) => Ok(None),
    }
}

fn by_envelope(url: Text, answer: Answer, envelope: Option<OciEnvelope>) -> OciDistributionError
    ensures { result ≡ by_envelope url answer envelope }
{
    match envelope {
        Some(envelope) => OciDistributionError::RegistryError { envelope, url },
        None => OciDistributionError::ServerError {
            code: answer.status,
            url,
            message: answer.body,
        },
    }
}

/// Returns why a response is refused that has another status than expected.
pub fn refused_answer(alloc: Global, expected: u16, got: Got) -> OciDistributionError
    ensures { MatchesError is_memory result (refused_answer expected got.url got.answer) }
{
    let Got { url, answer } = got;
    if answer.status == 401 {
        return OciDistributionError::UnauthorizedError { url };
    }
    if is_success(answer.status) {
        return OciDistributionError::SpecViolationError(SpecViolation::Status {
            expected,
            got: answer.status,
            url,
        });
    }
    if is_client_error(answer.status) {
        return match envelope_in(alloc, &answer.body) {
            Ok(envelope) => by_envelope(url, answer, envelope),
            Err(AllocError) => OciDistributionError::WantOfMemory,
        };
    }
    OciDistributionError::ServerError {
        code: answer.status,
        url,
        message: answer.body,
    }
}

/// Returns the response, if it has the expected status.
pub fn accepted(alloc: Global, expected: u16, got: Got) -> Result<Answer, OciDistributionError>
    ensures { Matches is_memory result (accepted expected got.url got.answer) }
{
    if got.answer.status == expected {
        return Ok(got.answer);
    }
    Err(refused_answer(alloc, expected, got))
}

/// Converts a digest error to the client's.
pub fn of_digest<A: Drop>(checked: Result<A, DigestError>) -> Result<A, OciDistributionError>
    ensures { (said : Result A DigestError) → Matches digest_is_memory checked said
        → Matches is_memory result (or_digest_error said) }
{
    match checked {
        Ok(answer) => Ok(answer),
        Err(error) => {
            if error.is_memory() {
                return Err(OciDistributionError::WantOfMemory);
            }
            Err(OciDistributionError::DigestError(error))
        }
    }
}

// Returns the digest that the header names, if it names one.
pub(crate) fn header_in(alloc: Global, headers: &Headers) -> Result<Option<Text>, DigestError>
    ensures { Matches digest_is_memory result (digest_in (first_of digest_header headers.now)) }
{
    digest_header_value(alloc, headers.first(DIGEST_HEADER))
}

/// Returns the digest that the header `docker-content-digest` names, if it names one.
pub fn header_digest(alloc: Global, headers: &Headers) -> Result<Option<Text>, OciDistributionError>
    ensures { Matches is_memory result (header_digest headers.now) }
{
    let digest = of_digest(header_in(alloc, headers))?;
    Ok(digest)
}

fn body_digest(
    alloc: Global,
    body: &Blob,
    header: Option<&str>,
    reference: Option<&str>,
) -> Result<Text, OciDistributionError>
    ensures { Matches is_memory result
        (body_digest body.now (option_copied header.entry) (option_copied reference.entry)) }
{
    let digest = validate_digest(alloc, body.as_slice(), header, reference);
    let digest = of_digest(digest)?;
    Ok(digest)
}

// Returns the digest of a response's body; each given digest must name the body.
fn answer_digest(
    alloc: Global,
    image: &Reference,
    answer: &Answer,
) -> Result<Text, OciDistributionError>
    ensures { Matches is_memory result (answer_digest image.now answer.now) }
{
    let header = header_digest(alloc, &answer.headers)?;
    let header = header.as_ref().map(|text| text.as_str());
    body_digest(alloc, &answer.body, header, image.digest())
}

/// Returns the body of an accepted response, with its digest; each given digest must name the body.
pub fn document_in(
    alloc: Global,
    image: &Reference,
    got: Got,
) -> Result<(Blob, Text), OciDistributionError>
    ensures { Matches is_memory result (document_in image.now got) }
{
    let answer = accepted(alloc, 200, got)?;
    let digest = answer_digest(alloc, image, &answer)?;
    Ok((answer.body, digest))
}

fn agreed(alloc: Global, digest: Text, own: &str) -> Result<Text, DigestError>
    ensures { Matches digest_is_memory result (agreed digest own.now (parts_of digest) (parts_of own.now)) }
{
    let given = Digest::new(digest.as_str())?;
    let named = Digest::new(own)?;
    if given.algorithm == named.algorithm && digest.as_str() != own {
        let expected = Text::new(alloc, own)?;
        return Err(DigestError::VerificationError {
            expected,
            actual: digest,
        });
    }
    Ok(digest)
}

/// Returns the digest that the registry returned, unless the reference has another one of the same algorithm.
pub fn fits_reference(
    alloc: Global,
    digest: Text,
    image: &Reference,
) -> Result<Text, OciDistributionError>
    ensures { Matches is_memory result (fits_reference digest (digest_of image.now)) }
{
    match image.digest() {
        Some(own) => {
            let digest = of_digest(agreed(alloc, digest, own))?;
            Ok(digest)
        }
        None => Ok(digest),
    }
}
