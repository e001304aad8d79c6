// The answers of a shelf.
ghost use Rattle.std.specs.Prelude.{◌≡◌, IfOk, OnOk, IsTrue, None, Some};
ghost use Rattle.std.specs.Option.{option_copied};
ghost use Rattle.std.specs.List.{list_any};
ghost use Rattle.http_header.specs.FieldName.{is_header_name};
ghost use Rattle.oci_link.specs.Table as rows;

use crate::paths::{after, path_of};
use crate::shelf::{Shelf, ShelfDocument};
use json_values::{Blob, Copied, Text};
use oci_transport::{Answer, DIGEST_HEADER, HeaderError, Headers, Method, Request};
use std::alloc::{AllocError, Global};

fn is_get(method: Method) -> bool
    ensures { result ≡ rows.is_get method }
{
    match method {
        Method::Get => true,
        _ => false,
    }
}

fn is_get_or_head(method: Method) -> bool
    ensures { result ≡ rows.is_get_or_head method }
{
    match method {
        Method::Get => true,
        Method::Head => true,
        _ => false,
    }
}

// Adds a header, unless its value is invalid.
fn with_header(name: &str, value: &[u8], mut headers: Headers) -> Result<Headers, AllocError>
    requires { IsTrue (is_header_name name.now) }
    ensures { IfOk result (λ with. with ≡ rows.with_header name.now value.now headers) }
{
    match headers.add(name, value) {
        Ok(()) => Ok(headers),
        Err(HeaderError::WantOfMemory) => Err(AllocError),
        Err(HeaderError::BadName) => unreachable!(),
        Err(HeaderError::BadValue) => Ok(headers),
        Err(HeaderError::TooMany) => Ok(headers),
    }
}

fn with_digest(alloc: Global, digest: &str) -> Result<Headers, AllocError>
    ensures { IfOk result (λ headers. headers ≡ rows.with_digest digest.now) }
{
    let headers = with_header(DIGEST_HEADER, digest.as_bytes(), Headers::new(alloc))?;
    Ok(headers)
}

fn found(headers: Headers, body: Blob) -> Answer
    ensures { result ≡ rows.found headers body }
{
    Answer {
        status: 200,
        headers,
        body,
    }
}

fn not_found(alloc: Global) -> Answer
    ensures { result ≡ rows.not_found }
{
    Answer {
        status: 404,
        headers: Headers::new(alloc),
        body: Blob::empty(alloc),
    }
}

fn body_for(alloc: Global, method: Method, content: &Blob) -> Result<Blob, AllocError>
    ensures { IfOk result (λ body. body ≡ rows.body_for method content.now) }
{
    match method {
        Method::Head => Ok(Blob::empty(alloc)),
        _ => {
            let body = content.copy(alloc)?;
            Ok(body)
        }
    }
}

fn document_answer(
    alloc: Global,
    method: Method,
    digest: &str,
    document: &ShelfDocument,
) -> Result<Answer, AllocError>
    ensures { IfOk result (λ answer.
        answer ≡ rows.document_answer method digest.now (Some document.now)) }
{
    let headers = with_digest(alloc, digest)?;
    let headers = with_header(
        "content-type",
        document.media_type.as_str().as_bytes(),
        headers,
    )?;
    let body = body_for(alloc, method, &document.content)?;
    Ok(found(headers, body))
}

fn digest_answer(
    alloc: Global,
    shelf: &Shelf,
    method: Method,
    digest: &str,
) -> Result<Answer, AllocError>
    ensures { IfOk result (λ answer.
        answer ≡ rows.digest_answer shelf.now method (Some digest.now)) }
{
    match shelf.documents.get(digest) {
        Some(document) => {
            let answer = document_answer(alloc, method, digest, document)?;
            Ok(answer)
        }
        None => Ok(not_found(alloc)),
    }
}

fn has_colon(name: &str) -> bool
    ensures { result ≡ list_any rows.is_colon name.now }
{
    name.bytes().any(|byte| byte == b':')
}

// Returns the digest for a name: a name with a colon is a digest, another one is a tag.
fn digest_named<'a>(shelf: &'a Shelf, name: &'a str) -> Option<&'a str>
    ensures { option_copied result ≡ rows.digest_named shelf.now name.now }
{
    if has_colon(name) {
        return Some(name);
    }
    match shelf.tags.get(name) {
        Some(digest) => Some(digest.as_str()),
        None => None,
    }
}

fn manifest_answer(
    alloc: Global,
    shelf: &Shelf,
    method: Method,
    name: &str,
) -> Result<Answer, AllocError>
    ensures { IfOk result (λ answer. answer ≡ rows.manifest_answer shelf.now method name.now) }
{
    if !is_get_or_head(method) {
        return Ok(not_found(alloc));
    }
    match digest_named(shelf, name) {
        Some(digest) => {
            let answer = digest_answer(alloc, shelf, method, digest)?;
            Ok(answer)
        }
        None => Ok(not_found(alloc)),
    }
}

fn bytes_answer(alloc: Global, headers: Headers, bytes: Option<&Blob>) -> Result<Answer, AllocError>
    ensures { IfOk result (λ answer.
        answer ≡ rows.bytes_answer headers (option_copied bytes.entry)) }
{
    match bytes {
        Some(bytes) => {
            let body = bytes.copy(alloc)?;
            Ok(found(headers, body))
        }
        None => Ok(not_found(alloc)),
    }
}

fn blob_answer(
    alloc: Global,
    shelf: &Shelf,
    method: Method,
    digest: &str,
) -> Result<Answer, AllocError>
    ensures { IfOk result (λ answer. answer ≡ rows.blob_answer shelf.now method digest.now) }
{
    if !is_get(method) {
        return Ok(not_found(alloc));
    }
    let headers = with_digest(alloc, digest)?;
    let answer = bytes_answer(alloc, headers, shelf.blobs.get(digest))?;
    Ok(answer)
}

fn referrers_answer(
    alloc: Global,
    shelf: &Shelf,
    method: Method,
    digest: &str,
) -> Result<Answer, AllocError>
    ensures { IfOk result (λ answer. answer ≡ rows.referrers_answer shelf.now method digest.now) }
{
    if !is_get(method) {
        return Ok(not_found(alloc));
    }
    let answer = bytes_answer(alloc, Headers::new(alloc), shelf.referrers.get(digest))?;
    Ok(answer)
}

// Answers by the rest after the repository's name.
fn in_repository(
    alloc: Global,
    shelf: &Shelf,
    method: Method,
    rest: &str,
) -> Result<Answer, AllocError>
    ensures { IfOk result (λ answer. answer ≡ rows.in_repository shelf.now method (Some rest.now)) }
{
    if let Some(name) = after("/manifests/", rest) {
        let answer = manifest_answer(alloc, shelf, method, name)?;
        return Ok(answer);
    }
    if let Some(digest) = after("/blobs/", rest) {
        let answer = blob_answer(alloc, shelf, method, digest)?;
        return Ok(answer);
    }
    if let Some(digest) = after("/referrers/", rest) {
        let answer = referrers_answer(alloc, shelf, method, digest)?;
        return Ok(answer);
    }
    Ok(not_found(alloc))
}

// Answers by the rest after `/v2/`.
fn in_registry(
    alloc: Global,
    shelf: &Shelf,
    method: Method,
    rest: &str,
) -> Result<Answer, AllocError>
    ensures { IfOk result (λ answer. answer ≡ rows.in_registry shelf.now method (Some rest.now)) }
{
    if rest.is_empty() {
        if is_get(method) {
            return Ok(found(Headers::new(alloc), Blob::empty(alloc)));
        }
        return Ok(not_found(alloc));
    }
    match after(shelf.repository.as_str(), rest) {
        Some(rest) => {
            let answer = in_repository(alloc, shelf, method, rest)?;
            Ok(answer)
        }
        None => Ok(not_found(alloc)),
    }
}

fn at_path(
    alloc: Global,
    shelf: &Shelf,
    method: Method,
    path: Option<&str>,
) -> Result<Answer, AllocError>
    ensures { IfOk result (λ answer.
        answer ≡ rows.at_path shelf.now method (option_copied path.entry)) }
{
    let Some(path) = path else {
        return Ok(not_found(alloc));
    };
    match after("v2/", path) {
        Some(rest) => {
            let answer = in_registry(alloc, shelf, method, rest)?;
            Ok(answer)
        }
        None => Ok(not_found(alloc)),
    }
}

fn redirect_to(alloc: Global, location: &Text) -> Result<Answer, AllocError>
    ensures { IfOk result (λ answer. answer ≡ rows.redirect_to location.now) }
{
    let headers = with_header(
        "location",
        location.as_str().as_bytes(),
        Headers::new(alloc),
    )?;
    Ok(Answer {
        status: 307,
        headers,
        body: Blob::empty(alloc),
    })
}

/// Returns the shelf's answer to a request (OCI distribution specification, "Pull").
///
/// A GET or HEAD of a URL that redirects is answered 307. Otherwise the URL's path decides, from the first slash
/// after `://` up to a `?`: GET of `/v2/`; GET or HEAD of `/v2/<repository>/manifests/<tag or digest>`; GET of
/// `/v2/<repository>/blobs/<digest>` and of `/v2/<repository>/referrers/<digest>`. Everything else, and everything
/// that the shelf does not contain, is answered 404.
#[tactic(auto, unfolding(crate::specs::Table::answer))]
pub fn answer(alloc: Global, shelf: &Shelf, request: &Request) -> Result<Answer, AllocError>
    ensures { IfOk result (λ answer. answer ≡ rows.answer shelf.now request.now) }
{
    if is_get_or_head(request.method) {
        if let Some(location) = shelf.redirects.get(request.url.as_str()) {
            let answer = redirect_to(alloc, location)?;
            return Ok(answer);
        }
    }
    let answer = at_path(alloc, shelf, request.method, path_of(request.url.as_str()))?;
    Ok(answer)
}
