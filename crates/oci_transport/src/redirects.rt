// The target of a redirect.
ghost use Rattle.std.specs.Prelude.{◌≡◌, IfOk, IsErrOf, Some, None};
ghost use Rattle.oci_transport.specs.Redirects.{joined_text, may_follow, is_redirect_status, kept_headers, moved};
ghost use Rattle.oci_transport.specs.Redirects.{moved_text, moved_from, moved_to, redirected};

use crate::headers::{Headers, header_text};
use crate::message::{AnswerHead, Method, Request};
use crate::urls::{UrlError, request_url, same_origin};
use json_values::{Copied, Text};
use std::alloc::{AllocError, Global};
use url::{ParseError, Url};

#[tactic(auto, unfolding(crate::specs::Redirects::joined_text))]
fn joined_text(alloc: Global, base: &Url, location: &str) -> Result<Text, UrlError>
    ensures ok { IfOk result (λ text. joined_text base.now location.now ≡ Some text) }
    ensures refused { IsErrOf result UrlError.Refused → joined_text base.now location.now ≡ None }
{
    match base.join(location) {
        Ok(url) => match Text::new(alloc, url.as_str()) {
            Ok(text) => Ok(text),
            Err(_) => Err(UrlError::WantOfMemory),
        },
        Err(ParseError::OutOfMemory) => Err(UrlError::WantOfMemory),
        Err(ParseError::Overflow) => Err(UrlError::WantOfMemory),
        Err(_) => Err(UrlError::Refused),
    }
}

fn may_follow(method: Method) -> bool
    ensures { result ≡ may_follow method }
{
    match method {
        Method::Get => true,
        Method::Head => true,
        _ => false,
    }
}

fn is_redirect_status(status: u16) -> bool
    ensures { result ≡ is_redirect_status status }
{
    status == 301 || (status == 302 || (status == 303 || (status == 307 || status == 308)))
}

fn kept_headers(alloc: Global, keep: bool, headers: &Headers) -> Result<Headers, AllocError>
    ensures { IfOk result (λ kept. kept ≡ kept_headers keep headers.now) }
{
    if keep {
        return headers.copy(alloc);
    }
    headers.without(alloc, "authorization")
}

fn moved(
    alloc: Global,
    request: &Request,
    base: &Url,
    text: Text,
    url: &Url,
) -> Result<Request, AllocError>
    ensures { IfOk result (λ next. Some next ≡ moved request.now base.now text (Some url.now)) }
{
    let headers = kept_headers(alloc, same_origin(base, url), &request.headers)?;
    let body = request.body.copy(alloc)?;
    Ok(Request {
        method: request.method,
        url: text,
        headers,
        body,
    })
}

// Parses the text as the URL of any request.
fn moved_text(
    alloc: Global,
    request: &Request,
    base: &Url,
    text: Text,
) -> Result<Option<Request>, AllocError>
    ensures { IfOk result (λ next. next ≡ moved_text request.now base.now (Some text)) }
{
    match request_url(alloc, text.as_str()) {
        Ok(url) => {
            let next = moved(alloc, request, base, text, &url)?;
            Ok(Some(next))
        }
        Err(UrlError::Refused) => Ok(None),
        Err(UrlError::WantOfMemory) => Err(AllocError),
    }
}

fn moved_from(
    alloc: Global,
    request: &Request,
    location: &str,
    base: &Url,
) -> Result<Option<Request>, AllocError>
    ensures { IfOk result (λ next. next ≡ moved_from request.now location.now (Some base.now)) }
{
    match joined_text(alloc, base, location) {
        Ok(text) => {
            let next = moved_text(alloc, request, base, text)?;
            Ok(next)
        }
        Err(UrlError::Refused) => Ok(None),
        Err(UrlError::WantOfMemory) => Err(AllocError),
    }
}

fn moved_to(alloc: Global, request: &Request, location: &str) -> Result<Option<Request>, AllocError>
    ensures { IfOk result (λ next. next ≡ moved_to request.now (Some location.now)) }
{
    match request_url(alloc, request.url.as_str()) {
        Ok(base) => moved_from(alloc, request, location, &base),
        Err(UrlError::Refused) => Ok(None),
        Err(UrlError::WantOfMemory) => Err(AllocError),
    }
}

/// Returns the request to which an answer with this head leads (RFC 9110, section 15.4), if the request was GET or
/// HEAD, the status is 301, 302, 303, 307 or 308, and the first `location`, resolved against the request's URL, is the
/// URL of a request. The new request has no `authorization` if its scheme, host or port differs.
#[tactic(auto, unfolding(crate::specs::Redirects::redirected))]
pub fn redirected(
    alloc: Global,
    request: &Request,
    head: &AnswerHead,
) -> Result<Option<Request>, AllocError>
    ensures { IfOk result (λ next. next ≡ redirected request.now head.now) }
{
    if !(may_follow(request.method) && is_redirect_status(head.status)) {
        return Ok(None);
    }
    match head.headers.first("location") {
        Some(value) => match header_text(value) {
            Some(location) => moved_to(alloc, request, location),
            None => Ok(None),
        },
        None => Ok(None),
    }
}
