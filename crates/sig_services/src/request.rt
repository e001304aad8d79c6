// Requests to Rekor.
ghost use Rattle.std.specs.Prelude.{◌≡◌, IfOk};
ghost use Rattle.form_urlencoded.specs.Form.{byte_serialize};
ghost use Rattle.json_values.specs.Refusals.{Matches};
ghost use Rattle.sig_services.specs.Error.{is_memory};
ghost use Rattle.sig_services.specs.Request.{address, with_agent, with_type};
ghost use Rattle.sig_services.specs.Request.{headers_sent, headers_of, request_of, url_of};

use crate::configuration::Configuration;
use crate::error::Error;
use form_urlencoded::Serializer;
use json_values::{Blob, Text};
use oci_transport::{Headers, Method, Request, UrlError, request_url, with_header};
use std::alloc::{AllocError, Global};
use url::Url;

/// Encodes a text for a form (URL Standard, `application/x-www-form-urlencoded`).
pub fn urlencode(alloc: Global, s: &str) -> Result<Text, AllocError>
    ensures { IfOk result (λ text. text ≡ byte_serialize s.now) }
{
    let mut form = Serializer::new(String::new(alloc));
    form.append_key_only(s)?;
    let text = form.finish();
    Text::new(alloc, text.as_str())
}

fn address(alloc: Global, base: &str, path: &str) -> Result<Text, AllocError>
    ensures { IfOk result (λ text. text ≡ address base.now path.now) }
{
    let mut text = Text::new(alloc, base)?;
    text.push_str("/api/v1")?;
    text.push_str(path)?;
    Ok(text)
}

fn url_of<E>(alloc: Global, text: Text) -> Result<Url, Error<E>>
    ensures { Matches is_memory result (url_of text) }
{
    match request_url(alloc, text.as_str()) {
        Ok(url) => Ok(url),
        Err(UrlError::Refused) => Err(Error::Url(text)),
        Err(UrlError::WantOfMemory) => Err(Error::WantOfMemory),
    }
}

fn with_agent(headers: Headers, agent: &Option<Text>) -> Result<Option<Headers>, AllocError>
    ensures { IfOk result (λ more. more ≡ with_agent agent.now headers) }
{
    match agent {
        Some(agent) => with_header(headers, "user-agent", agent.as_str().as_bytes()),
        None => Ok(Some(headers)),
    }
}

fn with_type(headers: Headers, content: &Option<Blob>) -> Result<Option<Headers>, AllocError>
    ensures { IfOk result (λ more. more ≡ with_type content.now headers) }
{
    match content {
        Some(_) => with_header(headers, "content-type", b"application/json"),
        None => Ok(Some(headers)),
    }
}

fn headers_sent(
    alloc: Global,
    agent: &Option<Text>,
    content: &Option<Blob>,
) -> Result<Option<Headers>, AllocError>
    ensures { IfOk result (λ headers. headers ≡ headers_sent agent.now content.now) }
{
    let Some(headers) = with_type(Headers::new(alloc), content)? else {
        return Ok(None);
    };
    with_agent(headers, agent)
}

fn headers_of<E>(
    alloc: Global,
    agent: &Option<Text>,
    content: &Option<Blob>,
) -> Result<Headers, Error<E>>
    ensures { Matches is_memory result (headers_of agent.now content.now) }
{
    match headers_sent(alloc, agent, content)? {
        Some(headers) => Ok(headers),
        None => {
            let agent = match agent {
                Some(agent) => agent.as_str(),
                None => "",
            };
            Err(Error::Header(Text::new(alloc, agent)?))
        }
    }
}

/// Returns the request of a call: this method, this path, and this JSON text if one is given.
#[tactic(auto, unfolding(crate::specs::Request::request_of))]
pub(crate) fn request_of<E>(
    alloc: Global,
    configuration: &Configuration,
    method: Method,
    path: &str,
    content: Option<Blob>,
) -> Result<Request, Error<E>>
    ensures { Matches is_memory result (request_of configuration.now method path.now content) }
{
    let text = address(alloc, configuration.base_path.as_str(), path)?;
    let url = url_of(alloc, text)?;
    let headers = headers_of(alloc, &configuration.user_agent, &content)?;
    let url = Text::new(alloc, url.as_str())?;
    Ok(Request {
        method,
        url,
        headers,
        body: content.unwrap_or(Blob::empty(alloc)),
    })
}
