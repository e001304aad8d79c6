// URLs of requests.
ghost use Rattle.std.specs.Prelude.{◌≡◌, IfOk, IsErrOf, Some, None, option_copied};
ghost use Rattle.oci_transport.specs.Urls.{is_web, request_url, registry_text, same_text, same_port, same_place};
ghost use Rattle.oci_transport.specs.Urls.{same_origin, targets};

use json_values::{Copied, Text};
use std::alloc::{AllocError, Global};
use thiserror::Error;
use url::{ParseError, Url};

/// Why a string is not the URL of a request.
#[derive(Clone, Copy, Debug, PartialEq, Eq, Error)]
pub enum UrlError {
    /// It is not a URL, its scheme is neither `http` nor `https`, or it has a user name or a password.
    #[error("not the URL of a request: use http or https, a host, and neither user nor password")]
    Refused,
    /// The allocator is out of memory.
    #[error("out of memory: free some and try again")]
    WantOfMemory,
}

impl Copied for UrlError {
    fn copy(&self, _alloc: Global) -> Result<UrlError, AllocError> {
        Ok(*self)
    }
}

fn is_web(url: &Url) -> bool
    ensures { result ≡ is_web url.now }
{
    (url.scheme() == "http" || url.scheme() == "https")
        && (url.username().is_empty() && url.password().is_none())
}

/// Parses the URL of a request: an `http` or `https` URL without user name and password.
#[tactic(auto, unfolding(crate::specs::Urls::request_url))]
pub fn request_url(alloc: Global, text: &str) -> Result<Url, UrlError>
    ensures ok { IfOk result (λ url. request_url text.now ≡ Some url) }
    ensures refused { IsErrOf result UrlError.Refused → request_url text.now ≡ None }
{
    match Url::parse(alloc, text) {
        Ok(url) => {
            if is_web(&url) {
                return Ok(url);
            }
            Err(UrlError::Refused)
        }
        Err(ParseError::OutOfMemory) => Err(UrlError::WantOfMemory),
        Err(ParseError::Overflow) => Err(UrlError::WantOfMemory),
        Err(_) => Err(UrlError::Refused),
    }
}

/// Parses the URL of a registry: the URL of the text `scheme://registry`.
pub fn registry_url(alloc: Global, scheme: &str, registry: &str) -> Result<Url, UrlError>
    ensures ok { IfOk result (λ url.
        request_url (registry_text scheme.now registry.now) ≡ Some url) }
    ensures refused { IsErrOf result UrlError.Refused
        → request_url (registry_text scheme.now registry.now) ≡ None }
{
    let mut text = match Text::new(alloc, scheme) {
        Ok(text) => text,
        Err(_) => return Err(UrlError::WantOfMemory),
    };
    if text.push_str("://").is_err() || text.push_str(registry).is_err() {
        return Err(UrlError::WantOfMemory);
    }
    request_url(alloc, text.as_str())
}

fn same_text(a: Option<&str>, b: Option<&str>) -> bool
    ensures { result ≡ same_text (option_copied a.entry) (option_copied b.entry) }
{
    match (a, b) {
        (Some(a), Some(b)) => a == b,
        (None, None) => true,
        _ => false,
    }
}

fn same_port(a: Option<u16>, b: Option<u16>) -> bool
    ensures { result ≡ same_port a b }
{
    match (a, b) {
        (Some(a), Some(b)) => a == b,
        (None, None) => true,
        _ => false,
    }
}

#[tactic(auto, unfolding(crate::specs::Urls::same_place))]
fn same_place(a: &Url, b: &Url) -> bool
    ensures { result ≡ same_place a.now b.now }
{
    same_text(a.host_str(), b.host_str())
        && same_port(a.port_or_known_default(), b.port_or_known_default())
}

#[tactic(auto, unfolding(crate::specs::Urls::same_origin))]
pub(crate) fn same_origin(a: &Url, b: &Url) -> bool
    ensures { result ≡ same_origin a.now b.now }
{
    a.scheme() == b.scheme() && same_place(a, b)
}

/// Returns whether the URL goes to the registry: equal hosts, equal ports (given or default), and not `http` if the
/// registry's URL is `https`.
#[tactic(auto, unfolding(crate::specs::Urls::targets))]
pub fn targets(url: &Url, registry_url: &Url) -> bool
    ensures { result ≡ targets url.now registry_url.now }
{
    same_place(url, registry_url)
        && !(registry_url.scheme() == "https" && !(url.scheme() == "https"))
}
