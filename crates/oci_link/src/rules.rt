// The requests that a guard allows.
ghost use Rattle.std.specs.Prelude.{◌≡◌, IfOk, IsTrue, Some, option_copied};
ghost use Rattle.oci_link.specs.Rules.{by_get, goes_plain, has_host, has_scheme, is_at, is_base, is_host, is_path};
ghost use Rattle.oci_link.specs.Rules.{is_realm, may_show};
ghost use Rattle.oci_transport.specs.Urls.{request_url};
ghost use Rattle.std.specs.List.{list_any};
ghost use Rattle.oci_link.specs.Rules.{passes, realm_by, realm_named, shows, url_passes};

use json_values::{List, Text};
use oci_auth::{BearerChallenge, ChallengeError};
use oci_transport::{Headers, Method, Request, UrlError, registry_url, request_url, targets};
use std::alloc::{AllocError, Global};
use url::Url;

/// The hosts to which requests may go.
#[derive(Drop)]
pub enum Hosts {
    Any,
    /// Only these, each as a URL prints it: in lower case, without a port.
    Only(List<Text>),
}

/// The rules for requests: the scheme is https, except for some registries; the host is one of these; and credentials
/// are sent only below `/v2/`, and to the realm that the registry named directly before.
#[derive(Drop)]
pub struct Rules {
    /// The registries that accept http, each with its port as in a reference: `localhost:5000`.
    pub plain: List<Text>,
    pub hosts: Hosts,
}

fn goes_plain(alloc: Global, url: &Url, registry: &str) -> Result<bool, AllocError>
    ensures { IfOk result (λ goes. goes ≡ goes_plain url.now registry.now) }
{
    match registry_url(alloc, "http", registry) {
        Ok(there) => Ok(targets(url, &there)),
        Err(UrlError::Refused) => Ok(false),
        Err(UrlError::WantOfMemory) => Err(AllocError),
    }
}

fn is_plain(alloc: Global, url: &Url, registries: &[Text]) -> Result<bool, AllocError>
    ensures { IfOk result (λ plain. plain ≡ list_any (goes_plain url.now) registries.now) }
{
    for registry in registries {
        let goes = goes_plain(alloc, url, registry.as_str())?;
        if goes {
            return Ok(true);
        }
    }
    Ok(false)
}

fn has_scheme(alloc: Global, rules: &Rules, url: &Url) -> Result<bool, AllocError>
    ensures { IfOk result (λ has. has ≡ has_scheme rules.now url.now) }
{
    if url.scheme() == "https" {
        return Ok(true);
    }
    let plain = is_plain(alloc, url, rules.plain.as_slice())?;
    Ok(plain)
}

fn is_host(url: &Url, host: &Text) -> bool
    ensures { result ≡ is_host url.now host.now }
{
    match url.host_str() {
        Some(own) => own == host.as_str(),
        None => false,
    }
}

fn is_among(url: &Url, hosts: &[Text]) -> bool
    ensures { result ≡ list_any (is_host url.now) hosts.now }
{
    hosts.iter().any(|host| is_host(url, host))
}

fn has_host(hosts: &Hosts, url: &Url) -> bool
    ensures { result ≡ has_host hosts.now url.now }
{
    match hosts {
        Hosts::Any => true,
        Hosts::Only(hosts) => is_among(url, hosts.as_slice()),
    }
}

fn is_path(path: &str) -> bool
    ensures { result ≡ is_path path.now }
{
    path.as_bytes().starts_with(b"/v2/")
}

fn is_at(alloc: Global, url: &Url, realm: &str) -> Result<bool, AllocError>
    ensures { IfOk result (λ is. is ≡ is_at url.now (request_url realm.now)) }
{
    match request_url(alloc, realm) {
        Ok(realm) => Ok(targets(url, &realm) && url.path() == realm.path()),
        Err(UrlError::Refused) => Ok(false),
        Err(UrlError::WantOfMemory) => Err(AllocError),
    }
}

fn is_realm(alloc: Global, url: &Url, realm: &Option<Text>) -> Result<bool, AllocError>
    ensures { IfOk result (λ is. is ≡ is_realm url.now realm.now) }
{
    match realm {
        Some(realm) => is_at(alloc, url, realm.as_str()),
        None => Ok(false),
    }
}

fn may_show(alloc: Global, shows: bool, realm: &Option<Text>, url: &Url) -> Result<bool, AllocError>
    ensures { IfOk result (λ may. may ≡ may_show shows realm.now url.now) }
{
    if !shows || is_path(url.path()) {
        return Ok(true);
    }
    let is = is_realm(alloc, url, realm)?;
    Ok(is)
}

fn shows(request: &Request) -> bool
    ensures { result ≡ shows request.now }
{
    request.headers.first("authorization").is_some()
}

fn url_passes(
    alloc: Global,
    rules: &Rules,
    realm: &Option<Text>,
    shows: bool,
    url: &Url,
) -> Result<bool, AllocError>
    ensures { IfOk result (λ passes. passes ≡ url_passes rules.now realm.now shows (Some url.now)) }
{
    let has_scheme = has_scheme(alloc, rules, url)?;
    let may_show = may_show(alloc, shows, realm, url)?;
    Ok(has_scheme && (has_host(&rules.hosts, url) && may_show))
}

impl Rules {
    /// Returns whether the request keeps the rules, given that this realm was named directly before.
    #[tactic(auto, unfolding(crate::specs::Rules::passes))]
    pub(crate) fn pass(
        &self,
        alloc: Global,
        realm: &Option<Text>,
        request: &Request,
    ) -> Result<bool, AllocError>
        ensures { IfOk result (λ pass. pass ≡ passes self.now realm.now request.now) }
    {
        match request_url(alloc, request.url.as_str()) {
            Ok(url) => {
                let passes = url_passes(alloc, self, realm, shows(request), &url)?;
                Ok(passes)
            }
            Err(UrlError::Refused) => Ok(false),
            Err(UrlError::WantOfMemory) => Err(AllocError),
        }
    }
}

fn realm_by(alloc: Global, value: &[u8]) -> Result<Option<Text>, AllocError>
    ensures { IfOk result (λ realm. realm ≡ realm_by (Some value.now)) }
{
    match BearerChallenge::from_header(alloc, value) {
        Ok(challenge) => {
            let BearerChallenge { realm, .. } = challenge;
            Ok(Some(realm))
        }
        Err(ChallengeError::WantOfMemory) => Err(AllocError),
        Err(ChallengeError::NotText) => Ok(None),
        Err(ChallengeError::NoBearer) => Ok(None),
        Err(ChallengeError::OtherScheme) => Ok(None),
        Err(ChallengeError::NoRealm) => Ok(None),
    }
}

fn is_base(alloc: Global, text: &str) -> Result<bool, AllocError>
    ensures { IfOk result (λ base. base ≡ is_base (request_url text.now)) }
{
    match request_url(alloc, text) {
        Ok(url) => Ok(url.path() == "/v2/"),
        Err(UrlError::Refused) => Ok(false),
        Err(UrlError::WantOfMemory) => Err(AllocError),
    }
}

fn by_get(method: Method) -> bool
    ensures { result ≡ by_get method }
{
    match method {
        Method::Get => true,
        _ => false,
    }
}

/// Returns the realm named by an answer with these headers, if the request was a GET of a registry's `/v2/`.
#[tactic(auto, unfolding(crate::specs::Rules::realm_named))]
pub(crate) fn realm_named(
    alloc: Global,
    request: &Request,
    headers: &Headers,
) -> Result<Option<Text>, AllocError>
    ensures { IfOk result (λ realm. realm ≡ realm_named request.now headers.now) }
{
    let base = is_base(alloc, request.url.as_str())?;
    if !(by_get(request.method) && base) {
        return Ok(None);
    }
    match headers.first("www-authenticate") {
        Some(value) => {
            let realm = realm_by(alloc, value)?;
            Ok(realm)
        }
        None => Ok(None),
    }
}
