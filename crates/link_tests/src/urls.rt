// URLs of requests, and the targets of redirects.
use crate::headers::holds;
use json_values::{Blob, Text};
use oci_link::{
    AnswerHead, HeaderError, Headers, Method, Request, UrlError, plain_paths_read, redirected,
    registry_url, request_url, targets,
};
use std::alloc::{AllocError, Global};

fn is_read(alloc: Global, text: &str) -> bool {
    match request_url(alloc, text) {
        Ok(url) => url.as_str() == text,
        Err(_) => false,
    }
}

#[test]
fn requests_go_to_web_urls_without_a_user(rt: HostRuntime) {
    assert!(rt; is_read(rt.alloc(), "https://a:8443/v2/?n=1"));
    for text in ["", "a/b", "ftp://a/", "http://u@a/", "http://:p@a/"] {
        assert!(rt; !is_read(rt.alloc(), text), "{text}");
    }
}

fn is_registry(alloc: Global) -> Result<bool, UrlError> {
    let url = registry_url(alloc, "https", "ghcr.io:5000")?;
    plain_paths_read(&url);
    Ok(url.as_str() == "https://ghcr.io:5000/")
}

fn goes(alloc: Global, url: &str, registry: &str) -> Result<bool, UrlError> {
    let url = request_url(alloc, url)?;
    let registry = request_url(alloc, registry)?;
    Ok(targets(&url, &registry))
}

#[test]
fn a_url_targets_the_registry_of_its_host_port_and_scheme(rt: HostRuntime) {
    assert!(rt; holds(is_registry(rt.alloc())));
    assert!(rt; holds(goes(rt.alloc(), "https://a:443/x", "https://a/")));
    for url in [
        "http://a:443/x",
        "https://a:8443/x",
        "https://x.a/x",
        "http://a/x",
    ] {
        assert!(rt; !holds(goes(rt.alloc(), url, "https://a/")), "{url}");
    }
}

/// A request for this URL.
pub(crate) fn request(alloc: Global, method: Method, url: &str) -> Result<Request, AllocError> {
    let url = Text::new(alloc, url)?;
    Ok(Request {
        method,
        url,
        headers: Headers::new(alloc),
        body: Blob::empty(alloc),
    })
}

fn redirect(alloc: Global, status: u16, location: &str) -> Result<AnswerHead, HeaderError> {
    let mut headers = Headers::new(alloc);
    headers.add("location", location.as_bytes())?;
    Ok(AnswerHead { status, headers })
}

fn asked(alloc: Global, method: Method) -> Result<Request, HeaderError> {
    let mut asked = request(alloc, method, "https://a/v2/x")?;
    asked.headers.add("authorization", b"Basic dTpw")?;
    Ok(asked)
}

// Whether a redirect is followed, and with the credentials.
fn leads(alloc: Global, method: Method, status: u16, location: &str) -> Option<bool> {
    let asked = asked(alloc, method).ok()?;
    let head = redirect(alloc, status, location).ok()?;
    let next = redirected(alloc, &asked, &head).ok()?;
    let next = next?;
    Some(next.headers.first("authorization").is_some())
}

#[test]
fn redirects_keep_credentials_at_one_origin_alone(rt: HostRuntime) {
    assert!(rt; leads(rt.alloc(), Method::Get, 307, "https://a:443/blob") == Some(true));
    assert!(rt; leads(rt.alloc(), Method::Get, 307, "http://a/blob") == Some(false));
    assert!(rt; leads(rt.alloc(), Method::Get, 307, "ftp://a/blob").is_none());
}

#[test]
fn redirects_are_of_get_and_head_and_five_statuses(rt: HostRuntime) {
    assert!(rt; leads(rt.alloc(), Method::Head, 301, "/blob") == Some(true));
    assert!(rt; leads(rt.alloc(), Method::Post, 307, "/blob").is_none());
    assert!(rt; leads(rt.alloc(), Method::Get, 300, "/blob").is_none());
}
