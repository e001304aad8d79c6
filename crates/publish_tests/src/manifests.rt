// Manifests that are pushed as bytes.
use crate::registry::{Asked, client, image, is_asked, registry};
use json_values::{Blob, Text};
use oci_transport::Method;
use recorded_answers::CONFIG_DIGEST;
use std::alloc::{AllocError, Global};

const KIND: &str = "application/vnd.oci.image.manifest.v1+json";

// A push of `{}`, and the response to it.
#[derive(Drop)]
struct ManifestPush<'a> {
    image: &'a str,
    mirror: &'a str,
    kind: &'a str,
    status: u16,
    location: &'a str,
}

// The URL that it returns, or the name of its refusal; and how many requests were sent.
fn pushed(alloc: Global, push: &ManifestPush) -> Result<(Text, usize), AllocError> {
    let mut script = registry(alloc, &[(push.status, push.location)])?;
    let mut client = client(alloc)?;
    let image = image(alloc, push.image, push.mirror)?;
    let body = Blob::new(alloc, b"{}")?;
    let said = match client.push_manifest_raw(alloc, &mut script, 100, &image, body, push.kind) {
        Ok(url) => url,
        Err(error) => Text::new(alloc, error.name())?,
    };
    Ok((said, script.conversation().as_slice().len()))
}

fn says(alloc: Global, push: &ManifestPush, want: &str, requests: usize) -> bool {
    match pushed(alloc, push) {
        Ok((said, made)) => said.as_str() == want && made == requests,
        Err(AllocError) => false,
    }
}

fn is_named(alloc: Global, image: &str, mirror: &str, location: &str, want: &str) -> bool {
    let push = ManifestPush {
        image,
        mirror,
        kind: KIND,
        status: 201,
        location,
    };
    says(alloc, &push, want, 1)
}

// The URL by the digest of `{}`.
fn by_digest(alloc: Global) -> Result<Text, AllocError> {
    let mut url = Text::new(alloc, "http://localhost:5000/v2/app/manifests/")?;
    url.push_str(CONFIG_DIGEST)?;
    Ok(url)
}

fn names_bytes(alloc: Global) -> Result<bool, AllocError> {
    let url = by_digest(alloc)?;
    Ok(
        is_named(alloc, "localhost:5000/app:v1", "", "", url.as_str())
            && is_named(alloc, "localhost:5000/app", "", "", url.as_str()),
    )
}

#[test]
fn a_manifest_without_a_location_is_named_by_its_bytes(rt: HostRuntime) {
    assert!(rt; names_bytes(rt.alloc()).unwrap_or(false));
}

// A URL that ends in a digest, or in the registry that a mirror stands in for, ends in no tag.
fn ends_in_no_tag(alloc: Global) -> bool {
    let named =
        "localhost:5000/app@sha256:44136fa355b3678a1146ad16f7e8649e94fb4fc21fe77e8310c060f61caaff8a";
    let none = "RegistryNoLocationError";
    is_named(alloc, named, "", "", none)
        && is_named(alloc, "localhost:5000/app:v1", "mirror.example", "", none)
        && is_named(alloc, named, "", "/m", "http://localhost:5000/m")
}

#[test]
fn a_location_is_needed_unless_the_url_ends_in_the_tag(rt: HostRuntime) {
    assert!(rt; ends_in_no_tag(rt.alloc()));
}

fn is_refused(alloc: Global, kind: &str, status: u16, want: &str, requests: usize) -> bool {
    let push = ManifestPush {
        image: "localhost:5000/app:v1",
        mirror: "",
        kind,
        status,
        location: "",
    };
    says(alloc, &push, want, requests)
}

#[test]
fn a_manifest_is_refused_by_a_status_or_its_content_type(rt: HostRuntime) {
    let alloc = rt.alloc();
    assert!(rt; is_refused(alloc, KIND, 400, "ServerError", 1));
    assert!(rt; is_refused(alloc, KIND, 401, "ServerError", 1));
    assert!(rt; is_refused(alloc, KIND, 202, "SpecViolationError", 1));
    assert!(rt; is_refused(alloc, "a\u{1}b", 201, "GenericError", 0));
}

// Whether the request contains the bytes under their content type.
fn bytes_sent(alloc: Global) -> Result<bool, AllocError> {
    let mut script = registry(alloc, &[(201, "/m")])?;
    let mut client = client(alloc)?;
    let image = image(alloc, "localhost:5000/app:v1", "")?;
    let body = Blob::new(alloc, b"{ }")?;
    let said = client.push_manifest_raw(alloc, &mut script, 100, &image, body, KIND);
    let asked = Asked {
        method: Method::Put,
        url: "http://localhost:5000/v2/app/manifests/v1",
        body: "{ }",
        header: "content-type",
        value: KIND,
    };
    Ok(said.is_ok() && is_asked(&script, 0, &asked))
}

#[test]
fn the_bytes_of_a_manifest_are_sent_as_they_are(rt: HostRuntime) {
    assert!(rt; bytes_sent(rt.alloc()).unwrap_or(false));
}
