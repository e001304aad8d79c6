// Lists of tags and of repositories.
use crate::registry::{asked_last, client, image, registry};
use json_values::Blob;
use oci_auth::RegistryAuth;
use oci_transport::Method;
use std::alloc::{AllocError, Global};

// A page of a list, and the URL of its request.
#[derive(Drop)]
struct Page<'a> {
    n: Option<usize>,
    last: Option<&'a str>,
    mirror: Option<&'a str>,
    url: &'a str,
}

const TAGS: Page<'static> = Page {
    n: None,
    last: None,
    mirror: None,
    url: "https://localhost:5000/v2/app/tags/list",
};

const REPOSITORIES: Page<'static> = Page {
    n: None,
    last: None,
    mirror: None,
    url: "https://localhost:5000/v2/_catalog",
};

// How many entries a list has, or the name of its refusal; and whether its request was the page's.
type Found = (usize, &'static str, bool);

fn tags(alloc: Global, page: &Page, status: u16, body: &[u8]) -> Result<Found, AllocError> {
    let mut script = registry(alloc, &[(200, "", b""), (status, "", body)])?;
    let mut client = client(alloc)?;
    let image = image(alloc, "localhost:5000/app:v1", page.mirror)?;
    let auth = RegistryAuth::Anonymous;
    let (count, name) = match client.list_tags(
        alloc,
        &mut script,
        100,
        &image,
        &auth,
        page.n,
        page.last,
    ) {
        Ok(found) => (found.tags.as_slice().len(), ""),
        Err(error) => (0, error.name()),
    };
    Ok((count, name, asked_last(&script, Method::Get, page.url)))
}

fn repositories(alloc: Global, page: &Page, status: u16, body: &[u8]) -> Result<Found, AllocError> {
    let mut script = registry(alloc, &[(200, "", b""), (status, "", body)])?;
    let mut client = client(alloc)?;
    let image = image(alloc, "localhost:5000/app:v1", page.mirror)?;
    let auth = RegistryAuth::Anonymous;
    let (count, name) = match client.catalog(
        alloc,
        &mut script,
        100,
        &image,
        &auth,
        page.n,
        page.last,
    ) {
        Ok(found) => (found.repositories.as_slice().len(), ""),
        Err(error) => (0, error.name()),
    };
    Ok((count, name, asked_last(&script, Method::Get, page.url)))
}

fn is(found: Result<Found, AllocError>, count: usize, name: &str) -> bool {
    match found {
        Ok((counted, named, asked)) => counted == count && named == name && asked,
        Err(AllocError) => false,
    }
}

fn read(alloc: Global, status: u16, body: &[u8], count: usize, name: &str) -> bool {
    is(tags(alloc, &TAGS, status, body), count, name)
}

#[test]
fn tags_are_what_the_table_reads(rt: HostRuntime) {
    let alloc = rt.alloc();
    assert!(rt; read(alloc, 200, br#"{"name":"app","tags":["a","b"]}"#, 2, ""));
    assert!(rt; read(alloc, 200, br#"{"name":"app","tags":null}"#, 0, ""));
    assert!(rt; read(alloc, 200, br#"{}"#, 0, "JsonError"));
    assert!(rt;
        read(
            alloc,
            200,
            br#"{"name":"app","tags":[],"size":1.5}"#,
            0,
            "JsonError"
        )
    );
    assert!(rt;
        read(
            alloc,
            200,
            b"{\"name\":\"\xe9\",\"tags\":[]}",
            0,
            "ManifestEncodingError"
        )
    );
    assert!(rt;
        read(
            alloc,
            206,
            br#"{"name":"app","tags":[]}"#,
            0,
            "SpecViolationError"
        )
    );
}

fn listed(alloc: Global, body: &[u8], count: usize, name: &str) -> bool {
    is(repositories(alloc, &REPOSITORIES, 200, body), count, name)
}

#[test]
fn repositories_are_what_the_table_reads(rt: HostRuntime) {
    let alloc = rt.alloc();
    assert!(rt; listed(alloc, br#"{"repositories":["app"]}"#, 1, ""));
    assert!(rt; listed(alloc, br#"{"repositories":null}"#, 0, "JsonError"));
}

// Whether the request for tags, and the one for repositories, are those of these pages.
fn asked(alloc: Global, of_tags: &Page, of_repositories: &Page) -> bool {
    is(tags(alloc, of_tags, 200, b"{}"), 0, "JsonError")
        && is(
            repositories(alloc, of_repositories, 200, b"{}"),
            0,
            "JsonError",
        )
}

fn pages_asked(alloc: Global) -> bool {
    let of_tags = Page {
        n: Some(2),
        last: Some("a&b \u{e9}"),
        mirror: Some("mirror.example"),
        url: "https://mirror.example/v2/app/tags/list?ns=localhost:5000&n=2&last=a%26b+%C3%A9",
    };
    let of_repositories = Page {
        n: Some(10),
        last: None,
        mirror: Some("mirror.example"),
        url: "https://mirror.example/v2/_catalog?n=10",
    };
    asked(alloc, &of_tags, &of_repositories)
}

#[test]
fn a_page_is_named_in_the_query(rt: HostRuntime) {
    assert!(rt; pages_asked(rt.alloc()));
}

fn long_list(alloc: Global) -> Result<Blob, AllocError> {
    let mut body = Blob::new(alloc, br#"{"name":"app","tags":["t""#)?;
    for _ in 1..100000 {
        body.append(br#","t""#)?;
    }
    body.append(b"]}")?;
    Ok(body)
}

fn long_list_read(alloc: Global) -> Result<bool, AllocError> {
    let body = long_list(alloc)?;
    Ok(read(alloc, 200, body.as_slice(), 100000, ""))
}

#[test]
fn a_list_may_have_many_tags(rt: HostRuntime) {
    assert!(rt; long_list_read(rt.alloc()).unwrap_or(false));
}
