// Whether a blob exists.
use crate::registry::{asked_last, client, image, registry};
use oci_engine::OciDistributionError;
use oci_transport::Method;
use std::alloc::{AllocError, Global};

fn word_of(found: &Result<bool, OciDistributionError>) -> &'static str {
    let there = match found {
        Ok(there) => *there,
        Err(error) => return error.name(),
    };
    if there {
        return "true";
    }
    "false"
}

// What is returned over these responses, and whether the last request was `HEAD` of this URL.
fn existence(
    alloc: Global,
    given: &[(u16, &str, &[u8])],
    mirror: Option<&str>,
    url: &str,
) -> Result<(&'static str, bool), AllocError> {
    let mut script = registry(alloc, given)?;
    let mut client = client(alloc)?;
    let image = image(alloc, "webassembly.azurecr.io/hello-wasm:v1", mirror)?;
    let found = client.blob_exists(alloc, &mut script, 100, &image, "sha256:deadbeef");
    let word = word_of(&found);
    Ok((word, asked_last(&script, Method::Head, url)))
}

const OWN: &str = "https://webassembly.azurecr.io/v2/hello-wasm/blobs/sha256:deadbeef";

fn says(alloc: Global, status: u16, want: &str) -> bool {
    match existence(alloc, &[(status, "", b"")], None, OWN) {
        Ok((word, asked)) => word == want && asked,
        Err(AllocError) => false,
    }
}

#[test]
fn a_status_states_whether_a_blob_is_there(rt: HostRuntime) {
    let alloc = rt.alloc();
    assert!(rt; says(alloc, 200, "true"));
    assert!(rt; says(alloc, 206, "true"));
    assert!(rt; says(alloc, 404, "false"));
    assert!(rt; says(alloc, 401, "UnauthorizedError"));
    assert!(rt; says(alloc, 304, "ServerError"));
    assert!(rt; says(alloc, 500, "ServerError"));
}

// The request at a mirror names the registry, and a redirect of it is followed.
fn follows(alloc: Global) -> bool {
    let mirror = Some("docker.mirror.io");
    let url =
        "https://docker.mirror.io/v2/hello-wasm/blobs/sha256:deadbeef?ns=webassembly.azurecr.io";
    let moved = [
        (307, "https://other.example/b", b"".as_slice()),
        (404, "", b"".as_slice()),
    ];
    let first = existence(alloc, &[(200, "", b"")], mirror, url);
    let second = existence(alloc, &moved, mirror, "https://other.example/b");
    first == Ok(("true", true)) && second == Ok(("false", true))
}

#[test]
fn a_mirror_is_asked_and_its_redirect_followed(rt: HostRuntime) {
    assert!(rt; follows(rt.alloc()));
}
