// Pushes over a recorded registry.
ghost use Rattle.std.specs.Prelude.{◌≡◌, IfOk};
ghost use Rattle.oci_transport.specs.Pieces.{NoneEmpty};

use json_values::{Blob, Copied, List, Text};
use oci_auth::RegistryAuth;
use oci_engine::{Client, ClientConfig, ClientProtocol, MemoryPieces};
use oci_names::Reference;
use oci_transport::{Headers, Method, Recorded, Script};
use recorded_answers::LAYER_DIGEST;
use std::alloc::{AllocError, Global};

// A registry that responds with these statuses and locations, in order, and no body.
fn registry(alloc: Global, given: &[(u16, &str)]) -> Result<Script, AllocError> {
    let mut answers = List::new(alloc);
    for (status, location) in given {
        let mut headers = Headers::new(alloc);
        if !location.is_empty() {
            let Ok(()) = headers.add("location", location.as_bytes()) else {
                return Err(AllocError);
            };
        }
        answers.push(Recorded {
            fails: false,
            status: *status,
            headers,
            pieces: List::new(alloc),
            fails_before: None,
        })?;
    }
    Ok(Script::new(alloc, answers))
}

fn client(alloc: Global, whole: bool) -> Result<Client, AllocError> {
    let mut config = ClientConfig::default(alloc)?;
    config.protocol = ClientProtocol::Http;
    config.use_monolithic_push = whole;
    Ok(Client::new(alloc, config))
}

fn image(alloc: Global) -> Result<Reference, AllocError> {
    match Reference::parse(alloc, "localhost:5000/app:v1") {
        Ok(image) => Ok(image),
        Err(_) => Err(AllocError),
    }
}

// Pieces without the empty ones.
fn pieces(alloc: Global, given: &[&str]) -> Result<List<Blob>, AllocError>
    ensures { IfOk result (λ pieces. NoneEmpty pieces) }
{
    let mut pieces = List::new(alloc);
    for piece in given {
        if !piece.is_empty() {
            pieces.push(Blob::new(alloc, piece.as_bytes())?)?;
        }
    }
    Ok(pieces)
}

fn source(alloc: Global, given: &[&str]) -> Result<MemoryPieces, AllocError> {
    let pieces = pieces(alloc, given)?;
    Ok(MemoryPieces::new(alloc, pieces, List::new(alloc)))
}

// Whether the request at an index is this one, with this body and this value of a header.
fn asked(
    script: &Script,
    place: usize,
    method: Method,
    url: &str,
    body: &str,
    header: (&str, &str),
) -> bool {
    let Some(exchange) = script.conversation().as_slice().get(place) else {
        return false;
    };
    let request = &exchange.request;
    let value = request.headers.first(header.0).unwrap_or(b"");
    request.method == method
        && request.url.as_str() == url
        && request.body.as_slice() == body.as_bytes()
        && value == header.1.as_bytes()
}

const UPLOADS: &str = "http://localhost:5000/v2/app/blobs/uploads/";

fn in_chunks(alloc: Global) -> Result<bool, AllocError> {
    let answers = [
        (202, "/up/1"),
        (202, "http://other.example/up?x=1"),
        (202, "/up/3"),
        (201, "/v2/app/blobs/b"),
    ];
    let mut script = registry(alloc, &answers)?;
    let mut client = client(alloc, false)?;
    let mut pieces = source(alloc, &["hello", " world"])?;
    let image = image(alloc)?;
    let pushed = client.push_blob_stream_chunked(alloc, &mut script, 100, &image, &mut pieces);
    let Ok(pushed) = pushed else {
        return Ok(false);
    };
    let named =
        "http://localhost:5000/up/3?digest=sha256%3Ab94d27b9934d3e08a52e52d7da7dabfac484efe37a5380ee9088f7ace2efcde9";
    Ok(
        pushed.size == 11
            && pushed.blob_url.as_str() == "http://localhost:5000/v2/app/blobs/b"
            && asked(
                &script,
                0,
                Method::Post,
                UPLOADS,
                "",
                ("content-length", "0"),
            )
            && asked(
                &script,
                1,
                Method::Patch,
                "http://localhost:5000/up/1",
                "hello",
                ("content-range", "0-4"),
            )
            && asked(
                &script,
                2,
                Method::Patch,
                "http://other.example/up?x=1",
                " world",
                ("content-range", "5-10"),
            )
            && asked(&script, 3, Method::Put, named, "", ("content-length", "0")),
    )
}

#[test]
fn a_stream_goes_in_chunks_to_the_locations_that_are_answered(rt: HostRuntime) {
    assert!(rt; in_chunks(rt.alloc()).unwrap_or(false));
}

// The result of pushing a stream of this size by one request, with how many requests were sent.
fn whole(alloc: Global, size: Option<u64>) -> Result<(Text, usize), AllocError> {
    let mut script = registry(alloc, &[(202, "/up/1"), (201, "/b")])?;
    let mut client = client(alloc, true)?;
    let mut pieces = source(alloc, &["hello", " world"])?;
    let image = image(alloc)?;
    let pushed = client.push_blob_stream(
        alloc,
        &mut script,
        100,
        &image,
        &mut pieces,
        LAYER_DIGEST,
        size,
    );
    let requests = script.conversation().as_slice().len();
    let said = match pushed {
        Ok(url) => url,
        Err(error) => Text::new(alloc, error.name())?,
    };
    Ok((said, requests))
}

fn whole_says(alloc: Global, size: Option<u64>, want: &str, requests: usize) -> bool {
    match whole(alloc, size) {
        Ok((said, made)) => said.as_str() == want && made == requests,
        Err(AllocError) => false,
    }
}

#[test]
fn a_stream_goes_by_one_request_with_its_count_of_bytes(rt: HostRuntime) {
    let alloc = rt.alloc();
    assert!(rt; whole_says(alloc, Some(11), "http://localhost:5000/b", 2));
    assert!(rt; whole_says(alloc, Some(12), "GenericError", 1));
    assert!(rt; whole_says(alloc, None, "GenericError", 0));
}

// The result of pushing bytes over these responses.
fn bytes_say(
    alloc: Global,
    whole: bool,
    answers: &[(u16, &str)],
    content: &str,
    want: &str,
) -> bool {
    let (Ok(mut script), Ok(mut client), Ok(image)) = (
        registry(alloc, answers),
        client(alloc, whole),
        image(alloc),
    ) else {
        return false;
    };
    let content = content.as_bytes();
    match client.push_blob(alloc, &mut script, 100, &image, content, LAYER_DIGEST) {
        Ok(url) => url.as_str() == want,
        Err(error) => error.name() == want,
    }
}

#[test]
fn bytes_go_in_chunks_and_whole_where_another_success_is_answered(rt: HostRuntime) {
    let alloc = rt.alloc();
    let url = "http://localhost:5000/b";
    assert!(rt;
        bytes_say(
            alloc,
            false,
            &[(202, "/1"), (202, "/2"), (201, "/b")],
            "hello",
            url
        )
    );
    assert!(rt;
        bytes_say(
            alloc,
            false,
            &[(202, "/1"), (200, "/2"), (202, "/3"), (201, "/b")],
            "hello",
            url
        )
    );
    assert!(rt; bytes_say(alloc, true, &[(202, "/1"), (201, "/b")], "hello", url));
    assert!(rt; bytes_say(alloc, true, &[(202, "/1")], "", "PushNoDataError"));
}

#[test]
fn a_push_is_refused_without_a_location_and_by_a_status(rt: HostRuntime) {
    let alloc = rt.alloc();
    assert!(rt;
        bytes_say(
            alloc,
            false,
            &[(202, "")],
            "hello",
            "RegistryNoLocationError"
        )
    );
    assert!(rt; bytes_say(alloc, false, &[(401, "/1")], "hello", "ServerError"));
    assert!(rt;
        bytes_say(
            alloc,
            false,
            &[(202, "/1"), (202, "ftp://a")],
            "hello",
            "UrlParseError"
        )
    );
}

fn has_range(script: &Script, place: usize, want: &str) -> bool {
    match script.conversation().as_slice().get(place) {
        Some(exchange) => exchange.request.headers.first("content-range") == Some(want.as_bytes()),
        None => false,
    }
}

// Whether one byte more than a chunk holds is sent in two chunks.
fn two_chunks(alloc: Global) -> Result<bool, AllocError> {
    let part = [7u8; 65536];
    let mut content = Blob::empty(alloc);
    for _ in 0..64 {
        content.append(&part)?;
    }
    content.append(&[7])?;
    let mut script = registry(alloc, &[(202, "/1"), (202, "/2"), (202, "/3"), (201, "/b")])?;
    let mut client = client(alloc, false)?;
    let image = image(alloc)?;
    let bytes = content.as_slice();
    let pushed = client.push_blob(alloc, &mut script, 100, &image, bytes, LAYER_DIGEST);
    Ok(
        pushed.is_ok()
            && has_range(&script, 1, "0-4194303")
            && has_range(&script, 2, "4194304-4194304"),
    )
}

#[test]
fn a_chunk_has_four_mebibytes_at_most(rt: HostRuntime) {
    assert!(rt; two_chunks(rt.alloc()).unwrap_or(false));
}

fn mounts(alloc: Global) -> Result<bool, AllocError> {
    let mut script = registry(alloc, &[(201, "/b")])?;
    let mut client = client(alloc, false)?;
    let image = image(alloc)?;
    let Ok(other) = Reference::parse(alloc, "localhost:5000/other:v1") else {
        return Err(AllocError);
    };
    let mounted = client.mount_blob(alloc, &mut script, 100, &image, &other, "sha256:l");
    let url = "http://localhost:5000/v2/app/blobs/uploads/?mount=sha256%3Al&from=other";
    Ok(mounted.is_ok() && asked(&script, 0, Method::Post, url, "", ("content-length", "0")))
}

#[test]
fn a_blob_of_another_repository_is_asked_for(rt: HostRuntime) {
    assert!(rt; mounts(rt.alloc()).unwrap_or(false));
}

// Whether a token is sent to the registry, and not to another host to which a location leads.
fn token_stays(alloc: Global) -> Result<bool, AllocError> {
    let answers = [(202, "http://other.example/1"), (202, "/2"), (201, "/b")];
    let mut script = registry(alloc, &answers)?;
    let mut client = client(alloc, false)?;
    let image = image(alloc)?;
    let token = Text::new(alloc, "t")?;
    client.store_auth_if_needed("localhost:5000", &RegistryAuth::Bearer(token))?;
    let pushed = client.push_blob(alloc, &mut script, 100, &image, b"hello", LAYER_DIGEST);
    let shown = ("authorization", "Bearer t");
    let hidden = ("authorization", "");
    Ok(
        pushed.is_ok()
            && asked(&script, 0, Method::Post, UPLOADS, "", shown)
            && asked(
                &script,
                1,
                Method::Patch,
                "http://other.example/1",
                "hello",
                hidden,
            ),
    )
}

#[test]
fn a_token_is_not_shown_at_a_location_on_another_host(rt: HostRuntime) {
    assert!(rt; token_stays(rt.alloc()).unwrap_or(false));
}
