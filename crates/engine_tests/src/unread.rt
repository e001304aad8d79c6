// Bodies that are not read: of responses that are refused by their heads, and of those that are skipped.
ghost use Rattle.std.specs.Prelude.{IfOk};
ghost use Rattle.oci_transport.specs.Pieces.{NoneEmpty};

use json_values::{Blob, List, Text};
use oci_engine::{Client, ClientConfig, LayerDescriptor};
use oci_names::Reference;
use oci_transport::{HeaderError, Headers, Recorded, Script, Transport};
use recorded_answers::LAYER_DIGEST;
use std::alloc::{AllocError, Global};

const BODY: &str = "hello world";

const UNKNOWN_DIGEST: &str = "md5:5eb63bbbe01eeed093cb22bb8f5acdc3";

// Returns the body in one piece.
fn pieces(alloc: Global) -> Result<List<Blob>, AllocError>
    ensures { IfOk result (λ pieces. NoneEmpty pieces) }
{
    let mut pieces = List::new(alloc);
    let piece = Blob::new(alloc, BODY.as_bytes())?;
    if !piece.as_slice().is_empty() {
        pieces.push(piece)?;
    }
    Ok(pieces)
}

// Returns a response that names this digest; its body fails where it is read, if asked.
fn answer(alloc: Global, status: u16, digest: &str, fails: bool) -> Result<Recorded, HeaderError> {
    let mut headers = Headers::new(alloc);
    headers.add("docker-content-digest", digest.as_bytes())?;
    let pieces = pieces(alloc)?;
    let fails_before = if fails { Some(0) } else { None };
    Ok(Recorded {
        fails: false,
        status,
        headers,
        pieces,
        fails_before,
    })
}

// A registry whose first response has this status, digest and a body that fails, and whose next has the blob.
fn registry(alloc: Global, status: u16, digest: &str) -> Result<Script, HeaderError> {
    let mut answers = List::new(alloc);
    answers.push(answer(alloc, status, digest, true)?)?;
    answers.push(answer(alloc, 200, LAYER_DIGEST, false)?)?;
    Ok(Script::new(alloc, answers))
}

fn begun(alloc: Global) -> Option<(Client, Reference, List<Text>)> {
    let config = ClientConfig::default(alloc).ok()?;
    let image = Reference::parse(alloc, "localhost:5000/app:v1").ok()?;
    let mut urls = List::new(alloc);
    urls.push(Text::new(alloc, "http://mirror.test/blob").ok()?)
        .ok()?;
    Some((Client::new(alloc, config), image, urls))
}

// Returns the name of the refusal of a blob that is pulled, or nothing if it was pulled, and how often the registry
// failed.
fn pulled(alloc: Global, script: &mut Script) -> Option<(&'static str, u64)> {
    let (mut client, image, urls) = begun(alloc)?;
    let layer = LayerDescriptor {
        digest: LAYER_DIGEST,
        urls: Some(&urls),
    };
    let name = match client.pulled_blob(alloc, script, 100, &image, &layer) {
        Ok(_) => "",
        Err(error) => error.name(),
    };
    Some((name, script.faults()))
}

// The same of a blob that is streamed.
fn streamed(alloc: Global, script: &mut Script) -> Option<(&'static str, u64)> {
    let (mut client, image, urls) = begun(alloc)?;
    let layer = LayerDescriptor {
        digest: LAYER_DIGEST,
        urls: Some(&urls),
    };
    let name = match client.pull_blob_stream(alloc, script, 100, &image, &layer) {
        Ok(_) => "",
        Err(error) => error.name(),
    };
    Some((name, script.faults()))
}

fn is_pulled_as(alloc: Global, status: u16, digest: &str, want: &str) -> bool {
    let Ok(mut script) = registry(alloc, status, digest) else {
        return false;
    };
    match pulled(alloc, &mut script) {
        Some((name, faults)) => name == want && faults == 0,
        None => false,
    }
}

fn is_streamed_as(alloc: Global, status: u16, digest: &str, want: &str) -> bool {
    let Ok(mut script) = registry(alloc, status, digest) else {
        return false;
    };
    match streamed(alloc, &mut script) {
        Some((name, faults)) => name == want && faults == 0,
        None => false,
    }
}

#[test]
fn the_body_of_a_refused_head_is_not_read(rt: HostRuntime) {
    assert!(rt; is_pulled_as(rt.alloc(), 200, UNKNOWN_DIGEST, "DigestError"));
    assert!(rt; is_streamed_as(rt.alloc(), 200, UNKNOWN_DIGEST, "DigestError"));
}

#[test]
fn the_body_of_an_error_is_not_read_while_a_url_is_left(rt: HostRuntime) {
    assert!(rt; is_pulled_as(rt.alloc(), 404, LAYER_DIGEST, ""));
    assert!(rt; is_streamed_as(rt.alloc(), 404, LAYER_DIGEST, ""));
}
