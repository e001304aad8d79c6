// The referrers of a manifest.
ghost use Rattle.std.specs.Prelude.{IfOk};
ghost use Rattle.oci_transport.specs.Pieces.{NoneEmpty};

use json_values::{Blob, List, Text};
use oci_engine::{Client, ClientConfig, OciDistributionError};
use oci_manifests::OciImageIndex;
use oci_names::Reference;
use oci_transport::{Headers, Recorded, Script};
use recorded_answers::{MANIFEST, MANIFEST_DIGEST};
use std::alloc::{AllocError, Global};

// Two entries, of which one has an artifact type.
const INDEX: &str =
    "{\"schemaVersion\":2,\"manifests\":[{\"mediaType\":\"application/vnd.oci.image.manifest.v1+json\",\
        \"digest\":\"sha256:b94d27b9934d3e08a52e52d7da7dabfac484efe37a5380ee9088f7ace2efcde9\",\"size\":1,\
        \"artifactType\":\"text/a\"},{\"mediaType\":\"application/vnd.oci.image.manifest.v1+json\",\
        \"digest\":\"sha256:44136fa355b3678a1146ad16f7e8649e94fb4fc21fe77e8310c060f61caaff8a\",\"size\":1}]}";

fn pieces(alloc: Global, body: &str) -> Result<List<Blob>, AllocError>
    ensures { IfOk result (λ pieces. NoneEmpty pieces) }
{
    let mut pieces = List::new(alloc);
    if !body.is_empty() {
        pieces.push(Blob::new(alloc, body.as_bytes())?)?;
    }
    Ok(pieces)
}

fn answers(alloc: Global, given: &[(u16, &str)]) -> Result<Script, AllocError> {
    let mut answers = List::new(alloc);
    for (status, body) in given {
        let pieces = pieces(alloc, *body)?;
        answers.push(Recorded {
            fails: false,
            status: *status,
            headers: Headers::new(alloc),
            pieces,
            fails_before: None,
        })?;
    }
    Ok(Script::new(alloc, answers))
}

// A client, and the manifest whose referrers it requests.
fn begun(alloc: Global) -> Option<(Client, Reference)> {
    let config = ClientConfig::default(alloc).ok()?;
    let registry = Text::new(alloc, "localhost:5000").ok()?;
    let repository = Text::new(alloc, "app").ok()?;
    let digest = Text::new(alloc, MANIFEST_DIGEST).ok()?;
    let image = Reference::with_digest(registry, repository, digest);
    Some((Client::new(alloc, config), image))
}

// How many entries there are, or the name of the refusal.
fn text_of(alloc: Global, found: &Result<OciImageIndex, OciDistributionError>) -> Option<Text> {
    match found {
        Ok(index) => {
            let count = index.manifests.as_slice().len();
            let text = format!(in alloc; "{count}").ok()?;
            Text::new(alloc, text.as_str()).ok()
        }
        Err(error) => Text::new(alloc, error.name()).ok(),
    }
}

// Drops what was found if nothing is known of it.
fn drop_index(_found: Result<OciImageIndex, OciDistributionError>) {}

fn outcome(alloc: Global, kind: Option<&str>, given: &[(u16, &str)]) -> Option<Text> {
    let mut script = answers(alloc, given).ok()?;
    let (mut client, image) = begun(alloc)?;
    let found = client.pull_referrers(alloc, &mut script, 100, &image, kind);
    let text = text_of(alloc, &found);
    drop_index(found);
    text
}

fn comes_to(alloc: Global, kind: Option<&str>, given: &[(u16, &str)], wanted: &str) -> bool {
    match outcome(alloc, kind, given) {
        Some(text) => text.as_str() == wanted,
        None => false,
    }
}

#[test]
fn a_list_is_taken_as_it_is(rt: HostRuntime) {
    let alloc = rt.alloc();
    assert!(rt; comes_to(alloc, Some("text/a"), &[(200, INDEX)], "2"));
    assert!(rt; comes_to(alloc, None, &[(200, MANIFEST)], "ManifestParsingError"));
    assert!(rt; comes_to(alloc, None, &[(200, "{}")], "ManifestParsingError"));
}

#[test]
fn a_tag_stands_for_a_list_that_is_not_there(rt: HostRuntime) {
    let alloc = rt.alloc();
    assert!(rt; comes_to(alloc, None, &[(404, ""), (200, INDEX)], "2"));
    assert!(rt; comes_to(alloc, Some("text/a"), &[(404, ""), (200, INDEX)], "1"));
    assert!(rt; comes_to(alloc, None, &[(404, ""), (404, "")], "0"));
}

#[test]
fn the_tag_may_be_no_manifest(rt: HostRuntime) {
    let alloc = rt.alloc();
    assert!(rt;
        comes_to(
            alloc,
            None,
            &[(404, ""), (200, MANIFEST)],
            "SpecViolationError"
        )
    );
    assert!(rt; comes_to(alloc, None, &[(404, ""), (500, "")], "ServerError"));
}
