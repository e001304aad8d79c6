// Each call of the engine's client.
ghost use Rattle.std.specs.Prelude.{◌≡◌};

use byte_streams::{MemorySink, PlainSink};
use json_values::{Blob, List, Text};
use oci_auth::{RegistryAuth, RegistryOperation};
use oci_engine::{
    AsLayerDescriptor, Client, ClientConfig, ImageData, LayerDescriptor, OciDistributionError,
};
use oci_manifests::OciManifest;
use oci_names::Reference;
use oci_transport::Script;
use recorded_answers::{
    CONFIG_DIGEST, LAYER_DIGEST, LAYER_TYPE, MANIFEST, MANIFEST_DIGEST, script,
};
use std::alloc::{AllocError, Global};

// A client, and the image that it requests.
fn begun(alloc: Global) -> Option<(Client, Reference)> {
    let config = ClientConfig::default(alloc).ok()?;
    let image = Reference::parse(alloc, "localhost:5000/app:v1").ok()?;
    Some((Client::new(alloc, config), image))
}

fn digest(alloc: Global, script: &mut Script) -> Option<Text> {
    let (mut client, image) = begun(alloc)?;
    client
        .fetch_manifest_digest(alloc, script, 100, &image, &RegistryAuth::Anonymous)
        .ok()
}

fn is_digest(alloc: Global) -> bool {
    let Ok(mut script) = script(alloc, &[("", ""), (MANIFEST_DIGEST, "")]) else {
        return false;
    };
    match digest(alloc, &mut script) {
        Some(text) => text.as_str() == MANIFEST_DIGEST,
        None => false,
    }
}

#[test]
fn the_digest_is_the_one_that_the_header_names(rt: HostRuntime) {
    assert!(rt; is_digest(rt.alloc()));
}

fn raw_digest(alloc: Global, script: &mut Script) -> Option<Text> {
    let (mut client, image) = begun(alloc)?;
    let found = client
        .pull_manifest_raw(alloc, script, 100, &image, &RegistryAuth::Anonymous, &[])
        .ok()?;
    let (_bytes, digest) = found;
    Some(digest)
}

fn is_raw(alloc: Global, named: &str) -> bool {
    let Ok(mut script) = script(alloc, &[("", ""), (named, MANIFEST)]) else {
        return false;
    };
    match raw_digest(alloc, &mut script) {
        Some(text) => text.as_str() == MANIFEST_DIGEST,
        None => false,
    }
}

// How many layers the document lists, if it is a manifest.
fn listed(found: &Result<(OciManifest, Text), OciDistributionError>) -> Option<usize> {
    match found {
        Ok(found) => match &found.0 {
            OciManifest::Image(manifest) => Some(manifest.layers.as_slice().len()),
            OciManifest::ImageIndex(_) => None,
        },
        Err(_) => None,
    }
}

// Drops what was found if nothing is known of it.
fn drop_document(_found: Result<(OciManifest, Text), OciDistributionError>) {}

fn layers_listed(alloc: Global, script: &mut Script) -> Option<usize> {
    let (mut client, image) = begun(alloc)?;
    let found = client.pull_manifest(alloc, script, 100, &image, &RegistryAuth::Anonymous);
    let count = listed(&found);
    drop_document(found);
    count
}

fn is_document(alloc: Global) -> bool {
    match script(alloc, &[("", ""), (MANIFEST_DIGEST, MANIFEST)]) {
        Ok(mut script) => layers_listed(alloc, &mut script) == Some(1),
        Err(_) => false,
    }
}

#[test]
fn a_manifest_comes_with_its_digest(rt: HostRuntime) {
    assert!(rt; is_raw(rt.alloc(), MANIFEST_DIGEST) && is_raw(rt.alloc(), ""));
    assert!(rt; !is_raw(rt.alloc(), LAYER_DIGEST));
    assert!(rt; is_document(rt.alloc()));
}

fn accepted(alloc: Global) -> Result<List<Text>, AllocError> {
    let mut accepted = List::new(alloc);
    accepted.push(Text::new(alloc, LAYER_TYPE)?)?;
    Ok(accepted)
}

// How many layers a pulled image has.
fn pulled(found: &Result<ImageData, OciDistributionError>) -> Option<usize> {
    match found {
        Ok(found) => Some(found.layers.as_slice().len()),
        Err(_) => None,
    }
}

fn drop_image(_found: Result<ImageData, OciDistributionError>) {}

fn layers_pulled(alloc: Global, script: &mut Script) -> Option<usize> {
    let accepted = accepted(alloc).ok()?;
    let (mut client, image) = begun(alloc)?;
    let auth = RegistryAuth::Anonymous;
    let found = client.pull(alloc, script, 100, &image, &auth, accepted.as_slice());
    let count = pulled(&found);
    drop_image(found);
    count
}

fn is_image(alloc: Global) -> bool {
    let given = [
        ("", ""),
        (MANIFEST_DIGEST, MANIFEST),
        ("", ""),
        (CONFIG_DIGEST, "{}"),
        ("", ""),
        (LAYER_DIGEST, "hello world"),
    ];
    match script(alloc, &given) {
        Ok(mut script) => layers_pulled(alloc, &mut script) == Some(1),
        Err(_) => false,
    }
}

#[test]
fn an_image_comes_with_its_configuration_and_layers(rt: HostRuntime) {
    assert!(rt; is_image(rt.alloc()));
}

fn is_poured(alloc: Global, script: &mut Script) -> Option<bool> {
    let (mut client, image) = begun(alloc)?;
    let mut sink = PlainSink::new(alloc);
    client
        .pull_blob(alloc, script, 100, &image, &LAYER_DIGEST, &mut sink)
        .ok()?;
    Some(sink.into_blob().as_slice() == b"hello world".as_slice())
}

// A client that stores no credentials requests no token.
fn is_blob(alloc: Global, body: &str) -> bool {
    match script(alloc, &[(LAYER_DIGEST, body)]) {
        Ok(mut script) => is_poured(alloc, &mut script) == Some(true),
        Err(_) => false,
    }
}

// The name of the refusal of a blob that is written to a sink that fails at once.
fn unpoured(alloc: Global, script: &mut Script) -> Option<&'static str> {
    let (mut client, image) = begun(alloc)?;
    let mut failing = List::new(alloc);
    failing.push(0u64).ok()?;
    let mut sink = MemorySink::new(alloc, failing);
    let refusal = client
        .pull_blob(alloc, script, 100, &image, &LAYER_DIGEST, &mut sink)
        .err()?;
    Some(refusal.name())
}

fn sink_fails(alloc: Global) -> bool {
    match script(alloc, &[(LAYER_DIGEST, "hello world")]) {
        Ok(mut script) => unpoured(alloc, &mut script) == Some("SinkFault"),
        Err(_) => false,
    }
}

#[test]
fn a_blob_goes_to_its_sink(rt: HostRuntime) {
    assert!(rt; is_blob(rt.alloc(), "hello world") && !is_blob(rt.alloc(), "hello there"));
    assert!(rt; sink_fails(rt.alloc()));
}

// Whether the expected blob was received.
fn is_meant(found: &Result<Blob, OciDistributionError>) -> bool {
    match found {
        Ok(blob) => blob.as_slice() == b"hello world".as_slice(),
        Err(_) => false,
    }
}

fn drop_blob(_found: Result<Blob, OciDistributionError>) {}

fn is_pulled<L: AsLayerDescriptor>(alloc: Global, layer: &L) -> Option<bool> {
    let mut script = script(alloc, &[(LAYER_DIGEST, "hello world")]).ok()?;
    let (mut client, image) = begun(alloc)?;
    let found = client.pulled_blob(alloc, &mut script, 100, &image, layer);
    let meant = is_meant(&found);
    drop_blob(found);
    Some(meant)
}

#[test]
fn a_blob_is_pulled_by_its_digest_or_a_descriptor(rt: HostRuntime) {
    let layer = LayerDescriptor {
        digest: LAYER_DIGEST,
        urls: None,
    };
    assert!(rt; is_pulled(rt.alloc(), &LAYER_DIGEST) == Some(true));
    assert!(rt; is_pulled(rt.alloc(), &layer) == Some(true));
    assert!(rt; is_pulled(rt.alloc(), &&layer) == Some(true));
}

// Whether the registry requires no token.
fn is_open(alloc: Global, script: &mut Script) -> Option<bool> {
    let (mut client, image) = begun(alloc)?;
    let auth = RegistryAuth::Anonymous;
    let token = client
        .auth(alloc, script, 100, &image, &auth, RegistryOperation::Pull)
        .ok()?;
    Some(token.is_none())
}

fn no_token(alloc: Global) -> bool {
    match script(alloc, &[("", "")]) {
        Ok(mut script) => is_open(alloc, &mut script) == Some(true),
        Err(_) => false,
    }
}

#[test]
fn a_registry_without_a_challenge_asks_for_no_token(rt: HostRuntime) {
    assert!(rt; no_token(rt.alloc()));
}

// Writing to a part of a client leaves the rest unchanged.
fn keep_tokens_for(client: &mut Client, seconds: u64)
    ensures settings { client.new.settings ≡ client.old.settings }
    ensures kept { client.new.tokens.default_expiration_secs ≡ seconds }
{
    client.tokens.default_expiration_secs = seconds;
}

fn keeps_tokens_for(alloc: Global, seconds: u64) -> bool {
    let Ok(mut client) = Client::default(alloc) else {
        return false;
    };
    keep_tokens_for(&mut client, seconds);
    client.tokens.default_expiration_secs == seconds
}

#[test]
fn tokens_are_a_part_of_a_client(rt: HostRuntime) {
    assert!(rt; keeps_tokens_for(rt.alloc(), 5));
}
