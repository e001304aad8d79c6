// The requests of a push of signatures, and what is read from them.
use crate::layers::{PAYLOAD, is_read, layers, read};
use cosign_client::{Client, ClientBuilder, PushResponse};
use cosign_parts::SignatureLayer;
use json_values::{Annotations, Text};
use oci_transport::{Method, Script};
use recorded_answers::{Asked, is_asked, located};
use sig_registry::{Auth, OciReference, SigstoreError};
use std::alloc::{AllocError, Global};

const TARGET: &str =
    "localhost:5000/app:sha256-517b86da29754bfa57e312c35d4cf22caa38dbce39ecd24684830c1f9777a635.sig";

// One annotation of the manifest.
fn annotations(alloc: Global) -> Result<Annotations, AllocError> {
    let name = Text::new(alloc, "n")?;
    let value = Text::new(alloc, "1")?;
    let mut annotations = Annotations::new(alloc);
    annotations.insert(name, value)?;
    Ok(annotations)
}

fn pushed(
    alloc: Global,
    client: &mut Client,
    script: &mut Script,
    layers: &[SignatureLayer],
) -> Option<Result<PushResponse, SigstoreError>> {
    let target = OciReference::parse(alloc, TARGET).ok()?;
    let auth = Auth::Bearer(Text::new(alloc, "t").ok()?);
    let annotations = annotations(alloc).ok()?;
    Some(client.push_signature(
        alloc,
        script,
        100,
        Some(annotations),
        &auth,
        &target,
        layers,
    ))
}

// Whether these are the URLs of the configuration and of the manifest.
fn has_urls(pushed: &Result<PushResponse, SigstoreError>) -> bool {
    match pushed {
        Ok(pushed) => {
            pushed.config_url.as_str() == "https://localhost:5000/c"
                && pushed.manifest_url.as_str() == "https://localhost:5000/m"
        }
        Err(_) => false,
    }
}

// Drops a result in a function without other facts.
fn drop_pushed(_pushed: Result<PushResponse, SigstoreError>) {}

fn pushes(
    alloc: Global,
    client: &mut Client,
    script: &mut Script,
    layers: &[SignatureLayer],
) -> Option<bool> {
    let pushed = pushed(alloc, client, script, layers)?;
    let has_urls = has_urls(&pushed);
    drop_pushed(pushed);
    Some(has_urls)
}

fn pushes_by(alloc: Global, script: &mut Script, layers: &[SignatureLayer]) -> Option<bool> {
    let mut client = ClientBuilder::new().build(alloc).ok()?;
    pushes(alloc, &mut client, script, layers)
}

// The conversation of a push with a token, unless it was refused.
fn conversation(alloc: Global) -> Option<Script> {
    let answers = [
        (202, "/1"),
        (202, "/2"),
        (201, "/b"),
        (202, "/3"),
        (202, "/4"),
        (201, "/c"),
        (201, "/m"),
    ];
    let mut script = located(alloc, &answers).ok()?;
    let layers = layers(alloc)?;
    if !pushes_by(alloc, &mut script, layers.as_slice())? {
        return None;
    }
    Some(script)
}

const UPLOADS: &str = "https://localhost:5000/v2/app/blobs/uploads/";

const PAYLOAD_END: &str =
    "https://localhost:5000/2?digest=sha256%3Abec3f566a399bddd277a387434dcaf295311323236c6b1e2b5dd93ccd6795098";

const CONFIG_END: &str =
    "https://localhost:5000/4?digest=sha256%3A44136fa355b3678a1146ad16f7e8649e94fb4fc21fe77e8310c060f61caaff8a";

const MANIFEST_URL: &str = "https://localhost:5000/v2/app/manifests/\
    sha256-517b86da29754bfa57e312c35d4cf22caa38dbce39ecd24684830c1f9777a635.sig";

const MANIFEST: &str = "{\"annotations\":{\"n\":\"1\"},\"config\":{\
    \"digest\":\"sha256:44136fa355b3678a1146ad16f7e8649e94fb4fc21fe77e8310c060f61caaff8a\",\
    \"mediaType\":\"application/vnd.oci.image.config.v1+json\",\"size\":2},\"layers\":[{\
    \"annotations\":{\"dev.cosignproject.cosign/signature\":\"c2lnMQ==\"},\
    \"digest\":\"sha256:bec3f566a399bddd277a387434dcaf295311323236c6b1e2b5dd93ccd6795098\",\
    \"mediaType\":\"application/vnd.dev.cosign.simplesigning.v1+json\",\"size\":234}],\
    \"mediaType\":\"application/vnd.oci.image.manifest.v1+json\",\"schemaVersion\":2}";

// Whether the request at an index is this one, with the token.
fn asks(script: &Script, place: usize, method: Method, url: &str, body: &str) -> bool {
    let asked = Asked {
        method,
        url,
        body,
        header: "authorization",
        value: "Bearer t",
    };
    is_asked(script, place, &asked)
}

// The payload, the configuration and the manifest of them, each as it is sent.
fn in_order(script: &Script) -> bool {
    let content = "https://localhost:5000/1";
    let config = "https://localhost:5000/3";
    asks(script, 0, Method::Post, UPLOADS, "")
        && asks(script, 1, Method::Patch, content, PAYLOAD)
        && asks(script, 2, Method::Put, PAYLOAD_END, "")
        && asks(script, 3, Method::Post, UPLOADS, "")
        && asks(script, 4, Method::Patch, config, "{}")
        && asks(script, 5, Method::Put, CONFIG_END, "")
        && asks(script, 6, Method::Put, MANIFEST_URL, MANIFEST)
        && script.conversation().as_slice().len() == 7
}

fn sends(alloc: Global) -> Option<bool> {
    let script = conversation(alloc)?;
    Some(in_order(&script))
}

#[test]
fn a_signature_is_its_payload_a_configuration_and_their_manifest(rt: HostRuntime) {
    assert!(rt; sends(rt.alloc()) == Some(true));
}

// Whether the bytes that were sent for the payload are read as its layer.
fn is_read_back(alloc: Global, script: &Script) -> Option<bool> {
    let sent = script.conversation().as_slice().get(1)?;
    let layer = read(alloc, sent.request.body.as_slice())?;
    Some(is_read(&layer))
}

fn reads_back(alloc: Global) -> Option<bool> {
    let script = conversation(alloc)?;
    is_read_back(alloc, &script)
}

#[test]
fn a_pushed_signature_is_read_back(rt: HostRuntime) {
    assert!(rt; reads_back(rt.alloc()) == Some(true));
}
