// Images: their layers, their configuration and their manifest.
use crate::registry::{Asked, client, image, is_asked, registry};
use json_values::{Blob, List, Text};
use oci_auth::RegistryAuth;
use oci_manifests::blob::Config;
use oci_manifests::{ImageLayer, OciImageManifest};
use oci_transport::{Method, Script};
use recorded_answers::json;
use std::alloc::{AllocError, Global};

// A layer with the bytes `hello world`.
fn layers(alloc: Global) -> Result<List<ImageLayer>, AllocError> {
    let content = Blob::new(alloc, b"hello world")?;
    let layer = ImageLayer::oci_v1(alloc, content, None)?;
    let mut layers = List::new(alloc);
    layers.push(layer)?;
    Ok(layers)
}

fn config(alloc: Global) -> Result<Config, AllocError> {
    let content = Blob::new(alloc, b"{}")?;
    Config::oci_v1(alloc, content, None)
}

// Whether the image is pushed with this manifest, if one is given.
fn pushed(
    alloc: Global,
    script: &mut Script,
    auth: &RegistryAuth,
    manifest: Option<OciImageManifest>,
) -> Result<bool, AllocError> {
    let mut client = client(alloc)?;
    let image = image(alloc, "localhost:5000/app:v1", "")?;
    let layers = layers(alloc)?;
    let config = config(alloc)?;
    match client.push(
        alloc,
        script,
        100,
        &image,
        layers.as_slice(),
        config,
        auth,
        manifest,
    ) {
        Ok(pushed) => Ok(
            pushed.config_url.as_str() == "http://localhost:5000/c"
                && pushed.manifest_url.as_str() == "http://localhost:5000/m",
        ),
        Err(_) => Ok(false),
    }
}

const UPLOADS: &str = "http://localhost:5000/v2/app/blobs/uploads/";

const MANIFEST: &str = "http://localhost:5000/v2/app/manifests/v1";

const LAYER_END: &str =
    "http://localhost:5000/2?digest=sha256%3Ab94d27b9934d3e08a52e52d7da7dabfac484efe37a5380ee9088f7ace2efcde9";

const CONFIG_END: &str =
    "http://localhost:5000/4?digest=sha256%3A44136fa355b3678a1146ad16f7e8649e94fb4fc21fe77e8310c060f61caaff8a";

fn asks(script: &Script, place: usize, method: Method, url: &str, body: &str, range: &str) -> bool {
    let asked = Asked {
        method,
        url,
        body,
        header: "content-range",
        value: range,
    };
    is_asked(script, place, &asked)
}

// Whether a manifest was sent to this URL at this index.
fn sends_manifest(script: &Script, place: usize, url: &str) -> bool {
    let Some(exchange) = script.conversation().as_slice().get(place) else {
        return false;
    };
    let request = &exchange.request;
    request.method == Method::Put
        && request.url.as_str() == url
        && !request.body.as_slice().is_empty()
}

// Whether this request for a token was sent at each even place.
fn asks_for_tokens(script: &Script) -> bool {
    let base = "http://localhost:5000/v2/";
    for place in 0..7 {
        if !asks(script, 2 * place, Method::Get, base, "", "") {
            return false;
        }
    }
    true
}

// The requests of an anonymous push, each after one for a token, and then the manifest.
fn in_order(alloc: Global) -> Result<bool, AllocError> {
    let answers = [
        (200, ""),
        (202, "/1"),
        (200, ""),
        (202, "/2"),
        (200, ""),
        (201, "/b"),
        (200, ""),
        (202, "/3"),
        (200, ""),
        (202, "/4"),
        (200, ""),
        (201, "/c"),
        (200, ""),
        (201, "/m"),
    ];
    let mut script = registry(alloc, &answers)?;
    let pushed = pushed(alloc, &mut script, &RegistryAuth::Anonymous, None)?;
    let layer = "hello world";
    Ok(
        pushed
            && asks_for_tokens(&script)
            && asks(&script, 1, Method::Post, UPLOADS, "", "")
            && asks(
                &script,
                3,
                Method::Patch,
                "http://localhost:5000/1",
                layer,
                "0-10",
            )
            && asks(&script, 5, Method::Put, LAYER_END, "", "")
            && asks(&script, 7, Method::Post, UPLOADS, "", "")
            && asks(
                &script,
                9,
                Method::Patch,
                "http://localhost:5000/3",
                "{}",
                "0-1",
            )
            && asks(&script, 11, Method::Put, CONFIG_END, "", "")
            && sends_manifest(&script, 13, MANIFEST)
            && script.conversation().as_slice().len() == 14,
    )
}

#[test]
fn layers_go_first_then_the_configuration_then_the_manifest(rt: HostRuntime) {
    assert!(rt; in_order(rt.alloc()).unwrap_or(false));
}

const ONE_LAYER: &str =
    "{\"schemaVersion\":2,\"config\":{\"mediaType\":\"c\",\"digest\":\"sha256:c\",\"size\":2},\
    \"layers\":[{\"mediaType\":\"l\",\"digest\":\"sha256:l\",\"size\":11}]}";

const NO_LAYER: &str =
    "{\"schemaVersion\":2,\"config\":{\"mediaType\":\"c\",\"digest\":\"sha256:c\",\"size\":2},\"layers\":[]}";

fn given(alloc: Global, text: &str) -> Option<OciImageManifest> {
    let value = json(alloc, text);
    OciImageManifest::read(alloc, &value).ok()
}

// Whether an image with this manifest is pushed whose layer and configuration end their uploads at these URLs.
fn goes_to(alloc: Global, text: &str, layer: &str, config: &str) -> Result<bool, AllocError> {
    let answers = [
        (202, "/1"),
        (202, "/2"),
        (201, "/b"),
        (202, "/3"),
        (202, "/4"),
        (201, "/c"),
        (201, "/m"),
    ];
    let mut script = registry(alloc, &answers)?;
    let auth = RegistryAuth::Bearer(Text::new(alloc, "t")?);
    let pushed = pushed(alloc, &mut script, &auth, given(alloc, text))?;
    Ok(
        pushed
            && asks(&script, 2, Method::Put, layer, "", "")
            && asks(&script, 5, Method::Put, config, "", ""),
    )
}

#[test]
fn blobs_go_under_the_digests_of_a_manifest_with_as_many_layers(rt: HostRuntime) {
    let alloc = rt.alloc();
    let layer = "http://localhost:5000/2?digest=sha256%3Al";
    let config = "http://localhost:5000/4?digest=sha256%3Ac";
    assert!(rt; goes_to(alloc, ONE_LAYER, layer, config).unwrap_or(false));
    assert!(rt; goes_to(alloc, NO_LAYER, LAYER_END, config).unwrap_or(false));
}

// Whether the manifest's URL is the one by its digest, where the registry names none.
fn is_named_by_digest(alloc: Global) -> Result<bool, AllocError> {
    let answers = [
        (202, "/1"),
        (202, "/2"),
        (201, "/b"),
        (202, "/3"),
        (202, "/4"),
        (201, "/c"),
        (201, ""),
    ];
    let mut script = registry(alloc, &answers)?;
    let mut client = client(alloc)?;
    let image = image(alloc, "localhost:5000/app:v1", "")?;
    let layers = layers(alloc)?;
    let config = config(alloc)?;
    let auth = RegistryAuth::Bearer(Text::new(alloc, "t")?);
    let Ok(pushed) = client.push(
        alloc,
        &mut script,
        100,
        &image,
        layers.as_slice(),
        config,
        &auth,
        None,
    ) else {
        return Ok(false);
    };
    let url = pushed.manifest_url.as_str();
    let named = url.strip_prefix("http://localhost:5000/v2/app/manifests/sha256:");
    Ok(named.is_some() && sends_manifest(&script, 6, MANIFEST))
}

#[test]
fn an_image_without_a_location_is_named_by_its_manifest(rt: HostRuntime) {
    assert!(rt; is_named_by_digest(rt.alloc()).unwrap_or(false));
}
