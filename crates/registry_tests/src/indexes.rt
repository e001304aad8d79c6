// Calls on an index.
use json_values::Text;
use oci_auth::RegistryAuth;
use oci_engine::{Client, ClientConfig, PlatformResolver};
use oci_names::{Arch, Os, Reference};
use recorded_answers::{CONFIG_DIGEST, MANIFEST, MANIFEST_DIGEST, script};
use std::alloc::Global;

// Entries for `arm64` and `amd64`; the second one is the recorded manifest.
const INDEX: &str =
    "{\"schemaVersion\":2,\"mediaType\":\"application/vnd.oci.image.index.v1+json\",\
        \"manifests\":[{\"mediaType\":\"application/vnd.oci.image.manifest.v1+json\",\
        \"digest\":\"sha256:b94d27b9934d3e08a52e52d7da7dabfac484efe37a5380ee9088f7ace2efcde9\",\"size\":1,\
        \"platform\":{\"architecture\":\"arm64\",\"os\":\"linux\"}},\
        {\"mediaType\":\"application/vnd.oci.image.manifest.v1+json\",\
        \"digest\":\"sha256:517b86da29754bfa57e312c35d4cf22caa38dbce39ecd24684830c1f9777a635\",\"size\":1,\
        \"platform\":{\"architecture\":\"amd64\",\"os\":\"linux\"}}]}";

const INDEX_DIGEST: &str =
    "sha256:a6d1c218804f4be0005f5cd9dd8fde970ad81ba2d25607eba577c9dde904f39e";

// Its only entry is the index before.
const OUTER_INDEX: &str =
    "{\"schemaVersion\":2,\"mediaType\":\"application/vnd.oci.image.index.v1+json\",\
        \"manifests\":[{\"mediaType\":\"application/vnd.oci.image.index.v1+json\",\
        \"digest\":\"sha256:a6d1c218804f4be0005f5cd9dd8fde970ad81ba2d25607eba577c9dde904f39e\",\"size\":1}]}";

// A client, and the image that it requests.
fn begun(alloc: Global, resolver: Option<PlatformResolver>) -> Option<(Client, Reference)> {
    let mut config = ClientConfig::default(alloc).ok()?;
    config.platform_resolver = resolver;
    let image = Reference::parse(alloc, "localhost:5000/app:v1").ok()?;
    Some((Client::new(alloc, config), image))
}

fn linux_amd64(alloc: Global) -> Option<PlatformResolver> {
    let os = Os::new(Text::new(alloc, Os::LINUX).ok()?);
    let architecture = Arch::new(Text::new(alloc, Arch::AMD64).ok()?);
    Some(PlatformResolver::first_match(os, architecture))
}

fn fixed(alloc: Global, digest: &str) -> Option<PlatformResolver> {
    let digest = Text::new(alloc, digest).ok()?;
    Some(PlatformResolver::fixed(digest))
}

// The digest of the manifest that is found, or the name of the error.
fn outcome(
    alloc: Global,
    resolver: Option<PlatformResolver>,
    given: &[(&str, &str)],
) -> Option<Text> {
    let mut script = script(alloc, given).ok()?;
    let (mut client, image) = begun(alloc, resolver)?;
    match client.pull_image_manifest(alloc, &mut script, 100, &image, &RegistryAuth::Anonymous) {
        Ok(found) => {
            let (_manifest, digest) = found;
            Some(digest)
        }
        Err(error) => Text::new(alloc, error.name()).ok(),
    }
}

fn comes_to(
    alloc: Global,
    resolver: Option<PlatformResolver>,
    given: &[(&str, &str)],
    wanted: &str,
) -> bool {
    match outcome(alloc, resolver, given) {
        Some(text) => text.as_str() == wanted,
        None => false,
    }
}

#[test]
fn an_index_leads_to_the_first_entry_of_the_platform(rt: HostRuntime) {
    let alloc = rt.alloc();
    let given = [("", ""), ("", INDEX), ("", ""), (MANIFEST_DIGEST, MANIFEST)];
    assert!(rt; comes_to(alloc, linux_amd64(alloc), &given, MANIFEST_DIGEST));
}

#[test]
fn an_index_is_refused_where_no_entry_is_meant(rt: HostRuntime) {
    let alloc = rt.alloc();
    let given = [("", ""), ("", INDEX)];
    assert!(rt;
        comes_to(
            alloc,
            None,
            &given,
            "ImageIndexParsingNoPlatformResolverError"
        )
    );
    let resolver = fixed(alloc, CONFIG_DIGEST);
    assert!(rt; comes_to(alloc, resolver, &given, "ImageManifestNotFoundError"));
}

#[test]
fn an_index_behind_an_index_is_refused(rt: HostRuntime) {
    let alloc = rt.alloc();
    let given = [("", ""), ("", OUTER_INDEX), ("", ""), ("", INDEX)];
    let resolver = fixed(alloc, INDEX_DIGEST);
    assert!(rt; comes_to(alloc, resolver, &given, "ImageManifestNotFoundError"));
}

fn config(alloc: Global, given: &[(&str, &str)]) -> Option<Text> {
    let mut script = script(alloc, given).ok()?;
    let (mut client, image) = begun(alloc, linux_amd64(alloc))?;
    let auth = RegistryAuth::Anonymous;
    let found = client
        .pull_manifest_and_config(alloc, &mut script, 100, &image, &auth)
        .ok()?;
    let (_manifest, _digest, config) = found;
    Some(config)
}

fn is_config(alloc: Global) -> bool {
    let given = [
        ("", ""),
        ("", INDEX),
        ("", ""),
        (MANIFEST_DIGEST, MANIFEST),
        ("", ""),
        (CONFIG_DIGEST, "{}"),
    ];
    match config(alloc, &given) {
        Some(text) => text.as_str() == "{}",
        None => false,
    }
}

#[test]
fn a_manifest_comes_with_its_configuration_as_text(rt: HostRuntime) {
    assert!(rt; is_config(rt.alloc()));
}

// The digest of the index that led to the image.
fn index_digest(alloc: Global, given: &[(&str, &str)]) -> Option<Text> {
    let mut script = script(alloc, given).ok()?;
    let (mut client, image) = begun(alloc, linux_amd64(alloc))?;
    let auth = RegistryAuth::Anonymous;
    let found = client
        .pull_image_manifest_and_list_digest(alloc, &mut script, 100, &image, &auth)
        .ok()?;
    let (_manifest, _digest, index) = found;
    index
}

// The same beside the configuration.
fn index_digest_with_configuration(alloc: Global, given: &[(&str, &str)]) -> Option<Text> {
    let mut script = script(alloc, given).ok()?;
    let (mut client, image) = begun(alloc, linux_amd64(alloc))?;
    let auth = RegistryAuth::Anonymous;
    let found = client
        .pull_manifest_and_config_and_list_digest(alloc, &mut script, 100, &image, &auth)
        .ok()?;
    let (_manifest, _digest, _config, index) = found;
    index
}

fn is_the_index(found: Option<Text>) -> bool {
    match found {
        Some(digest) => digest.as_str() == INDEX_DIGEST,
        None => false,
    }
}

#[test]
fn the_digest_of_the_index_is_told(rt: HostRuntime) {
    let given = [
        ("", ""),
        (INDEX_DIGEST, INDEX),
        ("", ""),
        (MANIFEST_DIGEST, MANIFEST),
        ("", ""),
        (CONFIG_DIGEST, "{}"),
    ];
    assert!(rt; is_the_index(index_digest(rt.alloc(), given.split_at(4).0)));
    assert!(rt; is_the_index(index_digest_with_configuration(rt.alloc(), given.as_slice())));
}
