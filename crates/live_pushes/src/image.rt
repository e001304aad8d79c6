// The image that is pushed: two layers, a configuration, and two documents that are pushed verbatim.
use json_tables::read_plain_json;
use json_values::{Blob, List};
use oci_manifests::blob::Config;
use oci_manifests::{ImageLayer, OciImageIndex};
use std::alloc::{AllocError, Global};

const FIRST_LAYER: &str = "the first layer\n";

const SECOND_LAYER: &str = "the second layer\n";

const CONFIG: &str =
    "{\"architecture\":\"amd64\",\"os\":\"linux\",\"config\":{},\"rootfs\":{\"type\":\"layers\",\"diff_ids\":[\
    \"sha256:4e13572ad3ca4f7f6c1fb7e88bcdea31382f7f060394846ccffb823a0b291536\",\
    \"sha256:edc7422155c7fc1d0d3ab01c9ef0a263e315f33a5f2daedaf23fa56a5d46fb91\"]}}";

/// The digests of the layers and of the configuration.
pub const BLOBS: &[&str] = &[
    "sha256:4e13572ad3ca4f7f6c1fb7e88bcdea31382f7f060394846ccffb823a0b291536",
    "sha256:edc7422155c7fc1d0d3ab01c9ef0a263e315f33a5f2daedaf23fa56a5d46fb91",
    "sha256:ec45ba5986b75d0806e066239915dd3450a227179562857572a408217db41891",
];

/// The digest of a blob and of a manifest that no registry has.
pub const ABSENT: &str = "sha256:0000000000000000000000000000000000000000000000000000000000000000";

pub const MANIFEST_TYPE: &str = "application/vnd.oci.image.manifest.v1+json";

/// The image's manifest with spaces and line feeds, which only a push of its bytes keeps.
pub const MANIFEST: &str =
    "{\n  \"schemaVersion\": 2,\n  \"mediaType\": \"application/vnd.oci.image.manifest.v1+json\",\n  \
    \"config\": {\n    \"mediaType\": \"application/vnd.oci.image.config.v1+json\",\n    \
    \"digest\": \"sha256:ec45ba5986b75d0806e066239915dd3450a227179562857572a408217db41891\",\n    \
    \"size\": 237\n  },\n  \
    \"layers\": [\n    {\n      \"mediaType\": \"application/vnd.oci.image.layer.v1.tar\",\n      \
    \"digest\": \"sha256:4e13572ad3ca4f7f6c1fb7e88bcdea31382f7f060394846ccffb823a0b291536\",\n      \
    \"size\": 16\n    },\n    {\n      \
    \"mediaType\": \"application/vnd.oci.image.layer.v1.tar\",\n      \
    \"digest\": \"sha256:edc7422155c7fc1d0d3ab01c9ef0a263e315f33a5f2daedaf23fa56a5d46fb91\",\n      \
    \"size\": 17\n    }\n  ]\n}\n";

/// The digest of these bytes.
pub const MANIFEST_DIGEST: &str =
    "sha256:7138bf8f7050a9cf808bf5c08bc9a905014df62e4a8f8026cdced10da97d8d80";

/// The tag under which signatures of that digest are.
pub const SIGNATURE_TAG: &str =
    "sha256-7138bf8f7050a9cf808bf5c08bc9a905014df62e4a8f8026cdced10da97d8d80.sig";

// An index of one manifest, which no registry has.
const INDEX: &str =
    "{\"schemaVersion\":2,\"mediaType\":\"application/vnd.oci.image.index.v1+json\",\"manifests\":[\
    {\"mediaType\":\"application/vnd.oci.image.manifest.v1+json\",\
    \"digest\":\"sha256:0000000000000000000000000000000000000000000000000000000000000000\",\"size\":2}]}";

/// Returns the layers.
pub fn layers(alloc: Global) -> Result<List<ImageLayer>, AllocError> {
    let first = Blob::new(alloc, FIRST_LAYER.as_bytes())?;
    let second = Blob::new(alloc, SECOND_LAYER.as_bytes())?;
    let mut layers = List::new(alloc);
    layers.push(ImageLayer::oci_v1(alloc, first, None)?)?;
    layers.push(ImageLayer::oci_v1(alloc, second, None)?)?;
    Ok(layers)
}

/// Returns the configuration.
pub fn config(alloc: Global) -> Result<Config, AllocError> {
    let content = Blob::new(alloc, CONFIG.as_bytes())?;
    Config::oci_v1(alloc, content, None)
}

/// Returns the index, or `None` if its text is none.
pub fn index(alloc: Global) -> Result<Option<OciImageIndex>, AllocError> {
    let Some(json) = read_plain_json(alloc, INDEX.as_bytes())? else {
        return Ok(None);
    };
    Ok(OciImageIndex::read(alloc, json.value()).ok())
}
