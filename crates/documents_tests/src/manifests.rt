// Manifests, indexes, errors, listings and the text of a pushed manifest.
use json_values::{Blob, Copied, Text, ToValue};
use oci_docs::blob::Config;
use oci_docs::{
    CatalogResponse, ImageIndexEntry, ImageLayer, OciDescriptor, OciEnvelope, OciError,
    OciErrorCode, OciImageIndex, OciImageManifest, OciManifest, Platform, ReadError, TagResponse,
    Versioned, is_manifest_media_type, manifest_text,
};
use recorded_answers::{holds, is_written, json};
use std::alloc::{AllocError, Global};

// An image with the configuration `{}` and with `hello world` as its only layer.
const IMAGE: &str =
    "{\"schemaVersion\":2,\"mediaType\":\"application/vnd.oci.image.manifest.v1+json\",\
        \"config\":{\"mediaType\":\"application/vnd.oci.image.config.v1+json\",\
        \"digest\":\"sha256:44136fa355b3678a1146ad16f7e8649e94fb4fc21fe77e8310c060f61caaff8a\",\"size\":2},\
        \"layers\":[{\"mediaType\":\"application/vnd.oci.image.layer.v1.tar\",\
        \"digest\":\"sha256:b94d27b9934d3e08a52e52d7da7dabfac484efe37a5380ee9088f7ace2efcde9\",\"size\":11}]}";

// Its text: without white space, names in order.
const IMAGE_TEXT: &str =
    "{\"config\":{\"digest\":\"sha256:44136fa355b3678a1146ad16f7e8649e94fb4fc21fe77e8310c060f61caaff8a\",\
        \"mediaType\":\"application/vnd.oci.image.config.v1+json\",\"size\":2},\
        \"layers\":[{\"digest\":\"sha256:b94d27b9934d3e08a52e52d7da7dabfac484efe37a5380ee9088f7ace2efcde9\",\
        \"mediaType\":\"application/vnd.oci.image.layer.v1.tar\",\"size\":11}],\
        \"mediaType\":\"application/vnd.oci.image.manifest.v1+json\",\"schemaVersion\":2}";

// The example of the OCI image specification, image-index.md, with its names in order.
const INDEX: &str =
    "{\"annotations\":{\"com.example.key1\":\"value1\",\"com.example.key2\":\"value2\"},\
        \"manifests\":[{\"digest\":\"sha256:e692418e4cbaf90ca69d05a66403747baa33ee08806650b51fab815ad7fc331f\",\
        \"mediaType\":\"application/vnd.oci.image.manifest.v1+json\",\"platform\":{\"architecture\":\"ppc64le\",\
        \"os\":\"linux\"},\"size\":7143},{\"digest\":\"sha256:5b0bcabd1ed22e9fb1310cf6c2dec7cdef19f0ad69efa1f392\
        e94a4333501270\",\"mediaType\":\"application/vnd.oci.image.manifest.v1+json\",\
        \"platform\":{\"architecture\":\"amd64\",\"os\":\"linux\"},\"size\":7682}],\
        \"mediaType\":\"application/vnd.oci.image.index.v1+json\",\"schemaVersion\":2}";

fn is_again(alloc: Global, text: &str, want: &str) -> bool {
    match OciManifest::read(alloc, &json(alloc, text)) {
        Ok(document) => is_written(alloc, &document, want),
        Err(_) => false,
    }
}

#[test]
fn a_document_is_written_as_it_was_read(rt: HostRuntime) {
    assert!(rt; is_again(rt.alloc(), IMAGE, IMAGE_TEXT));
    assert!(rt; is_again(rt.alloc(), INDEX, INDEX));
}

fn is_refused(alloc: Global, text: &str, want: ReadError) -> bool {
    match OciManifest::read(alloc, &json(alloc, text)) {
        Ok(_) => false,
        Err(refusal) => refusal == want,
    }
}

#[test]
fn a_document_has_one_meaning(rt: HostRuntime) {
    let both =
        r#"{"schemaVersion":2,"config":{"mediaType":"a","digest":"b","size":1},"layers":[],"manifests":[]}"#;
    assert!(rt; is_refused(rt.alloc(), both, ReadError::Ambiguous));
    assert!(rt; is_refused(rt.alloc(), r#"{"schemaVersion":2.5}"#, ReadError::Float));
    assert!(rt;
        is_refused(
            rt.alloc(),
            r#"{"schemaVersion":256,"manifests":[]}"#,
            ReadError::Shape
        )
    );
}

fn image_is_read(alloc: Global) -> bool {
    let Ok(manifest) = OciImageManifest::read(alloc, &json(alloc, IMAGE)) else {
        return false;
    };
    let document = OciManifest::from(manifest);
    document.content_type() == "application/vnd.oci.image.manifest.v1+json"
}

fn index_is_read(alloc: Global) -> bool {
    let Ok(index) = OciImageIndex::read(alloc, &json(alloc, INDEX)) else {
        return false;
    };
    let document = OciManifest::from(index);
    document.content_type() == "application/vnd.oci.image.index.v1+json"
}

fn document_is_copied(alloc: Global) -> Result<bool, AllocError> {
    match OciManifest::read(alloc, &json(alloc, r#"{"schemaVersion":2,"manifests":[]}"#)) {
        Ok(document) => Ok(
            document.copy(alloc)?.content_type()
                == "application/vnd.docker.distribution.manifest.list.v2+json",
        ),
        Err(_) => Ok(false),
    }
}

#[test]
fn a_document_has_its_own_media_type_or_the_usual_one(rt: HostRuntime) {
    assert!(rt; image_is_read(rt.alloc()));
    assert!(rt; index_is_read(rt.alloc()));
    assert!(rt; holds(document_is_copied(rt.alloc())));
}

fn descriptor_is_read(alloc: Global, text: &str) -> bool {
    match OciDescriptor::read(alloc, &json(alloc, text)) {
        Ok(descriptor) => is_written(alloc, &descriptor, text),
        Err(_) => false,
    }
}

fn entry_is_read(alloc: Global, text: &str) -> bool {
    match ImageIndexEntry::read(alloc, &json(alloc, text)) {
        Ok(entry) => is_written(alloc, &entry, text),
        Err(_) => false,
    }
}

fn platform_is_read(alloc: Global, text: &str) -> bool {
    match Platform::read(alloc, &json(alloc, text)) {
        Ok(platform) => is_written(alloc, &platform, text),
        Err(_) => false,
    }
}

fn version_is_read(alloc: Global) -> bool {
    match Versioned::read(alloc, &json(alloc, IMAGE)) {
        Ok(versioned) => versioned.schema_version == 2 && versioned.media_type.is_some(),
        Err(_) => false,
    }
}

#[test]
fn parts_of_documents_are_read(rt: HostRuntime) {
    assert!(rt;
        descriptor_is_read(
            rt.alloc(),
            r#"{"annotations":{"a":"b"},"digest":"d","mediaType":"m","size":1,"urls":["u"]}"#
        )
    );
    assert!(rt;
        entry_is_read(
            rt.alloc(),
            r#"{"digest":"d","mediaType":"m","platform":{"architecture":"arm","os":"linux"},"size":1}"#
        )
    );
    assert!(rt;
        platform_is_read(
            rt.alloc(),
            r#"{"architecture":"arm","features":[],"os":"linux","os.features":["a"],"os.version":"1","variant":"v7"}"#
        )
    );
    assert!(rt; version_is_read(rt.alloc()));
}

fn image_is_copied(alloc: Global) -> Result<bool, AllocError> {
    match OciImageManifest::read(alloc, &json(alloc, IMAGE)) {
        Ok(manifest) => Ok(is_written(alloc, &manifest.copy(alloc)?, IMAGE_TEXT)),
        Err(_) => Ok(false),
    }
}

fn index_is_copied(alloc: Global) -> Result<bool, AllocError> {
    match OciImageIndex::read(alloc, &json(alloc, INDEX)) {
        Ok(index) => Ok(is_written(alloc, &index.copy(alloc)?, INDEX)),
        Err(_) => Ok(false),
    }
}

fn default_is_written(alloc: Global) -> Result<bool, AllocError> {
    let default = OciDescriptor::default(alloc)?;
    let manifest = OciImageManifest::default(alloc)?;
    let want = r#"{"digest":"","mediaType":"application/vnd.oci.image.config.v1+json","size":0}"#;
    Ok(is_written(alloc, &default, want) && manifest.schema_version == 2)
}

#[test]
fn documents_are_copied(rt: HostRuntime) {
    assert!(rt; holds(image_is_copied(rt.alloc())));
    assert!(rt; holds(index_is_copied(rt.alloc())));
    assert!(rt; holds(default_is_written(rt.alloc())));
}

fn error_is_written(alloc: Global, text: &str, want: &str) -> bool {
    match OciError::read(alloc, &json(alloc, text)) {
        Ok(error) => is_written(alloc, &error, want),
        Err(_) => false,
    }
}

fn envelope_is_read(alloc: Global, text: &str) -> bool {
    match OciEnvelope::read(alloc, &json(alloc, text)) {
        Ok(envelope) => is_written(alloc, &envelope, text),
        Err(_) => false,
    }
}

fn code_is_known(alloc: Global) -> Result<bool, AllocError> {
    let code = OciErrorCode::Other(Text::new(alloc, "DENIED")?);
    let value = code.to_value(alloc)?;
    match OciErrorCode::read(alloc, &value) {
        Ok(again) => Ok(matches!(again, OciErrorCode::Denied)),
        Err(_) => Ok(false),
    }
}

#[test]
fn errors_are_written_with_all_members(rt: HostRuntime) {
    let want = r#"{"code":"TOOMANYREQUESTS","detail":[1],"message":""}"#;
    assert!(rt;
        error_is_written(
            rt.alloc(),
            r#"{"code":"TOOMANYREQUESTS","detail":[1]}"#,
            want
        )
    );
    assert!(rt;
        envelope_is_read(
            rt.alloc(),
            r#"{"errors":[{"code":"DENIED","detail":null,"message":""}]}"#
        )
    );
    assert!(rt;
        !envelope_is_read(
            rt.alloc(),
            r#"{"errors":[{"code":"DENIED","detail":null,"message":null}]}"#
        )
    );
    assert!(rt; holds(code_is_known(rt.alloc())));
}

fn built(alloc: Global) -> Result<OciImageManifest, AllocError> {
    let layer = ImageLayer::oci_v1(alloc, Blob::new(alloc, b"hello world")?, None)?;
    let config = Config::oci_v1(alloc, Blob::new(alloc, b"{}")?, None)?;
    let mut manifest = OciImageManifest::build(alloc, &[layer], &config, None)?;
    manifest.media_type = Some(Text::new(alloc, "application/vnd.oci.image.manifest.v1+json")?);
    Ok(manifest)
}

fn is_built(alloc: Global) -> Result<bool, AllocError> {
    let manifest = built(alloc)?;
    Ok(is_written(alloc, &manifest, IMAGE_TEXT))
}

fn config_names_its_bytes(alloc: Global) -> Result<bool, AllocError> {
    let config = Config::new(Blob::new(alloc, b"{}")?, Text::new(alloc, "a")?, None);
    let digest = config.sha256_digest(alloc)?;
    let want = "sha256:44136fa355b3678a1146ad16f7e8649e94fb4fc21fe77e8310c060f61caaff8a";
    Ok(digest.as_str() == want)
}

fn layers_are_compared(alloc: Global) -> Result<bool, AllocError> {
    let layer = ImageLayer::oci_v1(alloc, Blob::new(alloc, b"hello world")?, None)?;
    let zipped = ImageLayer::oci_v1_gzip(alloc, Blob::new(alloc, b"hello world")?, None)?;
    let copy = layer.copy(alloc)?;
    Ok(copy == layer && layer != zipped)
}

fn layer_names_its_bytes(alloc: Global) -> Result<bool, AllocError> {
    let layer = ImageLayer::new(
        Blob::new(alloc, b"hello world")?,
        Text::new(alloc, "a")?,
        None,
    );
    let digest = layer.sha256_digest(alloc)?;
    let want = "sha256:b94d27b9934d3e08a52e52d7da7dabfac484efe37a5380ee9088f7ace2efcde9";
    Ok(digest.as_str() == want)
}

#[test]
fn a_manifest_is_built_of_its_parts(rt: HostRuntime) {
    assert!(rt; holds(is_built(rt.alloc())));
    assert!(rt; holds(config_names_its_bytes(rt.alloc())));
    assert!(rt; holds(layer_names_its_bytes(rt.alloc())));
    assert!(rt; holds(layers_are_compared(rt.alloc())));
}

fn has_text(alloc: Global, text: &str, want: &str) -> Result<bool, AllocError> {
    let Ok(document) = OciManifest::read(alloc, &json(alloc, text)) else {
        return Ok(false);
    };
    let text = manifest_text(alloc, &document)?;
    Ok(text.as_slice() == want.as_bytes())
}

#[test]
fn the_text_of_a_manifest_is_in_nfc_with_its_names_in_order(rt: HostRuntime) {
    let text =
        "{\"schemaVersion\":2,\"manifests\":[],\"annotations\":{\"e\u{301}\":\"1\",\"f\":\"\u{212b}\",\
            \"\u{e9}\":\"2\"}}";
    let want =
        "{\"annotations\":{\"f\":\"\u{c5}\",\"\u{e9}\":\"2\"},\"manifests\":[],\"schemaVersion\":2}";
    assert!(rt; holds(has_text(rt.alloc(), text, want)));
    assert!(rt; holds(has_text(rt.alloc(), IMAGE, IMAGE_TEXT)));
    assert!(rt; is_manifest_media_type("application/vnd.oci.image.manifest.v1+json"));
    assert!(rt; !is_manifest_media_type("application/vnd.oci.image.config.v1+json"));
}

fn tags(alloc: Global, text: &str) -> Result<Option<usize>, AllocError> {
    match TagResponse::read(alloc, &json(alloc, text)) {
        Ok(response) => Ok(Some(response.copy(alloc)?.tags.as_slice().len())),
        Err(_) => Ok(None),
    }
}

fn are_tags(alloc: Global, text: &str, want: Option<usize>) -> bool {
    tags(alloc, text).is_ok_and(|found| found == want)
}

fn repositories(alloc: Global, text: &str) -> Result<Option<usize>, AllocError> {
    match CatalogResponse::read(alloc, &json(alloc, text)) {
        Ok(catalog) => Ok(Some(catalog.copy(alloc)?.repositories.as_slice().len())),
        Err(_) => Ok(None),
    }
}

fn are_repositories(alloc: Global, text: &str, want: Option<usize>) -> bool {
    repositories(alloc, text).is_ok_and(|found| found == want)
}

#[test]
fn tags_are_a_list_or_null(rt: HostRuntime) {
    assert!(rt; are_tags(rt.alloc(), r#"{"name":"a/b","tags":["v1","v2"]}"#, Some(2)));
    assert!(rt; are_tags(rt.alloc(), r#"{"name":"a/b","tags":null}"#, Some(0)));
    assert!(rt; are_tags(rt.alloc(), r#"{"name":"a/b"}"#, None));
}

#[test]
fn a_catalog_is_a_list_of_repositories(rt: HostRuntime) {
    assert!(rt;
        are_repositories(
            rt.alloc(),
            r#"{"repositories":["a","b/c"],"next":null}"#,
            Some(2)
        )
    );
    assert!(rt; are_repositories(rt.alloc(), r#"{"repositories":null}"#, None));
}
