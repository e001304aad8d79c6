//! Media types of manifests, indexes and configurations (OCI image specification, media-types.md, and Docker's image
//! manifest V2, schema 2).
/// The configuration of a WebAssembly module.
pub const WASM_CONFIG_MEDIA_TYPE: &'static str = "application/vnd.wasm.config.v1+json";

/// Docker's image manifest.
pub const IMAGE_MANIFEST_MEDIA_TYPE: &'static str =
    "application/vnd.docker.distribution.manifest.v2+json";

/// Docker's manifest list.
pub const IMAGE_MANIFEST_LIST_MEDIA_TYPE: &'static str =
    "application/vnd.docker.distribution.manifest.list.v2+json";

/// OCI's image manifest.
pub const OCI_IMAGE_MEDIA_TYPE: &'static str = "application/vnd.oci.image.manifest.v1+json";

/// OCI's image index.
pub const OCI_IMAGE_INDEX_MEDIA_TYPE: &'static str = "application/vnd.oci.image.index.v1+json";

/// OCI's configuration file.
pub const IMAGE_CONFIG_MEDIA_TYPE: &'static str = "application/vnd.oci.image.config.v1+json";

/// Docker's configuration file.
pub const IMAGE_DOCKER_CONFIG_MEDIA_TYPE: &'static str =
    "application/vnd.docker.container.image.v1+json";
