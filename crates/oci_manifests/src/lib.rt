//! The documents of registries: image manifests, image indexes and their common members, and layers and configurations
//! with their bytes (OCI image specification).
#![tactic(auto)]

pub mod annotations;
pub mod blob;
mod build;
mod descriptor;
mod document;
mod headers;
mod index;
mod index_entry;
pub mod layer_types;
mod manifest;
pub mod media_types;
mod platform;
mod promise;
mod resolver;
mod resolvers;
mod versioned;

pub use annotations::{
    ORG_OPENCONTAINERS_IMAGE_AUTHORS, ORG_OPENCONTAINERS_IMAGE_BASE_DIGEST,
    ORG_OPENCONTAINERS_IMAGE_BASE_NAME, ORG_OPENCONTAINERS_IMAGE_CREATED,
    ORG_OPENCONTAINERS_IMAGE_DESCRIPTION, ORG_OPENCONTAINERS_IMAGE_DOCUMENTATION,
    ORG_OPENCONTAINERS_IMAGE_LICENSES, ORG_OPENCONTAINERS_IMAGE_REF_NAME,
    ORG_OPENCONTAINERS_IMAGE_REVISION, ORG_OPENCONTAINERS_IMAGE_SOURCE,
    ORG_OPENCONTAINERS_IMAGE_TITLE, ORG_OPENCONTAINERS_IMAGE_URL, ORG_OPENCONTAINERS_IMAGE_VENDOR,
    ORG_OPENCONTAINERS_IMAGE_VERSION,
};
pub use blob::ImageLayer;
pub use descriptor::OciDescriptor;
pub use document::OciManifest;
pub use headers::DOCKER_DIGEST_HEADER;
pub use index::OciImageIndex;
pub use index_entry::ImageIndexEntry;
pub use json_tables::ReadError;
pub use layer_types::{
    IMAGE_DOCKER_LAYER_GZIP_MEDIA_TYPE, IMAGE_DOCKER_LAYER_TAR_MEDIA_TYPE,
    IMAGE_LAYER_GZIP_MEDIA_TYPE, IMAGE_LAYER_MEDIA_TYPE,
    IMAGE_LAYER_NONDISTRIBUTABLE_GZIP_MEDIA_TYPE, IMAGE_LAYER_NONDISTRIBUTABLE_MEDIA_TYPE,
    WASM_LAYER_MEDIA_TYPE,
};
pub use manifest::OciImageManifest;
pub use media_types::{
    IMAGE_CONFIG_MEDIA_TYPE, IMAGE_DOCKER_CONFIG_MEDIA_TYPE, IMAGE_MANIFEST_LIST_MEDIA_TYPE,
    IMAGE_MANIFEST_MEDIA_TYPE, OCI_IMAGE_INDEX_MEDIA_TYPE, OCI_IMAGE_MEDIA_TYPE,
    WASM_CONFIG_MEDIA_TYPE,
};
pub use oci_digests::{names_digest, sha256_digest};
pub use platform::Platform;
pub use promise::ResolverPromise;
pub use resolver::PlatformResolver;
pub use resolvers::{current_platform_resolver, linux_amd64_resolver, windows_amd64_resolver};
pub use versioned::{Versioned, is_manifest_media_type};
