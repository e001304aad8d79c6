//! The documents of registries by OCI's specifications: manifests, indexes, errors, listings, configuration files and
//! their times, digests, and the text of a pushed manifest.
#![tactic(auto)]

ghost use Rattle.std.specs.Prelude.{◌≡◌, codes};
ghost use Rattle.oci_docs.specs.declared.TheConstants.{CONFIG_DATA};

mod catalog;
pub mod config;
mod conversion;
mod digits;
mod file;
mod history;
mod laws;
mod nfc;
mod offset;
mod reader;
mod rootfs;
mod shift;
mod tags;
mod time;
mod writer;
mod written;

pub use catalog::CatalogResponse;
pub use conversion::{ConfigError, FromConfigFile};
pub use file::ConfigFile;
pub use history::History;
pub use laws::offsets_move_minutes;
pub use oci_digests::{
    Algorithm, Digest, DigestError, Digester, digest_header_value, names_digest, sha256_digest,
    validate_digest,
};
pub use oci_errors::{OciEnvelope, OciError, OciErrorCode};
pub use oci_manifests::{
    DOCKER_DIGEST_HEADER, IMAGE_CONFIG_MEDIA_TYPE, IMAGE_DOCKER_CONFIG_MEDIA_TYPE,
    IMAGE_DOCKER_LAYER_GZIP_MEDIA_TYPE, IMAGE_DOCKER_LAYER_TAR_MEDIA_TYPE,
    IMAGE_LAYER_GZIP_MEDIA_TYPE, IMAGE_LAYER_MEDIA_TYPE,
    IMAGE_LAYER_NONDISTRIBUTABLE_GZIP_MEDIA_TYPE, IMAGE_LAYER_NONDISTRIBUTABLE_MEDIA_TYPE,
    IMAGE_MANIFEST_LIST_MEDIA_TYPE, IMAGE_MANIFEST_MEDIA_TYPE, ImageIndexEntry, ImageLayer,
    OCI_IMAGE_INDEX_MEDIA_TYPE, OCI_IMAGE_MEDIA_TYPE, ORG_OPENCONTAINERS_IMAGE_AUTHORS,
    ORG_OPENCONTAINERS_IMAGE_BASE_DIGEST, ORG_OPENCONTAINERS_IMAGE_BASE_NAME,
    ORG_OPENCONTAINERS_IMAGE_CREATED, ORG_OPENCONTAINERS_IMAGE_DESCRIPTION,
    ORG_OPENCONTAINERS_IMAGE_DOCUMENTATION, ORG_OPENCONTAINERS_IMAGE_LICENSES,
    ORG_OPENCONTAINERS_IMAGE_REF_NAME, ORG_OPENCONTAINERS_IMAGE_REVISION,
    ORG_OPENCONTAINERS_IMAGE_SOURCE, ORG_OPENCONTAINERS_IMAGE_TITLE, ORG_OPENCONTAINERS_IMAGE_URL,
    ORG_OPENCONTAINERS_IMAGE_VENDOR, ORG_OPENCONTAINERS_IMAGE_VERSION, OciDescriptor,
    OciImageIndex, OciImageManifest, OciManifest, Platform, ReadError, Versioned,
    WASM_CONFIG_MEDIA_TYPE, WASM_LAYER_MEDIA_TYPE, annotations, blob, is_manifest_media_type,
    media_types,
};
pub use rootfs::{ROOTFS_TYPE, Rootfs, rootfs_type_is_layers};
pub use tags::TagResponse;
pub use time::Time;
pub use written::manifest_text;

/// The bytes of an empty configuration.
pub const CONFIG_DATA: &'static str = "{}";

/// States the text of the constant.
pub fn config_data_is_an_empty_object()
    ensures { CONFIG_DATA.now ≡ codes "{}" }
{}
