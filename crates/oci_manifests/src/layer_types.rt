//! Media types of layers (OCI image specification, media-types.md, and Docker's image manifest V2, schema 2).
/// A layer that is a WebAssembly module.
pub const WASM_LAYER_MEDIA_TYPE: &'static str = "application/vnd.wasm.content.layer.v1+wasm";

/// OCI's layer, a tar archive.
pub const IMAGE_LAYER_MEDIA_TYPE: &'static str = "application/vnd.oci.image.layer.v1.tar";

/// OCI's layer, compressed by gzip.
pub const IMAGE_LAYER_GZIP_MEDIA_TYPE: &'static str = "application/vnd.oci.image.layer.v1.tar+gzip";

/// Docker's layer, a tar archive.
pub const IMAGE_DOCKER_LAYER_TAR_MEDIA_TYPE: &'static str =
    "application/vnd.docker.image.rootfs.diff.tar";

/// Docker's layer, compressed by gzip.
pub const IMAGE_DOCKER_LAYER_GZIP_MEDIA_TYPE: &'static str =
    "application/vnd.docker.image.rootfs.diff.tar.gzip";

/// A non-distributable layer, a tar archive.
pub const IMAGE_LAYER_NONDISTRIBUTABLE_MEDIA_TYPE: &'static str =
    "application/vnd.oci.image.layer.nondistributable.v1.tar";

/// The same, compressed by gzip.
pub const IMAGE_LAYER_NONDISTRIBUTABLE_GZIP_MEDIA_TYPE: &'static str =
    "application/vnd.oci.image.layer.nondistributable.v1.tar+gzip";
