//! The result of a pull, not yet attributed to a signature.
use json_values::{Blob, List, Text};
use oci_manifests::blob::Config;
use oci_manifests::{ImageLayer, OciImageManifest};

/// The manifest of an image with its bytes, and the entry's digest if an index led to it.
#[derive(Drop)]
pub struct PulledManifest {
    pub bytes: Blob,
    pub manifest: OciImageManifest,
    pub entry: Option<Text>,
}

/// The document of a digest, and the manifest that it is or leads to, with its configuration and its layers.
#[derive(Drop)]
pub struct Pulled {
    pub first: Blob,
    pub chosen: PulledManifest,
    pub config: Config,
    /// In the manifest's order.
    pub layers: List<ImageLayer>,
}
