//! An image with the signature layer that stands for it.
use cosign_parts::SignatureLayer;
use json_values::{Blob, Copied, List, Text, copied};
use oci_manifests::blob::Config;
use oci_manifests::{ImageLayer, OciImageManifest};
use std::alloc::{AllocError, Global};

/// An image, and the one signature layer that stands for it: a chain that can be checked again on its own.
#[derive(Drop)]
pub struct VerifiedImage {
    /// The digest that the registry returned for the reference. It names `first`.
    pub digest: Text,
    /// The document that was pulled for `digest`.
    pub first: Blob,
    /// The document that `manifest` is parsed from.
    pub manifest_bytes: Blob,
    pub manifest: OciImageManifest,
    pub manifest_digest: Text,
    /// The digest of the index that led to the manifest, if one did.
    pub list_digest: Option<Text>,
    pub config: Config,
    /// In the manifest's order.
    pub layers: List<ImageLayer>,
    pub signature: SignatureLayer,
}

impl Copied for VerifiedImage {
    fn copy(&self, alloc: Global) -> Result<VerifiedImage, AllocError> {
        copied!(
            alloc,
            self,
            VerifiedImage {
                digest,
                first,
                manifest_bytes,
                manifest,
                manifest_digest,
                list_digest,
                config,
                layers,
                signature
            }
        )
    }
}
