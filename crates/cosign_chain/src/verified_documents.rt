//! The documents of an image with the signature layer that stands for them.
use cosign_parts::SignatureLayer;
use json_values::{Blob, Copied, Text, copied};
use oci_manifests::OciImageManifest;
use std::alloc::{AllocError, Global};

/// The documents of an image, and the one signature layer that stands for them. The manifest names the configuration
/// and the layers by their digests; none of these blobs is here.
#[derive(Drop)]
pub struct VerifiedDocuments {
    /// The digest that the registry returned for the reference. It names `first`.
    pub digest: Text,
    /// The document that was pulled for `digest`.
    pub first: Blob,
    /// The document that `manifest` is parsed from.
    pub manifest_bytes: Blob,
    pub manifest: OciImageManifest,
    pub manifest_digest: Text,
    /// The digest of the index that led to the manifest, if one did.
    pub list_digest: Option<Text>,
    pub signature: SignatureLayer,
}

impl Copied for VerifiedDocuments {
    fn copy(&self, alloc: Global) -> Result<VerifiedDocuments, AllocError> {
        copied!(
            alloc,
            self,
            VerifiedDocuments {
                digest,
                first,
                manifest_bytes,
                manifest,
                manifest_digest,
                list_digest,
                signature
            }
        )
    }
}
