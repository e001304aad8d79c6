//! The documents of a pull, not yet attributed to a signature.
use crate::PulledManifest;
use json_values::Blob;

/// The document of a digest, and the manifest that it is or leads to.
#[derive(Drop)]
pub struct PulledDocuments {
    pub first: Blob,
    pub chosen: PulledManifest,
}
