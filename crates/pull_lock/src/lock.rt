//! Locks, their entries, and the signature layer of each.
use cosign_parts::LayerKind;
use json_values::{Annotations, List, Text};

/// The signature layer that stands for an image: the form, the bytes and the annotations that it is read from.
#[derive(Drop)]
pub struct LockedSignature {
    pub kind: LayerKind,
    /// The digest text of the content.
    pub oci_digest: Text,
    pub content: Text,
    pub annotations: Annotations,
}

/// An image with what shows that its policy accepted it: its documents and its signature layer. Its configuration and
/// its layers are named by the manifest and are not part of the entry.
#[derive(Drop)]
pub struct LockEntry {
    /// The whole text of the reference: `registry/repository`, then `:tag` and `@digest` if present.
    pub image: Text,
    /// The accepted media types of layers.
    pub accepted: List<Text>,
    /// The digest that the registry returned for the reference. It names `first`.
    pub digest: Text,
    /// The document of that digest: the manifest, or the index that led to it.
    pub first: Text,
    pub manifest_digest: Text,
    pub manifest: Text,
    pub signature: LockedSignature,
}

/// Images that are pinned together.
#[derive(Drop)]
pub struct Lock {
    /// In a file, they increase strictly by the bytes of their images.
    pub entries: List<LockEntry>,
}
