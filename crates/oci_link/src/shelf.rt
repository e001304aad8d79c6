// A repository with its contents.
use json_values::{Annotations, Blob, Copied, Text, TextMap, copied};
use std::alloc::{AllocError, Global};

/// A manifest or an index.
#[derive(Drop)]
pub struct ShelfDocument {
    pub media_type: Text,
    pub content: Blob,
}

/// Documents by digest.
pub type ShelfDocuments = TextMap<ShelfDocument>;

/// Bytes by digest.
pub type ShelfBlobs = TextMap<Blob>;

/// A repository with maps: from tags to digests; from digests to documents, to blobs and to the bytes of lists of
/// referrers; and from URLs to the URLs to which they redirect.
#[derive(Drop)]
pub struct Shelf {
    pub repository: Text,
    pub tags: Annotations,
    pub documents: ShelfDocuments,
    pub blobs: ShelfBlobs,
    pub referrers: ShelfBlobs,
    pub redirects: Annotations,
}

impl Copied for ShelfDocument {
    fn copy(&self, alloc: Global) -> Result<ShelfDocument, AllocError> {
        copied!(
            alloc,
            self,
            ShelfDocument {
                media_type,
                content
            }
        )
    }
}

impl Copied for Shelf {
    fn copy(&self, alloc: Global) -> Result<Shelf, AllocError> {
        copied!(
            alloc,
            self,
            Shelf {
                repository,
                tags,
                documents,
                blobs,
                referrers,
                redirects
            }
        )
    }
}
