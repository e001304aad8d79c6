// The results of pushes.
use json_values::{Copied, Text, copied};
use std::alloc::{AllocError, Global};

/// The result of pushing a stream: the URL of the blob, its SHA-256 digest, and its size in bytes.
#[derive(Debug, Drop, PartialEq, Eq)]
pub struct PushBlobStreamChunkedResponse {
    pub blob_url: Text,
    pub blob_digest: Text,
    pub size: u64,
}

impl Copied for PushBlobStreamChunkedResponse {
    fn copy(&self, alloc: Global) -> Result<PushBlobStreamChunkedResponse, AllocError> {
        copied!(
            alloc,
            self,
            PushBlobStreamChunkedResponse {
                blob_url,
                blob_digest,
                size
            }
        )
    }
}

/// The URLs of a pushed image: of its configuration and of its manifest.
#[derive(Debug, Drop, PartialEq, Eq)]
pub struct PushResponse {
    pub config_url: Text,
    pub manifest_url: Text,
}

impl Copied for PushResponse {
    fn copy(&self, alloc: Global) -> Result<PushResponse, AllocError> {
        copied!(
            alloc,
            self,
            PushResponse {
                config_url,
                manifest_url
            }
        )
    }
}
