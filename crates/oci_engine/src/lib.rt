//! The client of a registry (OCI distribution specification).
#![tactic(auto)]

mod certificate;
mod client;
mod config;
mod config_files;
mod listings;
mod manifests;
mod publishing;
mod pushes;
mod referrers;
mod source;
mod streams;

pub use certificate::{Certificate, CertificateEncoding};
pub use client::Client;
pub use config::{
    ClientConfig, DEFAULT_MAX_CONCURRENT_DOWNLOAD, DEFAULT_MAX_CONCURRENT_UPLOAD,
    DEFAULT_TOKEN_EXPIRATION_SECS,
};
pub use config_files::config_file;
pub use engine_push::{MemoryPieces, PieceSource, PushBlobStreamChunkedResponse, PushResponse};
pub use engine_requests::{AsLayerDescriptor, LayerDescriptor};
pub use engine_rows::ImageData;
pub use engine_streams::{BlobResponse, SizedStream};
pub use engine_terms::{
    ClientProtocol, GenericCause, OciDistributionError, Settings, SpecViolation,
};
pub use oci_docs::{CatalogResponse, TagResponse};
pub use oci_manifests::{
    PlatformResolver, ResolverPromise, current_platform_resolver, linux_amd64_resolver,
    windows_amd64_resolver,
};
pub use source::ClientConfigSource;
