//! The registry's client as the search for signatures uses it.
#![tactic(auto)]

mod caching;
mod calls;
mod certificate;
mod config;
mod plain;
mod registry_client;

pub use caching::OciCachingClient;
pub use certificate::{Certificate, CertificateEncoding};
pub use config::{ClientConfig, ClientProtocol};
pub use plain::OciClient;
pub use registry_cache::{Auth, PullManifestSettings, PullReferrersSettings, PullSettings};
pub use registry_calls::{
    Called, ClientCapabilities, OciReference, SigstoreError, with_error_context,
};
pub use registry_client::RegistryClient;
