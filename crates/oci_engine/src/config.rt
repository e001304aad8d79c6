// The configuration of a client.
ghost use Rattle.std.specs.Prelude.{◌≡◌, IfOk};
ghost use Rattle.oci_engine.specs.Clients.{default_config};

use engine_terms::ClientProtocol;
use json_values::{Copied, Text, copied};
use oci_manifests::PlatformResolver;
use std::alloc::{AllocError, Global};

/// The maximum number of concurrent uploads of a client.
pub const DEFAULT_MAX_CONCURRENT_UPLOAD: usize = 16;

/// The maximum number of concurrent downloads of a client.
pub const DEFAULT_MAX_CONCURRENT_DOWNLOAD: usize = 16;

/// For how many seconds a token is stored that does not state when it expires.
pub const DEFAULT_TOKEN_EXPIRATION_SECS: u64 = 60;

/// The configuration of a client.
#[derive(Debug, Drop)]
pub struct ClientConfig {
    pub protocol: ClientProtocol,
    /// Whether a blob is pushed by one request instead of in chunks.
    pub use_monolithic_push: bool,
    /// Which entry of an index is selected. If `None`, an index is refused.
    pub platform_resolver: Option<PlatformResolver>,
    /// It has no effect: requests are sent one at a time.
    pub max_concurrent_upload: usize,
    /// It has no effect: requests are sent one at a time.
    pub max_concurrent_download: usize,
    /// For how many seconds a token is stored that does not state when it expires.
    pub default_token_expiration_secs: u64,
    /// The value of the header `user-agent`.
    pub user_agent: Text,
    /// The maximum size of one body, in bytes.
    pub max_body_bytes: u64,
}

impl ClientConfig {
    /// Returns `https`, no resolver of platforms, tokens that are stored for a minute, `oci-client/0.18.0`, and bodies
    /// of less than 4 GiB.
    pub fn default(alloc: Global) -> Result<ClientConfig, AllocError>
        ensures { IfOk result (λ config. config ≡ default_config) }
    {
        let user_agent = Text::new(alloc, "oci-client/0.18.0")?;
        let (uploads, downloads) = (
            DEFAULT_MAX_CONCURRENT_UPLOAD,
            DEFAULT_MAX_CONCURRENT_DOWNLOAD,
        );
        let kept_for = DEFAULT_TOKEN_EXPIRATION_SECS;
        Ok(ClientConfig {
            protocol: ClientProtocol::Https,
            use_monolithic_push: false,
            platform_resolver: None,
            max_concurrent_upload: uploads,
            max_concurrent_download: downloads,
            default_token_expiration_secs: kept_for,
            user_agent,
            max_body_bytes: 4294967295,
        })
    }
}

impl Copied for ClientConfig {
    fn copy(&self, alloc: Global) -> Result<ClientConfig, AllocError> {
        copied!(
            alloc,
            self,
            ClientConfig {
                protocol,
                use_monolithic_push,
                platform_resolver,
                max_concurrent_upload,
                max_concurrent_download,
                default_token_expiration_secs,
                user_agent,
                max_body_bytes
            }
        )
    }
}
