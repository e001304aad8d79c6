//! The client of a program's pulls.
ghost use Rattle.std.specs.Prelude.{◌≡◌};
ghost use Rattle.cosign_client.specs.State.{client_state};
ghost use Rattle.sig_registry.specs.States.{fresh_state};
ghost use Rattle.cosign_client.specs.Clients.{config_by};
ghost use Rattle.cosign_laws.specs.Settled.{IsSettledForAll};

use crate::client::Client;
use cosign_parts::LogKeys;
use oci_engine::{ClientConfig, ClientProtocol};
use oci_manifests::PlatformResolver;
use sig_registry::RegistryClient;
use std::alloc::Global;

/// The written settings of a client. All others have their defaults.
#[derive(Drop)]
pub struct WrittenClient {
    pub protocol: ClientProtocol,
    /// The maximum number of bytes of a body that is held; `None` is the default limit.
    pub limit: Option<u64>,
    /// Selects the image of an index. If `None`, an index is refused.
    pub platform: Option<PlatformResolver>,
    /// Whether responses are cached between the calls.
    pub caching: bool,
    /// The keys of transparency logs, by their ids.
    pub log_keys: LogKeys,
}

/// Returns a new client with the written settings.
pub fn client_by(alloc: Global, usual: ClientConfig, written: WrittenClient) -> Client
    ensures state { client_state result ≡ fresh_state (config_by usual written) written.caching }
    ensures log_keys { result.rekor_pub_keys ≡ written.log_keys }
    ensures settled { IsSettledForAll (client_state result).kept }
{
    let WrittenClient {
        protocol,
        limit,
        platform,
        caching,
        log_keys,
    } = written;
    let mut config = usual;
    config.protocol = protocol;
    config.max_body_bytes = limit.unwrap_or(config.max_body_bytes);
    config.platform_resolver = platform;
    Client {
        registry_client: RegistryClient::fresh(alloc, config, caching),
        rekor_pub_keys: log_keys,
    }
}
