// The configuration of a client.
ghost use Rattle.std.specs.Prelude.{◌≡◌, IfOk};
ghost use Rattle.sig_registry.specs.Config.{default_config, oci_config};

use json_values::{Copied, List, Text, copied};
use oci_engine::PlatformResolver;
use std::alloc::{AllocError, Global};

/// The scheme of a registry's URLs.
#[derive(Debug, Drop, PartialEq, Eq)]
pub enum ClientProtocol {
    Http,
    Https,
    /// `http` for these registries, `https` for all others.
    HttpsExcept(List<Text>),
}

impl Copied for ClientProtocol {
    fn copy(&self, alloc: Global) -> Result<ClientProtocol, AllocError> {
        match self {
            ClientProtocol::Http => Ok(ClientProtocol::Http),
            ClientProtocol::Https => Ok(ClientProtocol::Https),
            ClientProtocol::HttpsExcept(registries) => {
                let registries = registries.copy(alloc)?;
                Ok(ClientProtocol::HttpsExcept(registries))
            }
        }
    }
}

impl From<ClientProtocol> for oci_engine::ClientProtocol {
    ghost use Rattle.std.specs.Prelude.{◌≡◌};
    ghost use Rattle.sig_registry.specs.Config.{oci_protocol};

    ghost from_gives = { λ given protocol. protocol ≡ oci_protocol given };

    fn from(protocol: ClientProtocol) -> Self {
        match protocol {
            ClientProtocol::Http => oci_engine::ClientProtocol::Http,
            ClientProtocol::Https => oci_engine::ClientProtocol::Https,
            ClientProtocol::HttpsExcept(registries) => {
                oci_engine::ClientProtocol::HttpsExcept(registries)
            }
        }
    }
}

/// The configuration of a client; the registry client's other members have their defaults.
#[derive(Debug, Drop)]
pub struct ClientConfig {
    pub protocol: ClientProtocol,
    /// Selects the image of an index. If `None`, an index is refused.
    pub platform_resolver: Option<PlatformResolver>,
    /// The maximum number of bytes of one body.
    pub max_body_bytes: u64,
}

impl ClientConfig {
    /// Returns `https`, no platform resolver, and bodies of less than 4 GiB.
    pub fn default() -> ClientConfig
        ensures { result ≡ default_config }
    {
        ClientConfig {
            protocol: ClientProtocol::Https,
            platform_resolver: None,
            max_body_bytes: 4294967295,
        }
    }

    /// Returns the registry client's configuration, whose other members have their defaults.
    pub fn into_oci(self, alloc: Global) -> Result<oci_engine::ClientConfig, AllocError>
        ensures { IfOk result (λ config. config ≡ oci_config self) }
    {
        let ClientConfig {
            protocol,
            platform_resolver,
            max_body_bytes,
        } = self;
        let mut config = oci_engine::ClientConfig::default(alloc)?;
        config.protocol = oci_engine::ClientProtocol::from(protocol);
        config.platform_resolver = platform_resolver;
        config.max_body_bytes = max_body_bytes;
        Ok(config)
    }
}

impl Copied for ClientConfig {
    fn copy(&self, alloc: Global) -> Result<ClientConfig, AllocError> {
        copied!(
            alloc,
            self,
            ClientConfig {
                protocol,
                platform_resolver,
                max_body_bytes
            }
        )
    }
}
