//! The builder of a client.
ghost use Rattle.std.specs.Prelude.{◌≡◌, true, false, IfOk};
ghost use Rattle.std.specs.FinMap as map;
ghost use Rattle.sig_registry.specs.Config.{default_config};
ghost use Rattle.cosign_laws.specs.Settled.{IsSettledForAll};
ghost use Rattle.cosign_client.specs.Builder.{config_of, caches, keys_of, keys_or, fresh_client};
ghost use Rattle.cosign_client.specs.State.{client_state};

use crate::client::Client;
use crate::trust_root::TrustRoot;
use cosign_parts::LogKeys;
use sig_registry::{ClientConfig, RegistryClient};
use std::alloc::{AllocError, Global};

/// The parts of a client: the configuration of its registry's client, whether that caches, and the keys of transparency
/// logs.
#[derive(Drop)]
pub struct ClientBuilder {
    oci_client_config: ClientConfig,
    enable_registry_caching: bool,
    rekor_pub_keys: Option<LogKeys>,
}

impl ClientBuilder {
    /// Returns a builder with the default configuration, without a cache and without keys.
    pub fn new() -> ClientBuilder
        ensures config { config_of result ≡ default_config }
        ensures caches { caches result ≡ false }
        ensures keys { keys_of result ≡ map.empty }
    {
        ClientBuilder {
            oci_client_config: ClientConfig::default(),
            enable_registry_caching: false,
            rekor_pub_keys: None,
        }
    }

    /// Returns a builder whose client will cache responses and return them again for less than 60 seconds.
    pub fn enable_registry_caching(self) -> ClientBuilder
        ensures config { config_of result ≡ config_of self }
        ensures caches { caches result ≡ true }
        ensures keys { keys_of result ≡ keys_of self }
    {
        let ClientBuilder {
            oci_client_config,
            rekor_pub_keys,
            ..
        } = self;
        ClientBuilder {
            oci_client_config,
            enable_registry_caching: true,
            rekor_pub_keys,
        }
    }

    /// Takes the keys that the repository knows, if it knows any; otherwise keeps the present ones.
    pub fn with_trust_repository<R: TrustRoot>(
        self,
        alloc: Global,
        repo: &R,
    ) -> Result<ClientBuilder, AllocError>
        ensures config { IfOk result (λ builder. config_of builder ≡ config_of self) }
        ensures caches { IfOk result (λ builder. caches builder ≡ caches self) }
        ensures keys { IfOk result (λ builder. keys_of builder ≡ keys_or (R.known repo.now) (keys_of self)) }
    {
        let keys = repo.rekor_keys(alloc)?;
        if keys.entries().is_empty() {
            return Ok(self);
        }
        let ClientBuilder {
            oci_client_config,
            enable_registry_caching,
            ..
        } = self;
        Ok(ClientBuilder {
            oci_client_config,
            enable_registry_caching,
            rekor_pub_keys: Some(keys),
        })
    }

    /// Replaces the configuration.
    pub fn with_oci_client_config(self, config: ClientConfig) -> ClientBuilder
        ensures config { config_of result ≡ config }
        ensures caches { caches result ≡ caches self }
        ensures keys { keys_of result ≡ keys_of self }
    {
        let ClientBuilder {
            enable_registry_caching,
            rekor_pub_keys,
            ..
        } = self;
        ClientBuilder {
            oci_client_config: config,
            enable_registry_caching,
            rekor_pub_keys,
        }
    }

    /// Builds the client. It keeps no credentials, no tokens and no cached responses yet.
    pub fn build(self, alloc: Global) -> Result<Client, AllocError>
        ensures client { IfOk result (λ client. client_state client ≡ fresh_client (config_of self) (caches self)) }
        ensures keys { IfOk result (λ client. client.rekor_pub_keys ≡ keys_of self) }
        ensures settled { IfOk result (λ client. IsSettledForAll (client_state client).kept) }
    {
        let ClientBuilder {
            oci_client_config,
            enable_registry_caching,
            rekor_pub_keys,
        } = self;
        let config = oci_client_config.into_oci(alloc)?;
        let registry_client = RegistryClient::fresh(alloc, config, enable_registry_caching);
        let rekor_pub_keys = match rekor_pub_keys {
            Some(keys) => keys,
            None => LogKeys::new(alloc),
        };
        Ok(Client {
            registry_client,
            rekor_pub_keys,
        })
    }
}
