// The clients of a registry.
use crate::caching::OciCachingClient;
use crate::plain::OciClient;
use json_values::{Blob, Text};
use oci_auth::RegistryAuth;
use oci_engine::{Client, ClientConfig, ImageData, PlatformResolver, PushResponse};
use oci_manifests::blob::Config;
use oci_manifests::{ImageLayer, OciDescriptor, OciImageIndex, OciImageManifest, OciManifest};
use oci_names::Reference;
use oci_transport::Transport;
use registry_calls::{ClientCapabilities, SigstoreError};
use std::alloc::Global;

/// A client of a registry, with or without a cache.
#[derive(Drop)]
pub enum RegistryClient {
    /// A client that does not cache.
    Plain(OciClient),
    /// A client that caches.
    Caching(OciCachingClient),
}

impl RegistryClient {
    ghost use Rattle.std.specs.Prelude.{◌≡◌};
    ghost use Rattle.registry_calls.specs.Clients.{now_caching};
    ghost use Rattle.sig_registry.specs.States.{fresh_state, state_of};

    /// Returns a new client with this configuration, with or without a cache. It keeps no credentials, no tokens and no
    /// cached responses yet.
    pub fn fresh(alloc: Global, config: ClientConfig, caching: bool) -> RegistryClient
        ensures { state_of result ≡ fresh_state config caching }
    {
        let client = Client::new(alloc, config);
        if caching {
            return RegistryClient::Caching(OciCachingClient::new(alloc, client));
        }
        RegistryClient::Plain(OciClient::new(client))
    }

    /// Returns the same client, which caches from now on. A client that caches already is unchanged.
    pub fn caching(self, alloc: Global) -> RegistryClient
        ensures { state_of result ≡ now_caching (state_of self) }
    {
        match self {
            RegistryClient::Plain(client) => {
                let client = OciCachingClient::new(alloc, client.into_client());
                RegistryClient::Caching(client)
            }
            RegistryClient::Caching(client) => RegistryClient::Caching(client),
        }
    }
}

impl ClientCapabilities for RegistryClient {
    ghost use Rattle.sig_registry.specs.States.{state_of};

    ghost state = { state_of };

    fn fetch_manifest_digest<T: Transport>(
        &mut self,
        alloc: Global,
        transport: &mut T,
        moment: u64,
        image: &Reference,
        auth: &RegistryAuth,
    ) -> Result<Text, SigstoreError> {
        match self {
            RegistryClient::Plain(client) => client.fetch_manifest_digest(
                alloc, transport, moment, image, auth,
            ),
            RegistryClient::Caching(client) => client.fetch_manifest_digest(
                alloc, transport, moment, image, auth,
            ),
        }
    }

    fn pull<T: Transport>(
        &mut self,
        alloc: Global,
        transport: &mut T,
        moment: u64,
        image: &Reference,
        auth: &RegistryAuth,
        accepted_media_types: &[Text],
    ) -> Result<ImageData, SigstoreError> {
        match self {
            RegistryClient::Plain(client) => client.pull(
                alloc,
                transport,
                moment,
                image,
                auth,
                accepted_media_types,
            ),
            RegistryClient::Caching(client) => client.pull(
                alloc,
                transport,
                moment,
                image,
                auth,
                accepted_media_types,
            ),
        }
    }

    fn pull_manifest<T: Transport>(
        &mut self,
        alloc: Global,
        transport: &mut T,
        moment: u64,
        image: &Reference,
        auth: &RegistryAuth,
    ) -> Result<(OciManifest, Text), SigstoreError> {
        match self {
            RegistryClient::Plain(client) => client.pull_manifest(
                alloc, transport, moment, image, auth,
            ),
            RegistryClient::Caching(client) => client.pull_manifest(
                alloc, transport, moment, image, auth,
            ),
        }
    }

    fn push<T: Transport>(
        &mut self,
        alloc: Global,
        transport: &mut T,
        moment: u64,
        image_ref: &Reference,
        layers: &[ImageLayer],
        config: Config,
        auth: &RegistryAuth,
        manifest: Option<OciImageManifest>,
    ) -> Result<PushResponse, SigstoreError> {
        match self {
            RegistryClient::Plain(client) => client.push(
                alloc, transport, moment, image_ref, layers, config, auth, manifest,
            ),
            RegistryClient::Caching(client) => client.push(
                alloc, transport, moment, image_ref, layers, config, auth, manifest,
            ),
        }
    }

    fn pull_referrers<T: Transport>(
        &mut self,
        alloc: Global,
        transport: &mut T,
        moment: u64,
        image: &Reference,
        auth: &RegistryAuth,
        artifact_type: Option<&str>,
    ) -> Result<OciImageIndex, SigstoreError> {
        match self {
            RegistryClient::Plain(client) => client.pull_referrers(
                alloc,
                transport,
                moment,
                image,
                auth,
                artifact_type,
            ),
            RegistryClient::Caching(client) => client.pull_referrers(
                alloc,
                transport,
                moment,
                image,
                auth,
                artifact_type,
            ),
        }
    }

    fn pull_manifest_raw<T: Transport>(
        &mut self,
        alloc: Global,
        transport: &mut T,
        moment: u64,
        image: &Reference,
        auth: &RegistryAuth,
        accepted_media_types: &[Text],
    ) -> Result<(Blob, Text), SigstoreError> {
        match self {
            RegistryClient::Plain(client) => client.pull_manifest_raw(
                alloc,
                transport,
                moment,
                image,
                auth,
                accepted_media_types,
            ),
            RegistryClient::Caching(client) => client.pull_manifest_raw(
                alloc,
                transport,
                moment,
                image,
                auth,
                accepted_media_types,
            ),
        }
    }

    fn pull_blob<T: Transport>(
        &mut self,
        alloc: Global,
        transport: &mut T,
        moment: u64,
        image: &Reference,
        layer: &OciDescriptor,
    ) -> Result<Blob, SigstoreError> {
        match self {
            RegistryClient::Plain(client) => client.pull_blob(
                alloc, transport, moment, image, layer,
            ),
            RegistryClient::Caching(client) => client.pull_blob(
                alloc, transport, moment, image, layer,
            ),
        }
    }

    fn platform_resolver(&self) -> Option<&PlatformResolver> {
        match self {
            RegistryClient::Plain(client) => client.platform_resolver(),
            RegistryClient::Caching(client) => client.platform_resolver(),
        }
    }
}
