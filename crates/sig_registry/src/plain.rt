// A client that does not cache.
use crate::calls::{
    blob_made, digest_made, document_made, image_made, manifest_made, push_made, referrers_made,
};
use json_values::{Blob, Text};
use oci_auth::RegistryAuth;
use oci_engine::{Client, ImageData, PlatformResolver, PushResponse};
use oci_manifests::blob::Config;
use oci_manifests::{ImageLayer, OciDescriptor, OciImageIndex, OciImageManifest, OciManifest};
use oci_names::Reference;
use oci_transport::Transport;
use registry_calls::{ClientCapabilities, SigstoreError};
use std::alloc::Global;

/// A client that caches no responses between its calls.
#[derive(Drop)]
pub struct OciClient {
    client: Client,
}

impl OciClient {
    ghost use Rattle.std.specs.Prelude.{◌≡◌, None};
    ghost use Rattle.sig_registry.specs.States.{engine_state, plain_state};

    pub fn new(client: Client) -> OciClient
        ensures { plain_state result ≡ engine_state client None }
    {
        OciClient { client }
    }

    /// Returns the registry's client that makes the calls, with the credentials and tokens that it keeps.
    pub fn into_client(self) -> Client
        ensures { engine_state result None ≡ plain_state self }
    {
        self.client
    }
}

impl ClientCapabilities for OciClient {
    ghost use Rattle.sig_registry.specs.States.{plain_state};

    ghost state = { plain_state };

    fn fetch_manifest_digest<T: Transport>(
        &mut self,
        alloc: Global,
        transport: &mut T,
        moment: u64,
        image: &Reference,
        auth: &RegistryAuth,
    ) -> Result<Text, SigstoreError> {
        digest_made(&mut self.client, alloc, transport, moment, image, auth)
    }

    fn pull<T: Transport>(
        &mut self,
        alloc: Global,
        transport: &mut T,
        moment: u64,
        image: &Reference,
        auth: &RegistryAuth,
        accepted_media_types: &[Text],
    ) -> Result<ImageData, SigstoreError> {
        image_made(
            &mut self.client,
            alloc,
            transport,
            moment,
            image,
            auth,
            accepted_media_types,
        )
    }

    fn pull_manifest<T: Transport>(
        &mut self,
        alloc: Global,
        transport: &mut T,
        moment: u64,
        image: &Reference,
        auth: &RegistryAuth,
    ) -> Result<(OciManifest, Text), SigstoreError> {
        manifest_made(&mut self.client, alloc, transport, moment, image, auth)
    }

    fn push<T: Transport>(
        &mut self,
        alloc: Global,
        transport: &mut T,
        moment: u64,
        image_ref: &Reference,
        layers: &[ImageLayer],
        config: Config,
        auth: &RegistryAuth,
        manifest: Option<OciImageManifest>,
    ) -> Result<PushResponse, SigstoreError> {
        push_made(
            &mut self.client,
            alloc,
            transport,
            moment,
            image_ref,
            layers,
            config,
            auth,
            manifest,
        )
    }

    fn pull_referrers<T: Transport>(
        &mut self,
        alloc: Global,
        transport: &mut T,
        moment: u64,
        image: &Reference,
        auth: &RegistryAuth,
        artifact_type: Option<&str>,
    ) -> Result<OciImageIndex, SigstoreError> {
        referrers_made(
            &mut self.client,
            alloc,
            transport,
            moment,
            image,
            auth,
            artifact_type,
        )
    }

    fn pull_manifest_raw<T: Transport>(
        &mut self,
        alloc: Global,
        transport: &mut T,
        moment: u64,
        image: &Reference,
        auth: &RegistryAuth,
        accepted_media_types: &[Text],
    ) -> Result<(Blob, Text), SigstoreError> {
        document_made(
            &mut self.client,
            alloc,
            transport,
            moment,
            image,
            auth,
            accepted_media_types,
        )
    }

    fn pull_blob<T: Transport>(
        &mut self,
        alloc: Global,
        transport: &mut T,
        moment: u64,
        image: &Reference,
        layer: &OciDescriptor,
    ) -> Result<Blob, SigstoreError> {
        blob_made(&mut self.client, alloc, transport, moment, image, layer)
    }

    fn platform_resolver(&self) -> Option<&PlatformResolver> {
        self.client.platform_resolver()
    }
}
