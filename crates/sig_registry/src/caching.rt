// A client that caches responses.
ghost use Rattle.std.specs.Prelude.{IsTrue};
ghost use Rattle.registry_calls.specs.Named.{all_named};

use crate::calls::{
    blob_made, digest_made, document_made, image_made, manifest_made, push_made, referrers_made,
};
use json_values::{Blob, Text};
use oci_auth::RegistryAuth;
use oci_engine::{Client, ImageData, PlatformResolver, PushResponse};
use oci_manifests::blob::Config;
use oci_manifests::{ImageLayer, OciDescriptor, OciImageIndex, OciImageManifest, OciManifest};
use oci_names::Reference;
use oci_transport::Transport;
use registry_cache::{
    Answers, Bounds, image_key, keep_digest, keep_image, keep_manifest, keep_referrers,
    known_digest, known_image, known_manifest, known_referrers, list_key, manifest_key,
};
use registry_calls::{ClientCapabilities, SigstoreError};
use std::alloc::Global;

/// A client that caches responses between its calls. A response is returned again to the same call, with no request,
/// for less than 60 seconds from the moment at which it was cached. A call whose reference does not round-trip is
/// always made, and its response is not cached.
#[derive(Drop)]
pub struct OciCachingClient {
    client: Client,
    answers: Answers,
    ghost named: { IsTrue (all_named answers.entries) },
}

impl OciCachingClient {
    ghost use Rattle.std.specs.Prelude.{◌≡◌, [], Some, None};
    ghost use Rattle.engine_terms.specs.declared.settings.Settings.{Settings};
    ghost use Rattle.registry_calls.specs.Clients.{none_kept};
    ghost use Rattle.oci_auth.specs.Kept.{AreWithin};
    ghost use Rattle.sig_registry.specs.States.{engine_state, caching_state, with_few_tokens};
    ghost use Rattle.registry_calls.specs.Log.{IsBacked};

    /// Returns a client that caches all responses.
    pub fn new(alloc: Global, client: Client) -> OciCachingClient
        ensures state { caching_state result ≡ engine_state client (Some (none_kept None)) }
        ensures backed { (s : Settings) → IsBacked s (caching_state result).kept.1 [] }
    {
        OciCachingClient {
            client,
            answers: Answers::new(alloc, None),
        }
    }

    /// Returns a client that caches at most `answers` responses and `bytes` bytes of them: beyond that it evicts the
    /// oldest until the others fit. It stores at most `answers` tokens, but always the latest: beyond that it drops the
    /// oldest.
    pub fn with_bounds(
        alloc: Global,
        mut client: Client,
        answers: u64,
        bytes: u64,
    ) -> OciCachingClient
        ensures state { caching_state result ≡ engine_state (with_few_tokens answers client)
            (Some (none_kept (Some (record { answers = answers; bytes = bytes })))) }
        ensures few { AreWithin (Some answers) (caching_state result).kept.0.tokens.tokens }
        ensures backed { (s : Settings) → IsBacked s (caching_state result).kept.1 [] }
    {
        client.tokens.bound(answers);
        let bounds = Bounds { answers, bytes };
        OciCachingClient {
            client,
            answers: Answers::new(alloc, Some(bounds)),
        }
    }
}

impl ClientCapabilities for OciCachingClient {
    ghost use Rattle.sig_registry.specs.States.{caching_state};

    ghost state = { caching_state };

    fn fetch_manifest_digest<T: Transport>(
        &mut self,
        alloc: Global,
        transport: &mut T,
        moment: u64,
        image: &Reference,
        auth: &RegistryAuth,
    ) -> Result<Text, SigstoreError> {
        let found = manifest_key(alloc, image, auth)?;
        let Some(key) = found else {
            return digest_made(&mut self.client, alloc, transport, moment, image, auth);
        };
        let known = known_digest(alloc, &self.answers, &key, moment)?;
        if let Some(digest) = known {
            return Ok(digest);
        }
        let digest = digest_made(&mut self.client, alloc, transport, moment, image, auth)?;
        keep_digest(alloc, &mut self.answers, key, moment, &digest)?;
        Ok(digest)
    }

    fn pull<T: Transport>(
        &mut self,
        alloc: Global,
        transport: &mut T,
        moment: u64,
        image: &Reference,
        auth: &RegistryAuth,
        accepted_media_types: &[Text],
    ) -> Result<ImageData, SigstoreError> {
        let types = accepted_media_types;
        let found = image_key(alloc, image, auth, types)?;
        let Some(key) = found else {
            return image_made(
                &mut self.client,
                alloc,
                transport,
                moment,
                image,
                auth,
                types,
            );
        };
        let known = known_image(alloc, &self.answers, &key, moment)?;
        if let Some(data) = known {
            return Ok(data);
        }
        let data = image_made(
            &mut self.client,
            alloc,
            transport,
            moment,
            image,
            auth,
            types,
        )?;
        keep_image(alloc, &mut self.answers, key, moment, &data)?;
        Ok(data)
    }

    fn pull_manifest<T: Transport>(
        &mut self,
        alloc: Global,
        transport: &mut T,
        moment: u64,
        image: &Reference,
        auth: &RegistryAuth,
    ) -> Result<(OciManifest, Text), SigstoreError> {
        let found = manifest_key(alloc, image, auth)?;
        let Some(key) = found else {
            return manifest_made(&mut self.client, alloc, transport, moment, image, auth);
        };
        let known = known_manifest(alloc, &self.answers, &key, moment)?;
        if let Some(manifest) = known {
            return Ok(manifest);
        }
        let manifest = manifest_made(&mut self.client, alloc, transport, moment, image, auth)?;
        keep_manifest(alloc, &mut self.answers, key, moment, &manifest)?;
        Ok(manifest)
    }

    fn push<T: Transport>(
        &mut self,
        alloc: Global,
        transport: &mut T,
        moment: u64,
        image_ref: &Reference,
        layers: &[ImageLayer],
        config: Config,
        auth: &RegistryAuth,
        manifest: Option<OciImageManifest>,
    ) -> Result<PushResponse, SigstoreError> {
        push_made(
            &mut self.client,
            alloc,
            transport,
            moment,
            image_ref,
            layers,
            config,
            auth,
            manifest,
        )
    }

    fn pull_referrers<T: Transport>(
        &mut self,
        alloc: Global,
        transport: &mut T,
        moment: u64,
        image: &Reference,
        auth: &RegistryAuth,
        artifact_type: Option<&str>,
    ) -> Result<OciImageIndex, SigstoreError> {
        let found = list_key(alloc, image, auth, artifact_type)?;
        let Some(key) = found else {
            return referrers_made(
                &mut self.client,
                alloc,
                transport,
                moment,
                image,
                auth,
                artifact_type,
            );
        };
        let known = known_referrers(alloc, &self.answers, &key, moment)?;
        if let Some(index) = known {
            return Ok(index);
        }
        let index = referrers_made(
            &mut self.client,
            alloc,
            transport,
            moment,
            image,
            auth,
            artifact_type,
        )?;
        keep_referrers(alloc, &mut self.answers, key, moment, &index)?;
        Ok(index)
    }

    fn pull_manifest_raw<T: Transport>(
        &mut self,
        alloc: Global,
        transport: &mut T,
        moment: u64,
        image: &Reference,
        auth: &RegistryAuth,
        accepted_media_types: &[Text],
    ) -> Result<(Blob, Text), SigstoreError> {
        document_made(
            &mut self.client,
            alloc,
            transport,
            moment,
            image,
            auth,
            accepted_media_types,
        )
    }

    fn pull_blob<T: Transport>(
        &mut self,
        alloc: Global,
        transport: &mut T,
        moment: u64,
        image: &Reference,
        layer: &OciDescriptor,
    ) -> Result<Blob, SigstoreError> {
        blob_made(&mut self.client, alloc, transport, moment, image, layer)
    }

    fn platform_resolver(&self) -> Option<&PlatformResolver> {
        self.client.platform_resolver()
    }
}
