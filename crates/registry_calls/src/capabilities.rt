// The calls that the search needs of a client.
ghost use Rattle.std.specs.Prelude.{◌≡◌, Some, None, IfOk, IsTrue, option_copied};
ghost use Rattle.engine_terms.specs.declared.settings.Settings.{Settings};
ghost use Rattle.engine_terms.specs.Contexts.{within};
ghost use Rattle.engine_requests.specs.Requests.{listed};
ghost use Rattle.engine_requests.specs.Sources.{described};
ghost use Rattle.registry_cache.specs.KeptCalls.{digests, manifests, images, referrers};
ghost use Rattle.registry_calls.specs.Calls.{digest_call, manifest_call, image_call, document_call, blob_call};
ghost use Rattle.registry_calls.specs.Calls.{referrers_call, push_call};
ghost use Rattle.registry_calls.specs.Clients.{Client, ClientMeets, KeepsAnswers, RefusalKeeps};
ghost use Rattle.registry_calls.specs.Confinement.{StaysConfined, StaysForPush, StaysWithTag};
ghost use Rattle.registry_calls.specs.Error.{is_memory, FaultCounted, NoSinkFault, registry_refusal};
ghost use Rattle.registry_calls.specs.Log.{DigestCall, ManifestCall, ImageCall, ReferrersCall, Recalled, Logged};
ghost use Rattle.registry_calls.specs.Named.{is_named};

use crate::error::SigstoreError;
use engine_rows::ImageData;
use json_values::{Blob, Text};
use oci_auth::RegistryAuth;
use oci_manifests::blob::Config;
use oci_manifests::{
    ImageLayer, OciDescriptor, OciImageIndex, OciImageManifest, OciManifest, PlatformResolver,
};
use oci_names::Reference;
use oci_transport::Transport;
use push_rows::PushResponse;
use std::alloc::Global;

/// The calls of a registry's client. Each performs one row of requests with a result, whatever it caches: a caching
/// client returns a response again that it cached less than 60 seconds before for the same arguments.
pub trait ClientCapabilities {
    /// The settings and what is kept: credentials and tokens, and cached responses.
    ghost state: { Self → Client };

    /// Returns the digest of the image's manifest or index; an error is `RegistryFetchManifestError`.
    fn fetch_manifest_digest<T: Transport>(
        &mut self,
        alloc: Global,
        transport: &mut T,
        moment: u64,
        image: &Reference,
        auth: &RegistryAuth,
    ) -> Result<Text, SigstoreError>
        ensures run { (s : Settings) → ClientMeets is_memory s (digest_call (within s moment) image.now auth.now)
            (state self.old) (state self.new) (T.state transport.old) (T.state transport.new) result }
        ensures fault { FaultCounted registry_refusal (T.state transport.old) (T.state transport.new) result }
        ensures no_sink_fault { NoSinkFault registry_refusal result }
        ensures confined { StaysConfined (state self.old) (state self.new) moment image.now (Some auth.now)
            (T.state transport.old) (T.state transport.new) }
        ensures refused { RefusalKeeps (state self.old) (state self.new) result }
        ensures recalled { Recalled digests (DigestCall image.now auth.now) moment
            (state self.old) (state self.new) (T.state transport.old) (T.state transport.new) result }
        ensures logged { (s : Settings) → Logged s digests (DigestCall image.now auth.now) moment
            (state self.old) (state self.new) (T.state transport.old) (T.state transport.new) result };

    /// Returns the image with its blobs; an error is `RegistryPullError`.
    fn pull<T: Transport>(
        &mut self,
        alloc: Global,
        transport: &mut T,
        moment: u64,
        image: &Reference,
        auth: &RegistryAuth,
        accepted_media_types: &[Text],
    ) -> Result<ImageData, SigstoreError>
        ensures run { (s : Settings)
            → ClientMeets is_memory s (image_call (within s moment) image.now auth.now accepted_media_types.now)
            (state self.old) (state self.new) (T.state transport.old) (T.state transport.new) result }
        ensures fault { FaultCounted registry_refusal (T.state transport.old) (T.state transport.new) result }
        ensures no_sink_fault { NoSinkFault registry_refusal result }
        ensures confined { StaysConfined (state self.old) (state self.new) moment image.now (Some auth.now)
            (T.state transport.old) (T.state transport.new) }
        ensures refused { RefusalKeeps (state self.old) (state self.new) result }
        ensures recalled { Recalled images (ImageCall image.now auth.now accepted_media_types.now) moment
            (state self.old) (state self.new) (T.state transport.old) (T.state transport.new) result }
        ensures logged { (s : Settings) → Logged s images (ImageCall image.now auth.now accepted_media_types.now) moment
            (state self.old) (state self.new) (T.state transport.old) (T.state transport.new) result }
        ensures named { IfOk result (λ image. IsTrue (is_named image)) };

    /// Returns the image's manifest or index with its digest; an error is `RegistryPullManifestError`.
    fn pull_manifest<T: Transport>(
        &mut self,
        alloc: Global,
        transport: &mut T,
        moment: u64,
        image: &Reference,
        auth: &RegistryAuth,
    ) -> Result<(OciManifest, Text), SigstoreError>
        ensures run { (s : Settings) → ClientMeets is_memory s (manifest_call (within s moment) image.now auth.now)
            (state self.old) (state self.new) (T.state transport.old) (T.state transport.new) result }
        ensures fault { FaultCounted registry_refusal (T.state transport.old) (T.state transport.new) result }
        ensures no_sink_fault { NoSinkFault registry_refusal result }
        ensures confined { StaysConfined (state self.old) (state self.new) moment image.now (Some auth.now)
            (T.state transport.old) (T.state transport.new) }
        ensures refused { RefusalKeeps (state self.old) (state self.new) result }
        ensures recalled { Recalled manifests (ManifestCall image.now auth.now) moment
            (state self.old) (state self.new) (T.state transport.old) (T.state transport.new) result }
        ensures logged { (s : Settings) → Logged s manifests (ManifestCall image.now auth.now) moment
            (state self.old) (state self.new) (T.state transport.old) (T.state transport.new) result };

    /// Pushes an image: its layers in order, its configuration, then its manifest, which is the one passed in or
    /// is built from them without annotations; an error is `RegistryPushError`.
    fn push<T: Transport>(
        &mut self,
        alloc: Global,
        transport: &mut T,
        moment: u64,
        image_ref: &Reference,
        layers: &[ImageLayer],
        config: Config,
        auth: &RegistryAuth,
        manifest: Option<OciImageManifest>,
    ) -> Result<PushResponse, SigstoreError>
        ensures run { (s : Settings) → ClientMeets is_memory s
            (push_call (within s moment) image_ref.now layers.now config auth.now manifest)
            (state self.old) (state self.new) (T.state transport.old) (T.state transport.new) result }
        ensures fault { FaultCounted registry_refusal (T.state transport.old) (T.state transport.new) result }
        ensures no_sink_fault { NoSinkFault registry_refusal result }
        ensures confined { StaysForPush (state self.old) (state self.new) moment image_ref.now (Some auth.now)
            (T.state transport.old) (T.state transport.new) }
        ensures answers { KeepsAnswers (state self.old) (state self.new) };

    /// Returns the index of the image digest's referrers, only of this artifact type if one is given. A token is
    /// obtained first; its error is `RegistryFetchManifestError`, any other error is `RegistryPullManifestError`.
    fn pull_referrers<T: Transport>(
        &mut self,
        alloc: Global,
        transport: &mut T,
        moment: u64,
        image: &Reference,
        auth: &RegistryAuth,
        artifact_type: Option<&str>,
    ) -> Result<OciImageIndex, SigstoreError>
        ensures run { (s : Settings)
            → ClientMeets is_memory s
            (referrers_call (within s moment) image.now auth.now (option_copied artifact_type.entry))
            (state self.old) (state self.new) (T.state transport.old) (T.state transport.new) result }
        ensures fault { FaultCounted registry_refusal (T.state transport.old) (T.state transport.new) result }
        ensures no_sink_fault { NoSinkFault registry_refusal result }
        ensures confined { StaysWithTag (state self.old) (state self.new) moment image.now (Some auth.now)
            (T.state transport.old) (T.state transport.new) }
        ensures refused { RefusalKeeps (state self.old) (state self.new) result }
        ensures recalled { Recalled referrers
            (ReferrersCall image.now auth.now (option_copied artifact_type.entry)) moment
            (state self.old) (state self.new) (T.state transport.old) (T.state transport.new) result }
        ensures logged { (s : Settings) → Logged s referrers
            (ReferrersCall image.now auth.now (option_copied artifact_type.entry)) moment
            (state self.old) (state self.new) (T.state transport.old) (T.state transport.new) result };

    /// Returns the bytes of the image's manifest or index with their digest; an error is `RegistryPullError`.
    fn pull_manifest_raw<T: Transport>(
        &mut self,
        alloc: Global,
        transport: &mut T,
        moment: u64,
        image: &Reference,
        auth: &RegistryAuth,
        accepted_media_types: &[Text],
    ) -> Result<(Blob, Text), SigstoreError>
        ensures run { (s : Settings)
            → ClientMeets is_memory s
            (document_call (within s moment) image.now auth.now (listed accepted_media_types.now))
            (state self.old) (state self.new) (T.state transport.old) (T.state transport.new) result }
        ensures fault { FaultCounted registry_refusal (T.state transport.old) (T.state transport.new) result }
        ensures no_sink_fault { NoSinkFault registry_refusal result }
        ensures confined { StaysConfined (state self.old) (state self.new) moment image.now (Some auth.now)
            (T.state transport.old) (T.state transport.new) }
        ensures answers { KeepsAnswers (state self.old) (state self.new) };

    /// Returns the bytes of the descriptor's blob; the descriptor may list URLs. An error is `RegistryPullError`.
    fn pull_blob<T: Transport>(
        &mut self,
        alloc: Global,
        transport: &mut T,
        moment: u64,
        image: &Reference,
        layer: &OciDescriptor,
    ) -> Result<Blob, SigstoreError>
        ensures run { (s : Settings)
            → ClientMeets is_memory s (blob_call (within s moment) image.now (described layer.now))
            (state self.old) (state self.new) (T.state transport.old) (T.state transport.new) result }
        ensures fault { FaultCounted registry_refusal (T.state transport.old) (T.state transport.new) result }
        ensures no_sink_fault { NoSinkFault registry_refusal result }
        ensures confined { StaysConfined (state self.old) (state self.new) moment image.now None
            (T.state transport.old) (T.state transport.new) }
        ensures answers { KeepsAnswers (state self.old) (state self.new) };

    /// Returns the platform resolver of the client's configuration, if it has one.
    fn platform_resolver(&self) -> Option<&PlatformResolver>
        ensures resolver { option_copied result ≡ (state self.now).settings.platform_resolver };
}
