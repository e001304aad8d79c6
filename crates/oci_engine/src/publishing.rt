// The calls that push manifests and images.
ghost use Rattle.std.specs.Prelude.{◌≡◌, false, Some, None, IfOk};
ghost use Rattle.oci_auth.specs.declared.token_type.RegistryOperation.TheVariants.{Push};
ghost use Rattle.oci_manifests.specs.Document.{content_type_of};
ghost use Rattle.oci_docs.specs.Written.{manifest_text_of};
ghost use Rattle.oci_manifests.specs.declared.document.OciManifest.TheVariants.{Image, ImageIndex};
ghost use Rattle.oci_protocol.specs.Runs.{Meets, Told};
ghost use Rattle.oci_transport.specs.Headers.{is_header_value};
ghost use Rattle.engine_terms.specs.Error.{is_memory};
ghost use Rattle.engine_requests.specs.Addresses.{manifest_text, uploads_text};
ghost use Rattle.engine_rows.specs.Causes.{HasBadHeader, IsEarly};
ghost use Rattle.push_rows.specs.Images.{push_manifest_raw, push_manifest, push_manifest_list, push};
ghost use Rattle.push_rows.specs.Images.{manifest_for};
ghost use Rattle.push_rows.specs.ImageCauses.{blobs_of};
ghost use Rattle.push_rows.specs.Sent.{SendsDocument, SendsImage, NamedManifest};
ghost use Rattle.oci_engine.specs.Confinement.{StaysFor};
ghost use Rattle.oci_engine.specs.Kept.{auth_state_of};
ghost use Rattle.oci_engine.specs.Refusals.{RefusedFor, FaultCounted, UrlRefused, at_moment};
ghost use Rattle.oci_engine.specs.Refusals.{ManifestPushRefused, ImagePushRefused};

use crate::client::{Client, lent};
use engine_push::{PushResponse, PushedImage};
use engine_terms::{Call, OciDistributionError};
use json_values::{Blob, Text};
use oci_auth::RegistryAuth;
use oci_manifests::blob::Config;
use oci_manifests::{ImageLayer, OciImageIndex, OciImageManifest, OciManifest};
use oci_names::Reference;
use oci_transport::Transport;
use std::alloc::Global;

impl Client {
    /// Pushes these bytes as the image's manifest, under this content type, and returns its URL: the
    /// location in the response, or without one the URL by the SHA-256 digest of the bytes, if the URL of the request
    /// ends in the tag, or in `latest` if the reference has no tag. `moment` is in seconds since 1970.
    ///
    /// `RegistryNoLocationError` if there is no location and the URL ends in neither; `GenericError` with `HeaderText`
    /// if the content type is not a valid header value.
    pub fn push_manifest_raw<T: Transport>(
        &mut self,
        alloc: Global,
        transport: &mut T,
        moment: u64,
        image: &Reference,
        body: Blob,
        content_type: &str,
    ) -> Result<Text, OciDistributionError>
        ensures run { Meets is_memory
            (push_manifest_raw (at_moment self.old moment) image.now body content_type.now)
            (T.state transport.old) (T.state transport.new) (auth_state_of self.old) (auth_state_of self.new) result }
        ensures settings { self.new.settings ≡ self.old.settings }
        ensures confined { StaysFor Push self.old self.new moment image.now None
            (T.state transport.old) (T.state transport.new) }
        ensures sends { SendsDocument content_type.now body
            (T.state transport.old) (T.state transport.new) result }
        ensures named { IfOk result (λ url. Told
            (NamedManifest self.old.settings image.now body url)
            (T.state transport.old) (T.state transport.new)) }
        ensures causes { RefusedFor (ManifestPushRefused content_type.now None self.old moment image.now)
            (T.state transport.old) (T.state transport.new) result }
        ensures fault { FaultCounted (T.state transport.old) (T.state transport.new) result }
        ensures invalid_url { UrlRefused (manifest_text self.old.settings image.now) result }
        ensures bad_header { HasBadHeader self.old.settings content_type.now → IsEarly result }
    {
        let call = Call {
            settings: &self.settings,
            image,
            moment,
        };
        lent!(
            self,
            memory,
            engine_push::push_manifest_raw(
                alloc,
                transport,
                &mut memory,
                &call,
                body,
                content_type,
            )
        )
    }

    /// Pushes the text of a manifest or an index, which is written anew: names and strings are in NFC (Unicode Standard
    /// Annex 15), so that a document that was pulled may get another digest; `push_manifest_raw` pushes its bytes as
    /// they are. Its content type is its media type, or without one OCI's for a manifest and Docker's for an index.
    pub fn push_manifest<T: Transport>(
        &mut self,
        alloc: Global,
        transport: &mut T,
        moment: u64,
        image: &Reference,
        manifest: &OciManifest,
    ) -> Result<Text, OciDistributionError>
        ensures run { Meets is_memory (push_manifest (at_moment self.old moment) image.now manifest.now)
            (T.state transport.old) (T.state transport.new) (auth_state_of self.old) (auth_state_of self.new) result }
        ensures settings { self.new.settings ≡ self.old.settings }
        ensures confined { StaysFor Push self.old self.new moment image.now None
            (T.state transport.old) (T.state transport.new) }
        ensures sends { SendsDocument (content_type_of manifest.now) (manifest_text_of manifest.now)
            (T.state transport.old) (T.state transport.new) result }
        ensures named { IfOk result (λ url. Told
            (NamedManifest self.old.settings image.now (manifest_text_of manifest.now) url)
            (T.state transport.old) (T.state transport.new)) }
        ensures causes { RefusedFor
            (ManifestPushRefused (content_type_of manifest.now) None self.old moment image.now)
            (T.state transport.old) (T.state transport.new) result }
        ensures fault { FaultCounted (T.state transport.old) (T.state transport.new) result }
        ensures invalid_url { UrlRefused (manifest_text self.old.settings image.now) result }
        ensures bad_header { HasBadHeader self.old.settings (content_type_of manifest.now) → IsEarly result }
    {
        let call = Call {
            settings: &self.settings,
            image,
            moment,
        };
        lent!(
            self,
            memory,
            engine_push::push_manifest(alloc, transport, &mut memory, &call, manifest)
        )
    }

    /// Pushes the text of an index, as `push_manifest` does.
    pub fn push_manifest_list<T: Transport>(
        &mut self,
        alloc: Global,
        transport: &mut T,
        moment: u64,
        reference: &Reference,
        auth: &RegistryAuth,
        manifest: OciImageIndex,
    ) -> Result<Text, OciDistributionError>
        ensures run { Meets is_memory
            (push_manifest_list (at_moment self.old moment) reference.now auth.now manifest)
            (T.state transport.old) (T.state transport.new) (auth_state_of self.old) (auth_state_of self.new) result }
        ensures settings { self.new.settings ≡ self.old.settings }
        ensures confined { StaysFor Push self.old self.new moment reference.now (Some auth.now)
            (T.state transport.old) (T.state transport.new) }
        ensures sends { SendsDocument (content_type_of (ImageIndex manifest)) (manifest_text_of (ImageIndex manifest))
            (T.state transport.old) (T.state transport.new) result }
        ensures named { IfOk result (λ url. Told
            (NamedManifest self.old.settings reference.now (manifest_text_of (ImageIndex manifest)) url)
            (T.state transport.old) (T.state transport.new)) }
        ensures causes { RefusedFor
            (ManifestPushRefused (content_type_of (ImageIndex manifest)) (Some auth.now)
            self.old moment reference.now)
            (T.state transport.old) (T.state transport.new) result }
        ensures fault { FaultCounted (T.state transport.old) (T.state transport.new) result }
        ensures invalid_url { UrlRefused (manifest_text self.old.settings reference.now) result }
        ensures bad_header { HasBadHeader self.old.settings (content_type_of (ImageIndex manifest))
            → IsEarly result }
    {
        let call = Call {
            settings: &self.settings,
            image: reference,
            moment,
        };
        lent!(
            self,
            memory,
            engine_push::push_manifest_list(alloc, transport, &mut memory, &call, auth, manifest,)
        )
    }

    /// Pushes an image: its layers in order, its configuration, then its manifest, which is the one passed in or
    /// is built from them without annotations. Layers go under the manifest's digests if it has as many layers, else
    /// under their SHA-256 digests, and the configuration under the manifest's digest of it; the bytes are not compared
    /// with these. Every blob is sent, also one that the registry has.
    pub fn push<T: Transport>(
        &mut self,
        alloc: Global,
        transport: &mut T,
        moment: u64,
        image_ref: &Reference,
        layers: &[ImageLayer],
        config: Config,
        auth: &RegistryAuth,
        manifest: Option<OciImageManifest>,
    ) -> Result<PushResponse, OciDistributionError>
        ensures run { Meets is_memory
            (push (at_moment self.old moment) image_ref.now layers.now config auth.now manifest)
            (T.state transport.old) (T.state transport.new) (auth_state_of self.old) (auth_state_of self.new) result }
        ensures settings { self.new.settings ≡ self.old.settings }
        ensures confined { StaysFor Push self.old self.new moment image_ref.now (Some auth.now)
            (T.state transport.old) (T.state transport.new) }
        ensures sends { SendsImage (blobs_of layers.now config)
            (manifest_text_of (Image (manifest_for manifest layers.now config)))
            (T.state transport.old) (T.state transport.new) result }
        ensures causes { RefusedFor
            (ImagePushRefused layers.now config self.old moment image_ref.now auth.now manifest)
            (T.state transport.old) (T.state transport.new) result }
        ensures fault { FaultCounted (T.state transport.old) (T.state transport.new) result }
        ensures invalid_url { UrlRefused (uploads_text self.old.settings image_ref.now) result }
        ensures bad_header { is_header_value self.old.settings.user_agent ≡ false → IsEarly result }
    {
        let call = Call {
            settings: &self.settings,
            image: image_ref,
            moment,
        };
        let image = PushedImage {
            layers,
            config: &config,
            manifest,
        };
        lent!(
            self,
            memory,
            engine_push::push(alloc, transport, &mut memory, &call, auth, image)
        )
    }
}
