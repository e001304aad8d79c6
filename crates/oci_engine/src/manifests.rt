// The calls that return the manifest of an image, to which an index may lead.
ghost use Rattle.std.specs.Prelude.{◌≡◌, Some};
ghost use Rattle.oci_protocol.specs.Runs.{Meets};
ghost use Rattle.engine_requests.specs.Addresses.{manifest_text};
ghost use Rattle.engine_terms.specs.Error.{is_memory};
ghost use Rattle.engine_requests.specs.Requests.{manifest_types};
ghost use Rattle.engine_rows.specs.Manifests.{pull_image_manifest, pull_image_manifest_and_list_digest};
ghost use Rattle.engine_rows.specs.Manifests.{pull_manifest_and_config, pull_manifest_and_config_and_list_digest};
ghost use Rattle.engine_rows.specs.Causes.{HasBadHeader, IsEarly};
ghost use Rattle.oci_engine.specs.Confinement.{StaysConfined};
ghost use Rattle.oci_engine.specs.Kept.{auth_state_of};
ghost use Rattle.oci_engine.specs.Refusals.{RefusedFor, FaultCounted, UrlRefused, at_moment};
ghost use Rattle.oci_engine.specs.Refusals.{FoundRefused, ConfigRefused};

use crate::client::{Client, lent};
use engine_terms::{Call, OciDistributionError};
use json_values::Text;
use oci_auth::RegistryAuth;
use oci_manifests::OciImageManifest;
use oci_names::Reference;
use oci_transport::Transport;
use std::alloc::Global;

impl Client {
    /// Returns the manifest of an image with its digest, and the digest of the index that led to it, if one did. The
    /// resolver of the configuration selects the entry of an index.
    pub fn pull_image_manifest_and_list_digest<T: Transport>(
        &mut self,
        alloc: Global,
        transport: &mut T,
        moment: u64,
        image: &Reference,
        auth: &RegistryAuth,
    ) -> Result<(OciImageManifest, Text, Option<Text>), OciDistributionError>
        ensures run { Meets is_memory
            (pull_image_manifest_and_list_digest (at_moment self.old moment) image.now auth.now)
            (T.state transport.old) (T.state transport.new) (auth_state_of self.old) (auth_state_of self.new) result }
        ensures settings { self.new.settings ≡ self.old.settings }
        ensures confined { StaysConfined self.old self.new moment image.now (Some auth.now)
            (T.state transport.old) (T.state transport.new) }
        ensures causes { RefusedFor (FoundRefused self.old moment image.now auth.now)
            (T.state transport.old) (T.state transport.new) result }
        ensures fault { FaultCounted (T.state transport.old) (T.state transport.new) result }
        ensures invalid_url { UrlRefused (manifest_text self.old.settings image.now) result }
        ensures bad_header { HasBadHeader self.old.settings manifest_types → IsEarly result }
    {
        let call = Call {
            settings: &self.settings,
            image,
            moment,
        };
        lent!(
            self,
            memory,
            engine_pull::pull_image_manifest_and_list_digest(
                alloc,
                transport,
                &mut memory,
                &call,
                auth,
            )
        )
    }

    /// Returns the manifest of an image with its digest.
    pub fn pull_image_manifest<T: Transport>(
        &mut self,
        alloc: Global,
        transport: &mut T,
        moment: u64,
        image: &Reference,
        auth: &RegistryAuth,
    ) -> Result<(OciImageManifest, Text), OciDistributionError>
        ensures run { Meets is_memory (pull_image_manifest (at_moment self.old moment) image.now auth.now)
            (T.state transport.old) (T.state transport.new) (auth_state_of self.old) (auth_state_of self.new) result }
        ensures settings { self.new.settings ≡ self.old.settings }
        ensures confined { StaysConfined self.old self.new moment image.now (Some auth.now)
            (T.state transport.old) (T.state transport.new) }
        ensures causes { RefusedFor (FoundRefused self.old moment image.now auth.now)
            (T.state transport.old) (T.state transport.new) result }
        ensures fault { FaultCounted (T.state transport.old) (T.state transport.new) result }
        ensures invalid_url { UrlRefused (manifest_text self.old.settings image.now) result }
        ensures bad_header { HasBadHeader self.old.settings manifest_types → IsEarly result }
    {
        let call = Call {
            settings: &self.settings,
            image,
            moment,
        };
        lent!(
            self,
            memory,
            engine_pull::pull_image_manifest(alloc, transport, &mut memory, &call, auth)
        )
    }

    /// Returns the manifest of an image with its digest, its configuration as text, and the digest of the index that
    /// led to it, if one did.
    pub fn pull_manifest_and_config_and_list_digest<T: Transport>(
        &mut self,
        alloc: Global,
        transport: &mut T,
        moment: u64,
        image: &Reference,
        auth: &RegistryAuth,
    ) -> Result<(OciImageManifest, Text, Text, Option<Text>), OciDistributionError>
        ensures run { Meets is_memory
            (pull_manifest_and_config_and_list_digest (at_moment self.old moment) image.now auth.now)
            (T.state transport.old) (T.state transport.new) (auth_state_of self.old) (auth_state_of self.new) result }
        ensures settings { self.new.settings ≡ self.old.settings }
        ensures confined { StaysConfined self.old self.new moment image.now (Some auth.now)
            (T.state transport.old) (T.state transport.new) }
        ensures causes { RefusedFor (ConfigRefused self.old moment image.now auth.now)
            (T.state transport.old) (T.state transport.new) result }
        ensures fault { FaultCounted (T.state transport.old) (T.state transport.new) result }
        ensures invalid_url { UrlRefused (manifest_text self.old.settings image.now) result }
        ensures bad_header { HasBadHeader self.old.settings manifest_types → IsEarly result }
    {
        let call = Call {
            settings: &self.settings,
            image,
            moment,
        };
        lent!(
            self,
            memory,
            engine_pull::pull_manifest_and_config_and_list_digest(
                alloc,
                transport,
                &mut memory,
                &call,
                auth,
            )
        )
    }

    /// Returns the manifest of an image with its digest, and its configuration as text.
    pub fn pull_manifest_and_config<T: Transport>(
        &mut self,
        alloc: Global,
        transport: &mut T,
        moment: u64,
        image: &Reference,
        auth: &RegistryAuth,
    ) -> Result<(OciImageManifest, Text, Text), OciDistributionError>
        ensures run { Meets is_memory (pull_manifest_and_config (at_moment self.old moment) image.now auth.now)
            (T.state transport.old) (T.state transport.new) (auth_state_of self.old) (auth_state_of self.new) result }
        ensures settings { self.new.settings ≡ self.old.settings }
        ensures confined { StaysConfined self.old self.new moment image.now (Some auth.now)
            (T.state transport.old) (T.state transport.new) }
        ensures causes { RefusedFor (ConfigRefused self.old moment image.now auth.now)
            (T.state transport.old) (T.state transport.new) result }
        ensures fault { FaultCounted (T.state transport.old) (T.state transport.new) result }
        ensures invalid_url { UrlRefused (manifest_text self.old.settings image.now) result }
        ensures bad_header { HasBadHeader self.old.settings manifest_types → IsEarly result }
    {
        let call = Call {
            settings: &self.settings,
            image,
            moment,
        };
        lent!(
            self,
            memory,
            engine_pull::pull_manifest_and_config(alloc, transport, &mut memory, &call, auth)
        )
    }
}
