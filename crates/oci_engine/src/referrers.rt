// The call that returns the referrers of a manifest.
ghost use Rattle.std.specs.Prelude.{◌≡◌, IfSome, option_copied};
ghost use Rattle.oci_names.specs.Reference.{digest_of};
ghost use Rattle.oci_protocol.specs.Runs.{Meets};
ghost use Rattle.engine_terms.specs.Error.{is_memory};
ghost use Rattle.engine_requests.specs.ReferrerLists.{referrers_text};
ghost use Rattle.engine_requests.specs.Requests.{manifest_types};
ghost use Rattle.engine_rows.specs.Referrers.{pull_referrers};
ghost use Rattle.engine_rows.specs.Causes.{HasBadHeader, IsEarly};
ghost use Rattle.oci_engine.specs.Confinement.{StaysWithTag};
ghost use Rattle.oci_engine.specs.Kept.{auth_state_of};
ghost use Rattle.oci_engine.specs.Refusals.{RefusedFor, FaultCounted, UrlRefused, at_moment};
ghost use Rattle.oci_engine.specs.Refusals.{ReferrersRefused, DigestWanted};

use crate::client::{Client, lent};
use engine_terms::{Call, OciDistributionError};
use oci_manifests::OciImageIndex;
use oci_names::Reference;
use oci_transport::Transport;
use std::alloc::Global;

impl Client {
    /// Returns the index of the referrers of the image's digest, restricted to an artifact type if one is given. If the
    /// registry responds with 404, the tag that replaces the list is requested (OCI distribution specification,
    /// "Referrers Tag Schema"): if the tag does not exist, the index has no entries. Credentials are those that are
    /// stored.
    pub fn pull_referrers<T: Transport>(
        &mut self,
        alloc: Global,
        transport: &mut T,
        moment: u64,
        image: &Reference,
        artifact_type: Option<&str>,
    ) -> Result<OciImageIndex, OciDistributionError>
        ensures run { Meets is_memory
            (pull_referrers (at_moment self.old moment) image.now (option_copied artifact_type.entry))
            (T.state transport.old) (T.state transport.new) (auth_state_of self.old) (auth_state_of self.new) result }
        ensures settings { self.new.settings ≡ self.old.settings }
        ensures confined { StaysWithTag self.old self.new moment image.now
            (T.state transport.old) (T.state transport.new) }
        ensures causes { RefusedFor (ReferrersRefused self.old moment image.now)
            (T.state transport.old) (T.state transport.new) result }
        ensures fault { FaultCounted (T.state transport.old) (T.state transport.new) result }
        ensures no_digest { DigestWanted image.now result }
        ensures invalid_url { IfSome (digest_of image.now) (λ digest.
            UrlRefused (referrers_text self.old.settings image.now digest) result) }
        ensures bad_header { IfSome (digest_of image.now) (λ digest.
            HasBadHeader self.old.settings manifest_types → IsEarly result) }
    {
        let call = Call {
            settings: &self.settings,
            image,
            moment,
        };
        lent!(
            self,
            memory,
            engine_pull::pull_referrers(alloc, transport, &mut memory, &call, artifact_type)
        )
    }
}
