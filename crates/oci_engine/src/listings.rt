// The calls that list tags and repositories, and the one that asks whether a blob is there.
ghost use Rattle.std.specs.Prelude.{◌≡◌, false, Some, None, IfOk, option_copied};
ghost use Rattle.oci_docs.specs.Catalog.{catalog_response_of};
ghost use Rattle.oci_docs.specs.Tags.{tag_response_of};
ghost use Rattle.oci_auth.specs.declared.token_type.RegistryOperation.TheVariants.{Pull};
ghost use Rattle.oci_protocol.specs.Runs.{Meets, Told};
ghost use Rattle.oci_transport.specs.Headers.{is_header_value};
ghost use Rattle.engine_terms.specs.Error.{is_memory};
ghost use Rattle.engine_requests.specs.Addresses.{blob_text};
ghost use Rattle.engine_rows.specs.Causes.{IsEarly};
ghost use Rattle.engine_pull.specs.Causes.{ExistsAnswered, ListAnswered};
ghost use Rattle.engine_pull.specs.Listings.{blob_exists, list_tags, catalog, tags_text, catalog_text};
ghost use Rattle.oci_engine.specs.Confinement.{StaysFor};
ghost use Rattle.oci_engine.specs.Kept.{auth_state_of};
ghost use Rattle.oci_engine.specs.Refusals.{RefusedFor, FaultCounted, UrlRefused, at_moment};
ghost use Rattle.oci_engine.specs.Refusals.{ExistsRefused, TagsRefused, CatalogRefused};

use crate::client::{Client, lent};
use engine_terms::{Call, OciDistributionError};
use oci_auth::RegistryAuth;
use oci_docs::{CatalogResponse, TagResponse};
use oci_names::Reference;
use oci_transport::Transport;
use std::alloc::Global;

impl Client {
    /// Returns whether the image's repository has the blob of this digest: `true` after a 2xx status, `false` after
    /// 404; any other status is refused. No header that names a digest is read. Credentials are those that are stored.
    /// `moment` is in seconds since 1970.
    pub fn blob_exists<T: Transport>(
        &mut self,
        alloc: Global,
        transport: &mut T,
        moment: u64,
        image: &Reference,
        digest: &str,
    ) -> Result<bool, OciDistributionError>
        ensures run { Meets is_memory (blob_exists (at_moment self.old moment) image.now digest.now)
            (T.state transport.old) (T.state transport.new) (auth_state_of self.old) (auth_state_of self.new) result }
        ensures settings { self.new.settings ≡ self.old.settings }
        ensures confined { StaysFor Pull self.old self.new moment image.now None
            (T.state transport.old) (T.state transport.new) }
        ensures answered { IfOk result (λ there. Told
            (ExistsAnswered self.old.settings image.now digest.now there)
            (T.state transport.old) (T.state transport.new)) }
        ensures causes { RefusedFor (ExistsRefused self.old moment image.now digest.now)
            (T.state transport.old) (T.state transport.new) result }
        ensures fault { FaultCounted (T.state transport.old) (T.state transport.new) result }
        ensures invalid_url { UrlRefused (blob_text self.old.settings image.now digest.now) result }
        ensures bad_header { is_header_value self.old.settings.user_agent ≡ false → IsEarly result }
    {
        let call = Call {
            settings: &self.settings,
            image,
            moment,
        };
        lent!(
            self,
            memory,
            engine_pull::blob_exists(alloc, transport, &mut memory, &call, digest)
        )
    }

    /// Returns the tags of the image's repository (OCI distribution specification, "Listing Tags"). At most `n` are
    /// requested, after the tag `last`; a registry may ignore both, and give the tags in any order.
    ///
    /// `ManifestEncodingError` if the body of the response is not UTF-8, `JsonError` if it is not a list of tags; each
    /// contains the body.
    pub fn list_tags<T: Transport>(
        &mut self,
        alloc: Global,
        transport: &mut T,
        moment: u64,
        image: &Reference,
        auth: &RegistryAuth,
        n: Option<usize>,
        last: Option<&str>,
    ) -> Result<TagResponse, OciDistributionError>
        ensures run { Meets is_memory
            (list_tags (at_moment self.old moment) image.now auth.now n (option_copied last.entry))
            (T.state transport.old) (T.state transport.new) (auth_state_of self.old) (auth_state_of self.new) result }
        ensures settings { self.new.settings ≡ self.old.settings }
        ensures confined { StaysFor Pull self.old self.new moment image.now (Some auth.now)
            (T.state transport.old) (T.state transport.new) }
        ensures answered { IfOk result (λ tags. Told
            (ListAnswered tag_response_of self.old.settings image.now
            (tags_text self.old.settings image.now) n (option_copied last.entry) tags)
            (T.state transport.old) (T.state transport.new)) }
        ensures causes { RefusedFor
            (TagsRefused self.old moment image.now auth.now n (option_copied last.entry))
            (T.state transport.old) (T.state transport.new) result }
        ensures fault { FaultCounted (T.state transport.old) (T.state transport.new) result }
        ensures invalid_url { UrlRefused (tags_text self.old.settings image.now) result }
        ensures bad_header { is_header_value self.old.settings.user_agent ≡ false → IsEarly result }
    {
        let call = Call {
            settings: &self.settings,
            image,
            moment,
        };
        lent!(
            self,
            memory,
            engine_pull::list_tags(alloc, transport, &mut memory, &call, auth, n, last)
        )
    }

    /// Returns the repositories of the image's registry (Docker Registry HTTP API V2, "Listing Repositories"). At most
    /// `n` are requested, after the repository `last`; a registry may ignore both.
    ///
    /// `ManifestEncodingError` if the body of the response is not UTF-8, `JsonError` if it is not a list of
    /// repositories; each contains the body.
    pub fn catalog<T: Transport>(
        &mut self,
        alloc: Global,
        transport: &mut T,
        moment: u64,
        image: &Reference,
        auth: &RegistryAuth,
        n: Option<usize>,
        last: Option<&str>,
    ) -> Result<CatalogResponse, OciDistributionError>
        ensures run { Meets is_memory
            (catalog (at_moment self.old moment) image.now auth.now n (option_copied last.entry))
            (T.state transport.old) (T.state transport.new) (auth_state_of self.old) (auth_state_of self.new) result }
        ensures settings { self.new.settings ≡ self.old.settings }
        ensures confined { StaysFor Pull self.old self.new moment image.now (Some auth.now)
            (T.state transport.old) (T.state transport.new) }
        ensures answered { IfOk result (λ repositories. Told
            (ListAnswered catalog_response_of self.old.settings image.now
            (catalog_text self.old.settings image.now) n (option_copied last.entry) repositories)
            (T.state transport.old) (T.state transport.new)) }
        ensures causes { RefusedFor
            (CatalogRefused self.old moment image.now auth.now n (option_copied last.entry))
            (T.state transport.old) (T.state transport.new) result }
        ensures fault { FaultCounted (T.state transport.old) (T.state transport.new) result }
        ensures invalid_url { UrlRefused (catalog_text self.old.settings image.now) result }
        ensures bad_header { is_header_value self.old.settings.user_agent ≡ false → IsEarly result }
    {
        let call = Call {
            settings: &self.settings,
            image,
            moment,
        };
        lent!(
            self,
            memory,
            engine_pull::catalog(alloc, transport, &mut memory, &call, auth, n, last)
        )
    }
}
