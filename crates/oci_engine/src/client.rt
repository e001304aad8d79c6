// The calls that users make.
ghost use Rattle.std.specs.Prelude.{◌≡◌, ℕ, List, Some, None, OnOk, OnErr, Err, IfOk, option_copied};
ghost use Rattle.json_values.specs.Counts.{Increased};
ghost use Rattle.oci_digests.specs.Names.{Names};
ghost use Rattle.oci_names.specs.Reference.{digest_of};
ghost use Rattle.oci_protocol.specs.Runs.{Meets, Told};
ghost use Rattle.engine_requests.specs.Addresses.{manifest_text, blob_text};
ghost use Rattle.engine_terms.specs.Error.{is_memory};
ghost use Rattle.engine_requests.specs.Requests.{listed, manifest_types};
ghost use Rattle.engine_rows.specs.Blobs.{IntoSink, IntoMemory, MeetsIntoSink};
ghost use Rattle.engine_rows.specs.Rows.{token_given};
ghost use Rattle.engine_steps.specs.BodyUnread.{LastBodyUnread};
ghost use Rattle.oci_auth.specs.AuthState.{fresh, stored};
ghost use Rattle.engine_rows.specs.Pulls.{fetch_manifest_digest, pull_manifest, pull_manifest_raw};
ghost use Rattle.engine_rows.specs.Pulls.{pull_blob, held_blob};
ghost use Rattle.engine_rows.specs.Image.{pull};
ghost use Rattle.engine_rows.specs.Answered.{DigestAnswered, Body, LastBody, TookBlob};
ghost use Rattle.engine_rows.specs.Causes.{HasBadHeader, IsEarly};
ghost use Rattle.oci_engine.specs.Clients.{settings_of, default_config};
ghost use Rattle.oci_engine.specs.Kept.{auth_state_of};
ghost use Rattle.oci_engine.specs.Confinement.{StaysConfined, StaysFor};
ghost use Rattle.oci_engine.specs.Refusals.{RefusedFor, FaultCounted, UrlRefused, at_moment};
ghost use Rattle.oci_engine.specs.Refusals.{DigestRefused, DocumentRefused, ManifestRefused};
ghost use Rattle.oci_engine.specs.Refusals.{PullRefused, BlobRefused};
ghost use Rattle.engine_rows.specs.TokenCauses.{TokenCause};

use crate::config::ClientConfig;
use crate::source::ClientConfigSource;
use byte_streams::Sink;
use engine_requests::AsLayerDescriptor;
use engine_rows::ImageData;
use engine_terms::{Call, OciDistributionError, Settings};
use json_values::{Blob, Text, TextMap};
use oci_auth::{AuthState, RegistryAuth, RegistryOperation, TokenCache};
use oci_manifests::{OciManifest, PlatformResolver};
use oci_names::Reference;
use oci_transport::Transport;
use std::alloc::{AllocError, Global};
use std::mem;

/// A client of registries. Each call sends the requests of its row over the transport that is passed in.
#[derive(Drop)]
pub struct Client {
    pub settings: Settings,
    /// The credentials that are stored, by registry.
    pub credentials: TextMap<RegistryAuth>,
    /// The tokens that are stored between the calls.
    pub tokens: TokenCache,
}

// The client state, moved out for a call: the crates below borrow it as one value.
pub(crate) fn lend(credentials: &mut TextMap<RegistryAuth>, tokens: &mut TokenCache) -> AuthState
    ensures { result ≡ record { credentials = credentials.old; tokens = tokens.old } }
{
    let alloc = tokens.alloc();
    AuthState {
        credentials: mem::replace(credentials, TextMap::new(alloc)),
        tokens: mem::replace(tokens, TokenCache::new(alloc, 0)),
    }
}

// The result of a call that borrows the client state, which is moved back after it.
macro_rules! lent {
    ($client:ident, $memory:ident, $call:expr) => {{
        let mut $memory = crate::client::lend(&mut $client.credentials, &mut $client.tokens);
        let answer = $call;
        $client.credentials = $memory.credentials;
        $client.tokens = $memory.tokens;
        answer
    }};
}

pub(crate) use lent;

impl Client {
    pub fn new(alloc: Global, config: ClientConfig) -> Client
        ensures settings { result.settings ≡ settings_of config }
        ensures fresh { auth_state_of result ≡ fresh config.default_token_expiration_secs }
    {
        let ClientConfig {
            protocol,
            use_monolithic_push,
            platform_resolver,
            default_token_expiration_secs,
            user_agent,
            max_body_bytes,
            ..
        } = config;
        let AuthState {
            credentials,
            tokens,
        } = AuthState::new(alloc, default_token_expiration_secs);
        Client {
            settings: Settings {
                protocol,
                user_agent,
                max_body_bytes,
                use_monolithic_push,
                platform_resolver,
            },
            credentials,
            tokens,
        }
    }

    /// Returns the client of the configuration that the source gives.
    pub fn from_source<S: ClientConfigSource>(
        alloc: Global,
        source: &S,
    ) -> Result<Client, AllocError>
        ensures settings { IfOk result (λ client. client.settings ≡ settings_of (S.configured source.now)) }
        ensures fresh { IfOk result
            (λ client. auth_state_of client ≡ fresh (S.configured source.now).default_token_expiration_secs) }
    {
        let config = source.client_config(alloc)?;
        Ok(Client::new(alloc, config))
    }

    /// Returns the client of the default configuration.
    pub fn default(alloc: Global) -> Result<Client, AllocError>
        ensures settings { IfOk result (λ client. client.settings ≡ settings_of default_config) }
        ensures fresh { IfOk result (λ client. auth_state_of client ≡ fresh 60) }
    {
        let config = ClientConfig::default(alloc)?;
        Ok(Client::new(alloc, config))
    }

    /// Returns the resolver that selects an entry of an index, if the configuration has one.
    pub fn platform_resolver(&self) -> Option<&PlatformResolver>
        ensures { option_copied result ≡ self.now.settings.platform_resolver }
    {
        self.settings.platform_resolver.as_ref()
    }

    /// Stores credentials for a registry. Never replaces those that are already stored.
    pub fn store_auth_if_needed(
        &mut self,
        registry: &str,
        auth: &RegistryAuth,
    ) -> Result<(), AllocError>
        ensures ok { OnOk result
            (auth_state_of self.new ≡ stored (auth_state_of self.old) registry.now auth.now) }
        ensures settings { self.new.settings ≡ self.old.settings }
        ensures err { OnErr result (self.new ≡ self.old) }
    {
        let alloc = self.tokens.alloc();
        lent!(
            self,
            memory,
            oci_auth::store(alloc, &mut memory, registry, auth)
        )
    }

    /// Stores credentials, obtains their token for the operation, and stores it. Returns the text of a token, or `None`
    /// if the registry requires no token or the credentials themselves. `moment` is in seconds since 1970.
    pub fn auth<T: Transport>(
        &mut self,
        alloc: Global,
        transport: &mut T,
        moment: u64,
        image: &Reference,
        authentication: &RegistryAuth,
        operation: RegistryOperation,
    ) -> Result<Option<Text>, OciDistributionError>
        ensures run { Meets is_memory (token_given (at_moment self.old moment) image.now authentication.now operation)
            (T.state transport.old) (T.state transport.new) (auth_state_of self.old) (auth_state_of self.new) result }
        ensures settings { self.new.settings ≡ self.old.settings }
        ensures confined { StaysFor operation self.old self.new moment image.now (Some authentication.now)
            (T.state transport.old) (T.state transport.new) }
        ensures causes { RefusedFor (TokenCause self.old.settings image.now authentication.now)
            (T.state transport.old) (T.state transport.new) result }
        ensures fault { FaultCounted (T.state transport.old) (T.state transport.new) result }
        ensures body_unread { IfOk result
            (λ text. text ≡ None → LastBodyUnread (T.state transport.old) (T.state transport.new)) }
    {
        let call = Call {
            settings: &self.settings,
            image,
            moment,
        };
        lent!(
            self,
            memory,
            engine_steps::token_given(
                alloc,
                transport,
                &mut memory,
                &call,
                authentication,
                operation,
            )
        )
    }

    /// Returns the digest of the image's manifest or index, as the registry names it. `moment` is in seconds since
    /// 1970.
    pub fn fetch_manifest_digest<T: Transport>(
        &mut self,
        alloc: Global,
        transport: &mut T,
        moment: u64,
        image: &Reference,
        auth: &RegistryAuth,
    ) -> Result<Text, OciDistributionError>
        ensures run { Meets is_memory (fetch_manifest_digest (at_moment self.old moment) image.now auth.now)
            (T.state transport.old) (T.state transport.new) (auth_state_of self.old) (auth_state_of self.new) result }
        ensures settings { self.new.settings ≡ self.old.settings }
        ensures confined { StaysConfined self.old self.new moment image.now (Some auth.now)
            (T.state transport.old) (T.state transport.new) }
        ensures answered { IfOk result (λ d. Told (λ c. DigestAnswered self.old.settings image.now c d)
            (T.state transport.old) (T.state transport.new)) }
        ensures causes { RefusedFor (DigestRefused self.old moment image.now auth.now)
            (T.state transport.old) (T.state transport.new) result }
        ensures fault { FaultCounted (T.state transport.old) (T.state transport.new) result }
        ensures invalid_url { UrlRefused (manifest_text self.old.settings image.now) result }
        ensures bad_header { HasBadHeader self.old.settings manifest_types → IsEarly result }
    {
        let call = Call {
            settings: &self.settings,
            image,
            moment,
        };
        lent!(
            self,
            memory,
            engine_pull::fetch_manifest_digest(alloc, transport, &mut memory, &call, auth)
        )
    }

    /// Returns the bytes of the image's manifest or index, with their digest.
    pub fn pull_manifest_raw<T: Transport>(
        &mut self,
        alloc: Global,
        transport: &mut T,
        moment: u64,
        image: &Reference,
        auth: &RegistryAuth,
        accepted_media_types: &[Text],
    ) -> Result<(Blob, Text), OciDistributionError>
        ensures run { Meets is_memory
            (pull_manifest_raw (at_moment self.old moment) image.now auth.now (listed accepted_media_types.now))
            (T.state transport.old) (T.state transport.new) (auth_state_of self.old) (auth_state_of self.new) result }
        ensures settings { self.new.settings ≡ self.old.settings }
        ensures confined { StaysConfined self.old self.new moment image.now (Some auth.now)
            (T.state transport.old) (T.state transport.new) }
        ensures body { IfOk result (λ found. Told (λ c. Body c found.0)
            (T.state transport.old) (T.state transport.new)) }
        ensures named { IfOk result (λ found. Names found.1 found.0) }
        ensures given { IfOk result (λ found. (d : List ℕ) → digest_of image.now ≡ Some d → Names d found.0) }
        ensures causes { RefusedFor
            (DocumentRefused self.old moment image.now auth.now (listed accepted_media_types.now))
            (T.state transport.old) (T.state transport.new) result }
        ensures fault { FaultCounted (T.state transport.old) (T.state transport.new) result }
        ensures invalid_url { UrlRefused (manifest_text self.old.settings image.now) result }
        ensures bad_header { HasBadHeader self.old.settings (listed accepted_media_types.now) → IsEarly result }
    {
        let types = engine_requests::listed(alloc, accepted_media_types)?;
        let call = Call {
            settings: &self.settings,
            image,
            moment,
        };
        let found = lent!(
            self,
            memory,
            engine_pull::pull_manifest_raw(
                alloc,
                transport,
                &mut memory,
                &call,
                auth,
                types.as_str(),
            )
        )?;
        Ok(found)
    }

    /// Returns the image's manifest or index, with its digest.
    pub fn pull_manifest<T: Transport>(
        &mut self,
        alloc: Global,
        transport: &mut T,
        moment: u64,
        image: &Reference,
        auth: &RegistryAuth,
    ) -> Result<(OciManifest, Text), OciDistributionError>
        ensures run { Meets is_memory (pull_manifest (at_moment self.old moment) image.now auth.now)
            (T.state transport.old) (T.state transport.new) (auth_state_of self.old) (auth_state_of self.new) result }
        ensures settings { self.new.settings ≡ self.old.settings }
        ensures confined { StaysConfined self.old self.new moment image.now (Some auth.now)
            (T.state transport.old) (T.state transport.new) }
        ensures causes { RefusedFor (ManifestRefused self.old moment image.now auth.now)
            (T.state transport.old) (T.state transport.new) result }
        ensures fault { FaultCounted (T.state transport.old) (T.state transport.new) result }
        ensures invalid_url { UrlRefused (manifest_text self.old.settings image.now) result }
        ensures bad_header { HasBadHeader self.old.settings manifest_types → IsEarly result }
    {
        let call = Call {
            settings: &self.settings,
            image,
            moment,
        };
        lent!(
            self,
            memory,
            engine_pull::pull_manifest(alloc, transport, &mut memory, &call, auth)
        )
    }

    /// Returns the image with its configuration and its layers, whose media types are among these.
    pub fn pull<T: Transport>(
        &mut self,
        alloc: Global,
        transport: &mut T,
        moment: u64,
        image: &Reference,
        auth: &RegistryAuth,
        accepted_media_types: &[Text],
    ) -> Result<ImageData, OciDistributionError>
        ensures run { Meets is_memory (pull (at_moment self.old moment) image.now auth.now accepted_media_types.now)
            (T.state transport.old) (T.state transport.new) (auth_state_of self.old) (auth_state_of self.new) result }
        ensures settings { self.new.settings ≡ self.old.settings }
        ensures confined { StaysConfined self.old self.new moment image.now (Some auth.now)
            (T.state transport.old) (T.state transport.new) }
        ensures causes { RefusedFor
            (PullRefused self.old moment image.now auth.now accepted_media_types.now)
            (T.state transport.old) (T.state transport.new) result }
        ensures fault { FaultCounted (T.state transport.old) (T.state transport.new) result }
        ensures invalid_url { UrlRefused (manifest_text self.old.settings image.now) result }
        ensures bad_header { HasBadHeader self.old.settings manifest_types → IsEarly result }
    {
        let call = Call {
            settings: &self.settings,
            image,
            moment,
        };
        lent!(
            self,
            memory,
            engine_pull::pull(
                alloc,
                transport,
                &mut memory,
                &call,
                auth,
                accepted_media_types,
            )
        )
    }

    /// Writes the bytes of a blob of the image's repository to the sink, piece by piece as they are received. While the
    /// status is 4xx or 5xx, the URLs of the blob's descriptor are requested, in order and without credentials; one
    /// that is malformed, or has a user name or a password, is `UrlParseError`.
    pub fn pull_blob<T: Transport, L: AsLayerDescriptor, K: Sink>(
        &mut self,
        alloc: Global,
        transport: &mut T,
        moment: u64,
        image: &Reference,
        layer: &L,
        out: &mut K,
    ) -> Result<(), OciDistributionError>
        ensures run { MeetsIntoSink (pull_blob (at_moment self.old moment) image.now (L.layer layer.now))
            (T.state transport.old) (T.state transport.new) (auth_state_of self.old) (auth_state_of self.new)
            (K.state out.old) (K.state out.new) result }
        ensures settings { self.new.settings ≡ self.old.settings }
        ensures confined { StaysConfined self.old self.new moment image.now None
            (T.state transport.old) (T.state transport.new) }
        ensures took { IfOk result (λ u. TookBlob (L.layer layer.now).digest
            (T.state transport.old) (T.state transport.new) (K.state out.old) (K.state out.new)) }
        ensures causes { RefusedFor (BlobRefused IntoSink self.old moment image.now (L.layer layer.now))
            (T.state transport.old) (T.state transport.new) result }
        ensures fault { FaultCounted (T.state transport.old) (T.state transport.new) result }
        ensures sink { result ≡ Err OciDistributionError.SinkFault
            → Increased (K.state out.old).faults (K.state out.new).faults }
        ensures invalid_url { UrlRefused (blob_text self.old.settings image.now (L.layer layer.now).digest) result }
        ensures bad_header { HasBadHeader self.old.settings manifest_types → IsEarly result }
    {
        let call = Call {
            settings: &self.settings,
            image,
            moment,
        };
        let layer = layer.as_layer_descriptor();
        lent!(
            self,
            memory,
            engine_pull::pull_blob(alloc, transport, &mut memory, &call, &layer, out)
        )
    }

    /// Returns the bytes of a blob of the image's repository, requested from the same places.
    pub fn pulled_blob<T: Transport, L: AsLayerDescriptor>(
        &mut self,
        alloc: Global,
        transport: &mut T,
        moment: u64,
        image: &Reference,
        layer: &L,
    ) -> Result<Blob, OciDistributionError>
        ensures run { Meets is_memory (held_blob (at_moment self.old moment) image.now (L.layer layer.now))
            (T.state transport.old) (T.state transport.new) (auth_state_of self.old) (auth_state_of self.new) result }
        ensures settings { self.new.settings ≡ self.old.settings }
        ensures confined { StaysConfined self.old self.new moment image.now None
            (T.state transport.old) (T.state transport.new) }
        ensures body { IfOk result (λ bytes. Told (λ c. Body c bytes)
            (T.state transport.old) (T.state transport.new)) }
        ensures last { IfOk result (λ bytes. Told (λ c. LastBody c bytes)
            (T.state transport.old) (T.state transport.new)) }
        ensures named { IfOk result (λ bytes. Names (L.layer layer.now).digest bytes) }
        ensures causes { RefusedFor (BlobRefused IntoMemory self.old moment image.now (L.layer layer.now))
            (T.state transport.old) (T.state transport.new) result }
        ensures fault { FaultCounted (T.state transport.old) (T.state transport.new) result }
        ensures invalid_url { UrlRefused (blob_text self.old.settings image.now (L.layer layer.now).digest) result }
        ensures bad_header { HasBadHeader self.old.settings manifest_types → IsEarly result }
    {
        let call = Call {
            settings: &self.settings,
            image,
            moment,
        };
        let layer = layer.as_layer_descriptor();
        lent!(
            self,
            memory,
            engine_pull::pulled_blob(alloc, transport, &mut memory, &call, &layer)
        )
    }
}
