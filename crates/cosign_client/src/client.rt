//! The client that users hold.
ghost use Rattle.std.specs.Prelude.{◌≡◌, true, false, Some, Err, IfOk, IfErr, IsTrue};
ghost use Rattle.engine_terms.specs.Contexts.{within};
ghost use Rattle.oci_link.specs.declared.shelf.Shelf.{Shelf};
ghost use Rattle.oci_names.specs.Reference.{whole_text, reads_back, resolved_registry};
ghost use Rattle.oci_protocol.specs.Ends.{UnlessMemory};
ghost use Rattle.oci_protocol.specs.Runs.{Meets, Told};
ghost use Rattle.cosign_chain.specs.Chain.{Chain};
ghost use Rattle.cosign_chain.specs.Links.{Links};
ghost use Rattle.cosign_layers.specs.Satisfying.{policy_context};
ghost use Rattle.registry_calls.specs.Clients.{KeepsAnswers};
ghost use Rattle.registry_calls.specs.Confinement.{StaysConfined, StaysForPush};
ghost use Rattle.registry_cache.specs.Auths.{registry_auth};
ghost use Rattle.registry_calls.specs.Direct.{reference_in};
ghost use Rattle.registry_calls.specs.Error.{is_memory as of_memory, registry_refusal, FaultCounted, NoSinkFault};
ghost use Rattle.cosign_rows.specs.Causes.{PullCause, SearchCause};
ghost use Rattle.cosign_rows.specs.DigestStep.{BeginsWithDigest, IsRefusedAs, unchanged};
ghost use Rattle.cosign_rows.specs.Snapshots.{snapshot_of};
ghost use Rattle.cosign_rows.specs.Refusal.{is_memory, refused_as, client_refusal};
ghost use Rattle.cosign_rows.specs.Search.{searched};
ghost use Rattle.cosign_laws.specs.Settled.{IsSettled, StaysSettled};
ghost use Rattle.cosign_laws.specs.Shelves.{AnswersFrom, OkOrMemory, ValidShelf, WideShelf};
ghost use Rattle.cosign_rows.specs.Skips.{CountsFaults, HoldsNoMemoryNorSink, OnSkipped};
ghost use Rattle.cosign_rows.specs.Sound.{Backed};
ghost use Rattle.cosign_rows.specs.Triangulated.{tag_shown, triangulated};
ghost use Rattle.cosign_rows.specs.Verified.{is_unconstrained, verified};

use crate::signature::{SignatureImage, signature_image};
use cosign_chain::VerifiedImage;
use cosign_layers::PullPolicy;
use cosign_parts::{LogKeys, Offline, SignatureLayer, SignatureVerifier, Trusted};
use cosign_pull::{pull_verified, search};
use cosign_rows::{Asked, PullRefusal, Terms, TrustedLayers, oci_tag_reference};
use json_values::{Annotations, Text};
use oci_transport::Transport;
use push_rows::PushResponse;
use sig_registry::{Auth, ClientCapabilities, OciReference, RegistryClient, SigstoreError};
use std::alloc::Global;

/// Pulls images only if a trusted signature stands for them.
#[derive(Drop)]
pub struct Client {
    /// The registry's client, with or without a cache.
    pub registry_client: RegistryClient,
    /// The keys of transparency logs by their ids.
    pub rekor_pub_keys: LogKeys,
}

impl Client {
    ghost use Rattle.cosign_client.specs.Keeping.{KeepsOnly};
    ghost use Rattle.cosign_client.specs.PushedSignatures.{PushesSignatures};
    ghost use Rattle.cosign_client.specs.State.{client_state, trusts};

    /// Returns the reference of the image's signature tag, and the digest that was returned for the image. The tag
    /// itself is not requested, and its reference need not round-trip. `moment` is in seconds since 1970.
    ///
    /// Returns `RegistryFetchManifestError` if the digest is not returned.
    pub fn triangulate<T: Transport>(
        &mut self,
        alloc: Global,
        transport: &mut T,
        moment: u64,
        image: &OciReference,
        auth: &Auth,
    ) -> Result<(OciReference, Text), SigstoreError>
        ensures run { Meets of_memory
            (triangulated (within (client_state self.old).settings moment) (reference_in image.now)
            (registry_auth auth.now))
            (T.state transport.old) (T.state transport.new)
            (client_state self.old).kept (client_state self.new).kept (tag_shown result) }
        ensures settings { (client_state self.new).settings ≡ (client_state self.old).settings }
        ensures keys { self.new.rekor_pub_keys ≡ self.old.rekor_pub_keys }
        ensures fault { FaultCounted registry_refusal (T.state transport.old) (T.state transport.new) result }
        ensures no_sink_fault { NoSinkFault registry_refusal result }
        ensures confined { StaysConfined (client_state self.old) (client_state self.new) moment (reference_in image.now)
            (Some (registry_auth auth.now)) (T.state transport.old) (T.state transport.new) }
    {
        let auth = auth.to_registry(alloc)?;
        let digest = self
            .registry_client
            .fetch_manifest_digest(alloc, transport, moment, image.reference(), &auth)?;
        let tag = oci_tag_reference(alloc, image, digest.as_str())?;
        Ok((tag, digest))
    }

    /// Returns the digest of an image, the signature layers in its repository, and why others were skipped. Searches
    /// the digest's signature tag first, then, for bundles, the images that refer to the digest (OCI distribution
    /// specification, "Listing Referrers"). `moment` is in seconds since 1970. If no log's key is known, a layer has
    /// no log entry.
    ///
    /// Returns `RegistryFetchManifestError` if the digest is not returned, and `OciReferenceNotValidError` if the
    /// reference by it does not round-trip. All other errors are causes in `skipped`.
    pub fn trusted_signature_layers<T: Transport, V: SignatureVerifier, O: Offline>(
        &mut self,
        alloc: Global,
        transport: &mut T,
        moment: u64,
        auth: &Auth,
        source_image: &OciReference,
        verifier: &V,
        judge: &O,
    ) -> Result<TrustedLayers, SigstoreError>
        ensures run { Meets of_memory
            (searched (trusts (V.valid verifier.now) (O.vouched judge.now) self.old)
            (within (client_state self.old).settings moment) (reference_in source_image.now)
            (registry_auth auth.now))
            (T.state transport.old) (T.state transport.new)
            (client_state self.old).kept (client_state self.new).kept result }
        ensures settings { (client_state self.new).settings ≡ (client_state self.old).settings }
        ensures keys { self.new.rekor_pub_keys ≡ self.old.rekor_pub_keys }
        ensures digest { UnlessMemory of_memory (λ r. Told
            (λ c. BeginsWithDigest unchanged (within (client_state self.old).settings moment)
            (reference_in source_image.now) (registry_auth auth.now)
            (snapshot_of (client_state self.old) (T.state transport.old)) c
            (snapshot_of (client_state self.new) (T.state transport.new)) r)
            (T.state transport.old) (T.state transport.new)) result }
        ensures causes { IfErr result (λ e. Told
            (λ c. SearchCause (within (client_state self.old).settings moment)
            (reference_in source_image.now) (registry_auth auth.now)
            (snapshot_of (client_state self.old) (T.state transport.old)) c
            (snapshot_of (client_state self.new) (T.state transport.new)) e)
            (T.state transport.old) (T.state transport.new)) }
        ensures fault { FaultCounted registry_refusal (T.state transport.old) (T.state transport.new) result }
        ensures no_sink_fault { NoSinkFault registry_refusal result }
        ensures no_memory { IfOk result (λ found. HoldsNoMemoryNorSink found.skipped) }
        ensures faults { IfOk result (λ found. CountsFaults
            (T.state transport.old).faults (T.state transport.new).faults found.skipped) }
        ensures confined { StaysConfined (client_state self.old) (client_state self.new) moment
            (reference_in source_image.now)
            (Some (registry_auth auth.now)) (T.state transport.old) (T.state transport.new) }
    {
        let auth = auth.to_registry(alloc)?;
        let asked = Asked {
            moment,
            image: source_image.reference(),
            auth: &auth,
        };
        let trusted = Trusted {
            log_keys: &self.rekor_pub_keys,
            verifier,
            judge,
        };
        search(
            alloc,
            &mut self.registry_client,
            transport,
            &asked,
            &trusted,
        )
    }

    /// Pushes signatures: an image with a layer for each signature layer that has a payload, its text and its
    /// signature, and with these annotations of its manifest. Nothing else of the layers is pushed, no certificate and
    /// no log entry. `moment` is in seconds since 1970.
    ///
    /// The text of a payload is written anew, so its signature is valid only if that very text was signed.
    ///
    /// Returns `RegistryPushError` if the image is not pushed.
    pub fn push_signature<T: Transport>(
        &mut self,
        alloc: Global,
        transport: &mut T,
        moment: u64,
        annotations: Option<Annotations>,
        auth: &Auth,
        target_reference: &OciReference,
        signature_layers: &[SignatureLayer],
    ) -> Result<PushResponse, SigstoreError>
        ensures run { PushesSignatures signature_layers.now annotations
            (within (client_state self.old).settings moment) (reference_in target_reference.now)
            (registry_auth auth.now) (client_state self.old).kept (client_state self.new).kept
            (T.state transport.old) (T.state transport.new) result }
        ensures settings { (client_state self.new).settings ≡ (client_state self.old).settings }
        ensures keys { self.new.rekor_pub_keys ≡ self.old.rekor_pub_keys }
        ensures fault { FaultCounted registry_refusal (T.state transport.old) (T.state transport.new) result }
        ensures no_sink_fault { NoSinkFault registry_refusal result }
        ensures confined { StaysForPush (client_state self.old) (client_state self.new) moment
            (reference_in target_reference.now) (Some (registry_auth auth.now))
            (T.state transport.old) (T.state transport.new) }
        ensures answers { KeepsAnswers (client_state self.old) (client_state self.new) }
    {
        let auth = auth.to_registry(alloc)?;
        let built = signature_image(alloc, signature_layers, annotations)?;
        let SignatureImage {
            layers,
            config,
            manifest,
        } = built;
        self.registry_client.push(
            alloc,
            transport,
            moment,
            target_reference.reference(),
            layers.as_slice(),
            config,
            &auth,
            Some(manifest),
        )
    }

    /// Pulls an image only if a trusted signature stands for it. `moment` is in seconds since 1970. If no log's key is
    /// known, a layer has no log entry.
    ///
    /// The result is a chain that can be checked on its own: it starts at the digest that was returned for the image,
    /// which names the manifest, whose digests name the configuration and the layers, and one signature layer stands
    /// for it under the policy. A caching client may use a digest and signatures that are less than 60 seconds old; the
    /// image's documents and blobs are always requested. `PullRefusal` lists the errors.
    pub fn verified_pull<'a, T: Transport, V: SignatureVerifier, O: Offline>(
        &mut self,
        alloc: Global,
        transport: &mut T,
        moment: u64,
        image: &OciReference,
        auth: &Auth,
        accepted_media_types: &'a [Text],
        policy: &'a PullPolicy,
        verifier: &'a V,
        judge: &'a O,
    ) -> Result<VerifiedImage, PullRefusal>
        ensures run { Meets is_memory
            (verified (policy_context policy.now (λ b. accepts (b.vtable, b.value))
            (trusts (V.valid verifier.now) (O.vouched judge.now) self.old))
            (within (client_state self.old).settings moment) (reference_in image.now)
            (registry_auth auth.now) accepted_media_types.now)
            (T.state transport.old) (T.state transport.new)
            (client_state self.old).kept (client_state self.new).kept result }
        ensures settings { (client_state self.new).settings ≡ (client_state self.old).settings }
        ensures keys { self.new.rekor_pub_keys ≡ self.old.rekor_pub_keys }
        ensures unconstrained { IsTrue (is_unconstrained policy.now) →
            (result ≡ Err PullRefusal.EmptyPolicy) × (T.state transport.new ≡ T.state transport.old) }
        ensures unread { is_unconstrained policy.now ≡ false → reads_back (reference_in image.now) ≡ false →
            IsRefusedAs (PullRefusal.OciReferenceNotValidError (whole_text (reference_in image.now))) result
            × (T.state transport.new ≡ T.state transport.old) }
        ensures digest { is_unconstrained policy.now ≡ false → reads_back (reference_in image.now) ≡ true →
            UnlessMemory is_memory (λ r. Told
            (λ c. BeginsWithDigest refused_as (within (client_state self.old).settings moment)
            (reference_in image.now) (registry_auth auth.now)
            (snapshot_of (client_state self.old) (T.state transport.old)) c
            (snapshot_of (client_state self.new) (T.state transport.new)) r)
            (T.state transport.old) (T.state transport.new)) result }
        ensures chain { IfOk result (λ v. Chain
            (policy_context policy.now (λ b. accepts (b.vtable, b.value))
            (trusts (V.valid verifier.now) (O.vouched judge.now) self.old))
            (reference_in image.now) accepted_media_types.now
            (client_state self.old).settings.platform_resolver v) }
        ensures causes { IfErr result (λ e. Told
            (λ c. PullCause (policy_context policy.now (λ b. accepts (b.vtable, b.value))
            (trusts (V.valid verifier.now) (O.vouched judge.now) self.old))
            (within (client_state self.old).settings moment) (reference_in image.now)
            (registry_auth auth.now) accepted_media_types.now
            (snapshot_of (client_state self.old) (T.state transport.old)) c
            (snapshot_of (client_state self.new) (T.state transport.new)) e)
            (T.state transport.old) (T.state transport.new)) }
        ensures backed { IfOk result (λ v. Told
            (λ c. Backed (client_state self.old).kept (within (client_state self.old).settings moment)
            (reference_in image.now) (registry_auth auth.now) c v)
            (T.state transport.old) (T.state transport.new)) }
        ensures links { IfOk result (λ v. Links (reference_in image.now) accepted_media_types.now v) }
        ensures fault { FaultCounted client_refusal (T.state transport.old) (T.state transport.new) result }
        ensures no_sink_fault { NoSinkFault client_refusal result }
        ensures no_memory { IfErr result (λ e. OnSkipped HoldsNoMemoryNorSink e) }
        ensures faults { IfErr result (λ e. OnSkipped
            (CountsFaults (T.state transport.old).faults (T.state transport.new).faults) e) }
        ensures confined { StaysConfined (client_state self.old) (client_state self.new) moment (reference_in image.now)
            (Some (registry_auth auth.now)) (T.state transport.old) (T.state transport.new) }
        ensures completes { (shelf : Shelf) → AnswersFrom shelf (T.state transport.old)
            → IsSettled (client_state self.old).settings (reference_in image.now) (registry_auth auth.now) shelf
            (client_state self.old).kept
            → ValidShelf (policy_context policy.now (λ b. accepts (b.vtable, b.value))
            (trusts (V.valid verifier.now) (O.vouched judge.now) self.old))
            (client_state self.old).settings (reference_in image.now) (registry_auth auth.now)
            accepted_media_types.now shelf → OkOrMemory result }
        ensures completes_wide { (shelf : Shelf) → AnswersFrom shelf (T.state transport.old)
            → IsSettled (client_state self.old).settings (reference_in image.now) (registry_auth auth.now) shelf
            (client_state self.old).kept
            → WideShelf (policy_context policy.now (λ b. accepts (b.vtable, b.value))
            (trusts (V.valid verifier.now) (O.vouched judge.now) self.old))
            (client_state self.old).settings (reference_in image.now) (registry_auth auth.now)
            accepted_media_types.now shelf → OkOrMemory result }
        ensures settled { (shelf : Shelf) → AnswersFrom shelf (T.state transport.old)
            → IsSettled (client_state self.old).settings (reference_in image.now) (registry_auth auth.now) shelf
            (client_state self.old).kept
            → StaysSettled (client_state self.old).settings (resolved_registry (reference_in image.now))
            (registry_auth auth.now) shelf (client_state self.old).kept (client_state self.new).kept }
        ensures keeps { KeepsOnly (client_state self.old).kept (reference_in image.now) (registry_auth auth.now)
            (client_state self.new).kept }
    {
        let terms = Terms {
            accepted: accepted_media_types,
            policy,
            trusted: Trusted {
                log_keys: &self.rekor_pub_keys,
                verifier,
                judge,
            },
        };
        pull_verified(
            alloc,
            &mut self.registry_client,
            transport,
            moment,
            image.reference(),
            auth,
            &terms,
        )
    }
}
