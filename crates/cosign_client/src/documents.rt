//! The pull of an image's documents, whole and in its two parts.
ghost use Rattle.std.specs.Prelude.{◌≡◌, true, false, if◌then◌else◌, ℕ, List, Err, IfOk, IfErr, IsTrue};
ghost use Rattle.engine_terms.specs.Contexts.{within};
ghost use Rattle.oci_link.specs.declared.shelf.Shelf.{Shelf};
ghost use Rattle.oci_names.specs.Reference.{whole_text, reads_back, resolved_registry};
ghost use Rattle.oci_protocol.specs.Ends.{UnlessMemory};
ghost use Rattle.oci_protocol.specs.Runs.{Meets, Told};
ghost use Rattle.cosign_layers.specs.Satisfying.{policy_context};
ghost use Rattle.registry_calls.specs.Confinement.{StaysConfined};
ghost use Rattle.registry_calls.specs.Direct.{reference_in};
ghost use Rattle.registry_calls.specs.Error.{FaultCounted, NoSinkFault};
ghost use Rattle.registry_cache.specs.Auths.{registry_auth};
ghost use Rattle.cosign_chain.specs.VerifiedDocuments.{Documents};
ghost use Rattle.cosign_rows.specs.Causes.{Found};
ghost use Rattle.cosign_rows.specs.DigestStep.{BeginsWithDigest, IsRefusedAs};
ghost use Rattle.cosign_rows.specs.Refusal.{is_memory, refused_as, client_refusal};
ghost use Rattle.cosign_rows.specs.Skips.{CountsFaults, HoldsNoMemoryNorSink, OnSkipped};
ghost use Rattle.cosign_rows.specs.Snapshots.{snapshot_of};
ghost use Rattle.cosign_rows.specs.Sound.{AnsweredOrFresh};
ghost use Rattle.cosign_rows.specs.Verified.{is_unconstrained};
ghost use Rattle.cosign_laws.specs.Settled.{IsSettled, StaysSettled};
ghost use Rattle.cosign_laws.specs.Shelves.{AnswersFrom, OkOrMemory, ValidShelf, WideShelf};
ghost use Rattle.cosign_rows.specs.DocumentCauses.{DecidedCause, DocumentsCause};
ghost use Rattle.cosign_rows.specs.Rows.{collected, decided, documents_row};
ghost use Rattle.cosign_rows.specs.Same.{SameAsPull};
ghost use Rattle.cosign_rows.specs.DocumentsSound.{Backed, DecidedOver};

use crate::client::Client;
use cosign_chain::VerifiedDocuments;
use cosign_layers::PullPolicy;
use cosign_parts::{Offline, SignatureVerifier, Trusted};
use cosign_pull::{collect, decide, verified_documents};
use cosign_rows::{Asked, PullRefusal, TrustedLayers};
use oci_auth::RegistryAuth;
use oci_transport::Transport;
use sig_registry::{Auth, OciReference};
use std::alloc::Global;

// The credentials as the registry's client takes them. A policy without a constraint is refused before that.
fn auth_under(alloc: Global, policy: &PullPolicy, auth: &Auth) -> Result<RegistryAuth, PullRefusal>
    ensures auth { IfOk result (λ made. made ≡ registry_auth auth.now) }
    ensures constrained { IfOk result (λ made. is_unconstrained policy.now ≡ false) }
    ensures refused { IfErr result (λ e. e ≡
        (if is_unconstrained policy.now then PullRefusal.EmptyPolicy else PullRefusal.WantOfMemory)) }
{
    if policy.constraints.as_slice().is_empty() {
        return Err(PullRefusal::EmptyPolicy);
    }
    let auth = auth.to_registry(alloc)?;
    Ok(auth)
}

impl Client {
    ghost use Rattle.cosign_client.specs.Keeping.{KeepsOnly};
    ghost use Rattle.cosign_client.specs.State.{client_state, trusts};

    /// Pulls the documents of an image only if a trusted signature stands for it: its manifest and, if that was selected
    /// from an index, the index. None of the blobs that the manifest names is requested. `moment` is in seconds since
    /// 1970. If no log's key is known, a layer has no log entry.
    ///
    /// The result can be checked on its own (`check_documents`): it is the chain of `verified_pull` without its blobs. A
    /// caching client may use a digest and signatures that are less than 60 seconds old; the documents are always
    /// requested. `PullRefusal` lists the errors.
    pub fn verified_documents<T: Transport, V: SignatureVerifier, O: Offline>(
        &mut self,
        alloc: Global,
        transport: &mut T,
        moment: u64,
        image: &OciReference,
        auth: &Auth,
        policy: &PullPolicy,
        verifier: &V,
        judge: &O,
    ) -> Result<VerifiedDocuments, PullRefusal>
        ensures run { Meets is_memory
            (documents_row (policy_context policy.now (λ b. accepts (b.vtable, b.value))
            (trusts (V.valid verifier.now) (O.vouched judge.now) self.old))
            (within (client_state self.old).settings moment) (reference_in image.now) (registry_auth auth.now))
            (T.state transport.old) (T.state transport.new)
            (client_state self.old).kept (client_state self.new).kept result }
        ensures settings { (client_state self.new).settings ≡ (client_state self.old).settings }
        ensures keys { self.new.rekor_pub_keys ≡ self.old.rekor_pub_keys }
        ensures unconstrained { IsTrue (is_unconstrained policy.now) →
            (result ≡ Err PullRefusal.EmptyPolicy) × (T.state transport.new ≡ T.state transport.old) }
        ensures unread { is_unconstrained policy.now ≡ false → reads_back (reference_in image.now) ≡ false →
            IsRefusedAs (PullRefusal.OciReferenceNotValidError (whole_text (reference_in image.now))) result
            × (T.state transport.new ≡ T.state transport.old) }
        ensures digest { is_unconstrained policy.now ≡ false → reads_back (reference_in image.now) ≡ true →
            UnlessMemory is_memory (λ r. Told
            (λ c. BeginsWithDigest refused_as (within (client_state self.old).settings moment)
            (reference_in image.now) (registry_auth auth.now)
            (snapshot_of (client_state self.old) (T.state transport.old)) c
            (snapshot_of (client_state self.new) (T.state transport.new)) r)
            (T.state transport.old) (T.state transport.new)) result }
        ensures documents { IfOk result (λ d. Documents
            (policy_context policy.now (λ b. accepts (b.vtable, b.value))
            (trusts (V.valid verifier.now) (O.vouched judge.now) self.old))
            (reference_in image.now) (client_state self.old).settings.platform_resolver d) }
        ensures causes { IfErr result (λ e. Told
            (λ c. DocumentsCause (policy_context policy.now (λ b. accepts (b.vtable, b.value))
            (trusts (V.valid verifier.now) (O.vouched judge.now) self.old))
            (within (client_state self.old).settings moment) (reference_in image.now) (registry_auth auth.now)
            (snapshot_of (client_state self.old) (T.state transport.old)) c
            (snapshot_of (client_state self.new) (T.state transport.new)) e)
            (T.state transport.old) (T.state transport.new)) }
        ensures backed { IfOk result (λ d. Told
            (λ c. Backed (client_state self.old).kept (within (client_state self.old).settings moment)
            (reference_in image.now) (registry_auth auth.now) c d)
            (T.state transport.old) (T.state transport.new)) }
        ensures fault { FaultCounted client_refusal (T.state transport.old) (T.state transport.new) result }
        ensures no_sink_fault { NoSinkFault client_refusal result }
        ensures no_memory { IfErr result (λ e. OnSkipped HoldsNoMemoryNorSink e) }
        ensures faults { IfErr result (λ e. OnSkipped
            (CountsFaults (T.state transport.old).faults (T.state transport.new).faults) e) }
        ensures confined { StaysConfined (client_state self.old) (client_state self.new) moment (reference_in image.now)
            (Some (registry_auth auth.now)) (T.state transport.old) (T.state transport.new) }
        ensures completes { (accepted : List (List ℕ)) (shelf : Shelf) → AnswersFrom shelf (T.state transport.old)
            → IsSettled (client_state self.old).settings (reference_in image.now) (registry_auth auth.now) shelf
            (client_state self.old).kept
            → ValidShelf (policy_context policy.now (λ b. accepts (b.vtable, b.value))
            (trusts (V.valid verifier.now) (O.vouched judge.now) self.old))
            (client_state self.old).settings (reference_in image.now) (registry_auth auth.now)
            accepted shelf → OkOrMemory result }
        ensures completes_wide { (accepted : List (List ℕ)) (shelf : Shelf) → AnswersFrom shelf (T.state transport.old)
            → IsSettled (client_state self.old).settings (reference_in image.now) (registry_auth auth.now) shelf
            (client_state self.old).kept
            → WideShelf (policy_context policy.now (λ b. accepts (b.vtable, b.value))
            (trusts (V.valid verifier.now) (O.vouched judge.now) self.old))
            (client_state self.old).settings (reference_in image.now) (registry_auth auth.now)
            accepted shelf → OkOrMemory result }
        ensures settled { (shelf : Shelf) → AnswersFrom shelf (T.state transport.old)
            → IsSettled (client_state self.old).settings (reference_in image.now) (registry_auth auth.now) shelf
            (client_state self.old).kept
            → StaysSettled (client_state self.old).settings (resolved_registry (reference_in image.now))
            (registry_auth auth.now) shelf (client_state self.old).kept (client_state self.new).kept }
        ensures keeps { KeepsOnly (client_state self.old).kept (reference_in image.now) (registry_auth auth.now)
            (client_state self.new).kept }
        ensures same { SameAsPull (policy_context policy.now (λ b. accepts (b.vtable, b.value))
            (trusts (V.valid verifier.now) (O.vouched judge.now) self.old))
            (within (client_state self.old).settings moment) (reference_in image.now) (registry_auth auth.now)
            (T.state transport.old) (T.state transport.new)
            (client_state self.old).kept (client_state self.new).kept result }
    {
        let auth = auth_under(alloc, policy, auth)?;
        let asked = Asked {
            moment,
            image: image.reference(),
            auth: &auth,
        };
        let trusted = Trusted {
            log_keys: &self.rekor_pub_keys,
            verifier,
            judge,
        };
        verified_documents(
            alloc,
            &mut self.registry_client,
            transport,
            &asked,
            policy,
            &trusted,
        )
    }

    /// Returns the digest of an image and the signature layers that were found for it: the first part of
    /// `verified_documents`. Nothing of the image but its digest is requested. `verifier` and `judge` may be others than
    /// those of `decide`, for example ones that accept everything, so that a host is asked about the signatures that
    /// were found before `decide` is called.
    ///
    /// Returns `EmptyPolicy` if the policy has no constraint, `OciReferenceNotValidError` if the reference, or the one
    /// by the returned digest, does not round-trip, and `RegistryFetchManifestError` if the digest is not returned. All
    /// other errors are causes in `skipped`.
    pub fn collect<T: Transport, V: SignatureVerifier, O: Offline>(
        &mut self,
        alloc: Global,
        transport: &mut T,
        moment: u64,
        image: &OciReference,
        auth: &Auth,
        policy: &PullPolicy,
        verifier: &V,
        judge: &O,
    ) -> Result<TrustedLayers, PullRefusal>
        ensures run { Meets is_memory
            (collected (policy_context policy.now (λ b. accepts (b.vtable, b.value))
            (trusts (V.valid verifier.now) (O.vouched judge.now) self.old))
            (within (client_state self.old).settings moment) (reference_in image.now) (registry_auth auth.now))
            (T.state transport.old) (T.state transport.new)
            (client_state self.old).kept (client_state self.new).kept result }
        ensures settings { (client_state self.new).settings ≡ (client_state self.old).settings }
        ensures keys { self.new.rekor_pub_keys ≡ self.old.rekor_pub_keys }
        ensures unconstrained { IsTrue (is_unconstrained policy.now) →
            (result ≡ Err PullRefusal.EmptyPolicy) × (T.state transport.new ≡ T.state transport.old) }
        ensures found { IfOk result (λ found. Told
            (λ c. Found (policy_context policy.now (λ b. accepts (b.vtable, b.value))
            (trusts (V.valid verifier.now) (O.vouched judge.now) self.old))
            (within (client_state self.old).settings moment) (reference_in image.now) (registry_auth auth.now)
            (snapshot_of (client_state self.old) (T.state transport.old)) c
            (snapshot_of (client_state self.new) (T.state transport.new)) found)
            (T.state transport.old) (T.state transport.new)) }
        ensures answered { IfOk result (λ found. Told
            (λ c. AnsweredOrFresh (client_state self.old).kept (within (client_state self.old).settings moment)
            (reference_in image.now) (registry_auth auth.now) c found.digest)
            (T.state transport.old) (T.state transport.new)) }
        ensures causes { IfErr result (λ e. Told
            (λ c. DocumentsCause (policy_context policy.now (λ b. accepts (b.vtable, b.value))
            (trusts (V.valid verifier.now) (O.vouched judge.now) self.old))
            (within (client_state self.old).settings moment) (reference_in image.now) (registry_auth auth.now)
            (snapshot_of (client_state self.old) (T.state transport.old)) c
            (snapshot_of (client_state self.new) (T.state transport.new)) e)
            (T.state transport.old) (T.state transport.new)) }
        ensures fault { FaultCounted client_refusal (T.state transport.old) (T.state transport.new) result }
        ensures no_sink_fault { NoSinkFault client_refusal result }
        ensures no_memory { IfOk result (λ found. HoldsNoMemoryNorSink found.skipped) }
        ensures faults { IfOk result (λ found. CountsFaults
            (T.state transport.old).faults (T.state transport.new).faults found.skipped) }
        ensures confined { StaysConfined (client_state self.old) (client_state self.new) moment (reference_in image.now)
            (Some (registry_auth auth.now)) (T.state transport.old) (T.state transport.new) }
        ensures settled { (shelf : Shelf) → AnswersFrom shelf (T.state transport.old)
            → IsSettled (client_state self.old).settings (reference_in image.now) (registry_auth auth.now) shelf
            (client_state self.old).kept
            → StaysSettled (client_state self.old).settings (resolved_registry (reference_in image.now))
            (registry_auth auth.now) shelf (client_state self.old).kept (client_state self.new).kept }
        ensures keeps { KeepsOnly (client_state self.old).kept (reference_in image.now) (registry_auth auth.now)
            (client_state self.new).kept }
    {
        let auth = auth_under(alloc, policy, auth)?;
        let asked = Asked {
            moment,
            image: image.reference(),
            auth: &auth,
        };
        let trusted = Trusted {
            log_keys: &self.rekor_pub_keys,
            verifier,
            judge,
        };
        collect(
            alloc,
            &mut self.registry_client,
            transport,
            &asked,
            policy,
            &trusted,
        )
    }

    /// Decides over what was collected, and pulls the documents of its digest only if a layer stands for it: the second
    /// part of `verified_documents`. The layers are read again from their bytes and annotations with this verifier and
    /// this judge, nothing is searched again, and none of the blobs that the manifest names is requested.
    ///
    /// Returns `EmptyPolicy` if the policy has no constraint, `Unsatisfied` if no layer satisfies the policy, and
    /// `RegistryPullError` if the documents are not pulled.
    pub fn decide<T: Transport, V: SignatureVerifier, O: Offline>(
        &mut self,
        alloc: Global,
        transport: &mut T,
        moment: u64,
        image: &OciReference,
        auth: &Auth,
        policy: &PullPolicy,
        verifier: &V,
        judge: &O,
        found: TrustedLayers,
    ) -> Result<VerifiedDocuments, PullRefusal>
        ensures run { Meets is_memory
            (decided (policy_context policy.now (λ b. accepts (b.vtable, b.value))
            (trusts (V.valid verifier.now) (O.vouched judge.now) self.old))
            (within (client_state self.old).settings moment) (reference_in image.now) (registry_auth auth.now) found)
            (T.state transport.old) (T.state transport.new)
            (client_state self.old).kept (client_state self.new).kept result }
        ensures settings { (client_state self.new).settings ≡ (client_state self.old).settings }
        ensures keys { self.new.rekor_pub_keys ≡ self.old.rekor_pub_keys }
        ensures unconstrained { IsTrue (is_unconstrained policy.now) →
            (result ≡ Err PullRefusal.EmptyPolicy) × (T.state transport.new ≡ T.state transport.old) }
        ensures documents { IfOk result (λ d. Documents
            (policy_context policy.now (λ b. accepts (b.vtable, b.value))
            (trusts (V.valid verifier.now) (O.vouched judge.now) self.old))
            (reference_in image.now) (client_state self.old).settings.platform_resolver d) }
        ensures backed { IfOk result (λ d. Told (λ c. DecidedOver found c d)
            (T.state transport.old) (T.state transport.new)) }
        ensures causes { IfErr result (λ e. Told
            (λ c. DecidedCause (policy_context policy.now (λ b. accepts (b.vtable, b.value))
            (trusts (V.valid verifier.now) (O.vouched judge.now) self.old))
            (within (client_state self.old).settings moment) (reference_in image.now) (registry_auth auth.now) found
            (snapshot_of (client_state self.old) (T.state transport.old)) c
            (snapshot_of (client_state self.new) (T.state transport.new)) e)
            (T.state transport.old) (T.state transport.new)) }
        ensures fault { FaultCounted client_refusal (T.state transport.old) (T.state transport.new) result }
        ensures no_sink_fault { NoSinkFault client_refusal result }
        ensures confined { StaysConfined (client_state self.old) (client_state self.new) moment (reference_in image.now)
            (Some (registry_auth auth.now)) (T.state transport.old) (T.state transport.new) }
        ensures keeps { KeepsOnly (client_state self.old).kept (reference_in image.now) (registry_auth auth.now)
            (client_state self.new).kept }
    {
        let auth = auth_under(alloc, policy, auth)?;
        let asked = Asked {
            moment,
            image: image.reference(),
            auth: &auth,
        };
        let trusted = Trusted {
            log_keys: &self.rekor_pub_keys,
            verifier,
            judge,
        };
        decide(
            alloc,
            &mut self.registry_client,
            transport,
            &asked,
            policy,
            &trusted,
            found,
        )
    }
}
