//! Checks the whole chain again.
ghost use Rattle.std.specs.Prelude.{◌≡◌, ◌↔◌, IfOk, IfErr, IsTrue, option_copied};
ghost use Rattle.cosign_layers.specs.Read.{Gives, HasOneOutcome, RejectedUnlessMemory, input_of};
ghost use Rattle.cosign_layers.specs.Satisfying.{StandsFor, policy_context};
ghost use Rattle.cosign_parts.specs.Trust.{trust};
ghost use Rattle.cosign_chain.specs.Chain.{Chain};

use crate::documents::leads_to_manifest;
use crate::image::VerifiedImage;
use crate::links::check_links;
use crate::same_layer::same_reading;
use cosign_layers::{
    LayerRejection, PullPolicy, read_bundle_layer, read_payload_layer, satisfies_policy,
};
use cosign_parts::{LayerKind, LogKeys, Offline, SignatureLayer, SignatureVerifier};
use json_values::Text;
use oci_manifests::ResolverPromise;
use oci_names::Reference;
use std::alloc::{AllocError, Global};

/// Returns whether the whole chain of an image holds, without a client and without requests.
///
/// The links hold (`check_links`). The first document parses as the manifest, or under a promise as an index of which
/// the promise picks the manifest's digest. The signature layer is what its bytes and annotations state, is about the
/// digest, is signed under its certificate's key or one of the policy's, and is accepted by each constraint of a policy
/// that has at least one.
pub fn check_chain<V: SignatureVerifier, O: Offline>(
    alloc: Global,
    image: &Reference,
    accepted_media_types: &[Text],
    promise: Option<&ResolverPromise>,
    policy: &PullPolicy,
    log_keys: &LogKeys,
    verifier: &V,
    judge: &O,
    found: &VerifiedImage,
) -> Result<bool, AllocError>
    ensures { IfOk result (λ holds. IsTrue holds ↔ Chain (policy_context policy.now (λ b. accepts (b.vtable, b.value))
        (trust (V.valid verifier.now) (O.vouched judge.now) log_keys.now))
        image.now accepted_media_types.now (option_copied promise.entry) found.now) }
{
    if !check_links(image, accepted_media_types, found) {
        return Ok(false);
    }
    let led = leads_to_manifest(alloc, promise, found)?;
    if !led {
        return Ok(false);
    }
    let (digest, layer) = (found.digest.as_str(), &found.signature);
    let stood = stands_for(alloc, policy, log_keys, verifier, judge, digest, layer)?;
    Ok(stood)
}

/// Returns whether the layer stands for the image of this digest: it is what its bytes and annotations state, is about
/// the digest, is signed under its certificate's key or one of the policy's, and is accepted by each constraint of a
/// policy that has at least one. Fails only if memory runs out.
#[tactic(auto, using(crate::proofs::LayerSatisfies::standing_rules))]
pub fn stands_for<V: SignatureVerifier, O: Offline>(
    alloc: Global,
    policy: &PullPolicy,
    log_keys: &LogKeys,
    verifier: &V,
    judge: &O,
    digest: &str,
    layer: &SignatureLayer,
) -> Result<bool, AllocError>
    ensures { IfOk result
        (λ stood. IsTrue stood ↔ StandsFor (policy_context policy.now (λ b. accepts (b.vtable, b.value))
        (trust (V.valid verifier.now) (O.vouched judge.now) log_keys.now))
        digest.now layer.now) }
{
    match read_again(alloc, log_keys, verifier, judge, digest, layer) {
        Ok(again) => {
            if policy.constraints.as_slice().is_empty() {
                return Ok(false);
            }
            if !same_reading(&again, layer) {
                return Ok(false);
            }
            let stood = satisfies_policy(alloc, verifier, policy, layer)?;
            Ok(stood)
        }
        Err(rejection) => {
            if rejection.is_memory() {
                return Err(AllocError);
            }
            Ok(false)
        }
    }
}

// Reads the layer again from its bytes and annotations.
fn read_again<V: SignatureVerifier, O: Offline>(
    alloc: Global,
    log_keys: &LogKeys,
    verifier: &V,
    judge: &O,
    digest: &str,
    layer: &SignatureLayer,
) -> Result<SignatureLayer, LayerRejection>
    ensures gives { IfOk result (Gives
        (trust (V.valid verifier.now) (O.vouched judge.now) log_keys.now) digest.now (input_of layer.now)) }
    ensures rejects { IfErr result (RejectedUnlessMemory
        (trust (V.valid verifier.now) (O.vouched judge.now) log_keys.now) digest.now (input_of layer.now)) }
    ensures law { HasOneOutcome
        (trust (V.valid verifier.now) (O.vouched judge.now) log_keys.now) digest.now (input_of layer.now) }
{
    let (content, named, annotations) = (
        &layer.content,
        layer.oci_digest.as_str(),
        &layer.annotations,
    );
    match layer.kind {
        LayerKind::Payload => {
            read_payload_layer(
                alloc,
                content,
                named,
                annotations,
                digest,
                log_keys,
                verifier,
                judge,
            )
        }
        LayerKind::Bundle => {
            read_bundle_layer(
                alloc,
                content,
                named,
                annotations,
                digest,
                log_keys,
                verifier,
                judge,
            )
        }
    }
}
