//! Which layers satisfy a policy.
ghost use Rattle.std.specs.Prelude.{◌≡◌, ◌↔◌, IsTrue, false, IfOk};
ghost use Rattle.std.specs.Option.{option_map_or};
ghost use Rattle.std.specs.List.{list_all, list_any, position};
ghost use Rattle.base64.specs.Engines.{standard};
ghost use Rattle.base64.specs.GeneralPurpose.{decoded_of};
ghost use Rattle.cosign_layers.specs.Constraint.{accepts as accepts_by};
ghost use Rattle.cosign_layers.specs.Satisfying.{is_accepted, is_signed, is_signed_by, signs, satisfies_policy, SatisfiesPolicy, text_of};

use crate::constraint::Constraint;
use crate::policy::PullPolicy;
use cosign_parts::{
    CertificateSignature, LayerKind, SignatureLayer, SignatureVerifier, enveloped_text,
};
use json_tables::decode_base64;
use json_values::Blob;
use std::alloc::{AllocError, Global};

/// Returns whether a layer satisfies a policy: its signature is valid for its signed text, under the key of its
/// certificate or, if it has none, under one of the policy's keys, and each constraint of the policy accepts it.
#[tactic(auto, using(crate::proofs::SatisfiesPolicy::answered))]
pub fn satisfies_policy<V: SignatureVerifier>(
    alloc: Global,
    verifier: &V,
    policy: &PullPolicy,
    layer: &SignatureLayer,
) -> Result<bool, AllocError>
    ensures same { IfOk result (λ b. b ≡ satisfies_policy (V.valid verifier.now) policy.now accepts layer.now) }
    ensures exact { IfOk result (λ b.
        IsTrue b ↔ SatisfiesPolicy (V.valid verifier.now) policy.now accepts layer.now) }
{
    is_signed_and_accepted(alloc, verifier, policy, layer)
}

/// Returns the index of the first layer that satisfies the policy.
#[tactic(auto, using(crate::proofs::Loops::first_place, crate::proofs::Loops::no_place))]
pub fn first_satisfying<V: SignatureVerifier>(
    alloc: Global,
    verifier: &V,
    policy: &PullPolicy,
    layers: &[SignatureLayer],
) -> Result<Option<usize>, AllocError>
    ensures { IfOk result (λ place.
        place ≡ position (satisfies_policy (V.valid verifier.now) policy.now accepts) layers.now) }
{
    for (place, layer) in layers.iter().enumerate() {
        let found = satisfies_policy(alloc, verifier, policy, layer)?;
        if found {
            return Ok(Some(place));
        }
    }
    Ok(None)
}

#[tactic(auto, unfolding(crate::specs::Satisfying::satisfies_policy))]
fn is_signed_and_accepted<V: SignatureVerifier>(
    alloc: Global,
    verifier: &V,
    policy: &PullPolicy,
    layer: &SignatureLayer,
) -> Result<bool, AllocError>
    ensures { IfOk result (λ b. b ≡ satisfies_policy (V.valid verifier.now) policy.now accepts layer.now) }
{
    let signed = is_signed(alloc, verifier, policy.keys.as_slice(), layer)?;
    if !signed {
        return Ok(false);
    }
    let accepted = is_accepted(policy.constraints.as_slice(), layer)?;
    Ok(accepted)
}

fn is_signed<V: SignatureVerifier>(
    alloc: Global,
    verifier: &V,
    keys: &[Blob],
    layer: &SignatureLayer,
) -> Result<bool, AllocError>
    ensures { IfOk result (λ b. b ≡ is_signed_by (V.valid verifier.now) keys.now layer.now) }
{
    let Some(signature) = decode_base64(alloc, layer.signature.as_str())? else {
        return Ok(false);
    };
    match layer.kind {
        LayerKind::Payload => {
            let text = layer.content.as_slice();
            let signed = signs(
                verifier,
                keys,
                &layer.certificate_signature,
                text,
                signature.as_slice(),
            )?;
            Ok(signed)
        }
        LayerKind::Bundle => {
            let text = enveloped_text(alloc, layer.content.as_slice())?;
            let signed = signs(
                verifier,
                keys,
                &layer.certificate_signature,
                text.as_slice(),
                signature.as_slice(),
            )?;
            Ok(signed)
        }
    }
}

// Whether the certificate's key or, without a certificate, one of these makes the signature valid.
fn signs<V: SignatureVerifier>(
    verifier: &V,
    keys: &[Blob],
    certificate: &Option<CertificateSignature>,
    text: &[u8],
    signature: &[u8],
) -> Result<bool, AllocError>
    ensures { IfOk result (λ b.
        b ≡ signs (V.valid verifier.now) keys.now certificate.now text.now signature.now) }
{
    let Some(certificate) = certificate else {
        let signed = some_key_signs(verifier, keys, text, signature)?;
        return Ok(signed);
    };
    let signed = verifier.verify(&certificate.vouched.key, text, signature)?;
    Ok(signed)
}

#[tactic(auto, using(crate::proofs::Loops::none_found, crate::proofs::Loops::one_found))]
fn some_key_signs<V: SignatureVerifier>(
    verifier: &V,
    keys: &[Blob],
    message: &[u8],
    signature: &[u8],
) -> Result<bool, AllocError>
    ensures { IfOk result (λ b.
        b ≡ list_any (λ key. V.valid verifier.now key message.now signature.now) keys.now) }
{
    for key in keys {
        let signed = verifier.verify(key, message, signature)?;
        if signed {
            return Ok(true);
        }
    }
    Ok(false)
}

#[tactic(auto, using(crate::proofs::Loops::all_passed, std::proofs::lemmas::List::Folds::list_all_at))]
fn is_accepted(constraints: &[Constraint], layer: &SignatureLayer) -> Result<bool, AllocError>
    ensures { IfOk result (λ b. b ≡ list_all (λ c. accepts_by accepts c layer.now) constraints.now) }
{
    for constraint in constraints {
        let accepted = constraint.verify(layer)?;
        if !accepted {
            return Ok(false);
        }
    }
    Ok(true)
}
