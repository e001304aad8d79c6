// Signers: the schemes under which pairs sign, and their signatures.
use crate::makers::{NoKeys, OneKind};
use crate::pairs::holds_both;
use json_values::Blob;
use sig_keys::ecdsa::ECDSAKeys;
use sig_keys::ecdsa::ec::EcdsaKeys as CurveKeys;
use sig_keys::ed25519::{Ed25519Keys, Ed25519Signer};
use sig_keys::rsa::{RSAKeys, RSASigner};
use sig_keys::{
    CosignVerificationKey, DigestAlgorithm, EllipticCurve, KeyError, KeyKind, KeyPair,
    PaddingScheme, SigStoreKeyPair, SigStoreSigner, Signer, SigningScheme,
};
use std::alloc::{AllocError, Global};

fn ed25519_pair(alloc: Global) -> Result<SigStoreKeyPair, KeyError> {
    let keys = Ed25519Keys::new(
        alloc,
        &OneKind {
            kind: KeyKind::Ed25519,
        },
    )?;
    Ok(SigStoreKeyPair::ED25519(keys))
}

fn curve_pair(alloc: Global) -> Result<SigStoreKeyPair, KeyError> {
    let keys = ECDSAKeys::new(
        alloc,
        &OneKind {
            kind: KeyKind::P384,
        },
        EllipticCurve::P384,
    )?;
    Ok(SigStoreKeyPair::ECDSA(keys))
}

fn rsa_pair(alloc: Global) -> Result<SigStoreKeyPair, KeyError> {
    let keys = RSAKeys::new(alloc, &OneKind { kind: KeyKind::Rsa }, 2048)?;
    Ok(SigStoreKeyPair::RSA(keys))
}

// Whether the pair makes a signer under the scheme.
fn signs_under(
    alloc: Global,
    pair: Result<SigStoreKeyPair, KeyError>,
    scheme: SigningScheme,
) -> bool {
    match pair {
        Ok(pair) => pair.to_sigstore_signer(alloc, scheme).is_ok(),
        Err(_) => false,
    }
}

// Whether the pair, of keys of this kind, is refused under the scheme.
fn is_unmatched(
    alloc: Global,
    pair: Result<SigStoreKeyPair, KeyError>,
    key: KeyKind,
    scheme: SigningScheme,
) -> bool {
    let Ok(pair) = pair else {
        return false;
    };
    match pair.to_sigstore_signer(alloc, scheme) {
        Ok(_) => false,
        Err(refusal) => refusal == KeyError::UnmatchedKeyAndSigningScheme { key, scheme },
    }
}

#[test]
fn a_pair_signs_under_the_schemes_of_its_kind(rt: HostRuntime) {
    let alloc = rt.alloc();
    assert!(rt;
        signs_under(
            alloc,
            curve_pair(alloc),
            SigningScheme::ECDSA_P384_SHA384_ASN1
        )
    );
    assert!(rt; signs_under(alloc, ed25519_pair(alloc), SigningScheme::ED25519));
    assert!(rt;
        signs_under(
            alloc,
            rsa_pair(alloc),
            SigningScheme::RSA_PKCS1_SHA256(2048)
        )
    );
}

#[test]
fn a_pair_is_refused_under_other_schemes(rt: HostRuntime) {
    let alloc = rt.alloc();
    let p256 = SigningScheme::ECDSA_P256_SHA256_ASN1;
    assert!(rt; is_unmatched(alloc, ed25519_pair(alloc), KeyKind::Ed25519, p256));
    assert!(rt; is_unmatched(alloc, curve_pair(alloc), KeyKind::P384, p256));
    assert!(rt; is_unmatched(alloc, rsa_pair(alloc), KeyKind::Rsa, SigningScheme::ED25519));
}

// Whether the verification key is `pk` under this scheme.
fn is_key(answer: Result<CosignVerificationKey, AllocError>, scheme: SigningScheme) -> bool {
    match answer {
        Ok(key) => key.scheme == scheme && key.key.as_slice() == b"pk".as_slice(),
        Err(_) => false,
    }
}

// Whether the signature is `sig1`.
fn is_signature(answer: Result<Blob, KeyError>) -> bool {
    match answer {
        Ok(signature) => signature.as_slice() == b"sig1".as_slice(),
        Err(_) => false,
    }
}

// Whether the signer signs as the maker does, returns its keys, and is verified under the scheme.
fn signs_and_keeps(alloc: Global, signer: &SigStoreSigner, scheme: SigningScheme) -> bool {
    let maker = OneKind { kind: KeyKind::Rsa };
    let signs = is_signature(signer.sign(alloc, &maker, b"hello world"));
    let keeps = match signer.to_sigstore_keypair(alloc) {
        Ok(pair) => holds_both(alloc, &pair),
        Err(_) => false,
    };
    signs && keeps && is_key(signer.to_verification_key(alloc), scheme)
}

// The same for the signer that a pair makes under the scheme.
fn pair_signs(
    alloc: Global,
    pair: Result<SigStoreKeyPair, KeyError>,
    scheme: SigningScheme,
    verified: SigningScheme,
) -> bool {
    let Ok(pair) = pair else {
        return false;
    };
    match pair.to_sigstore_signer(alloc, scheme) {
        Ok(signer) => signs_and_keeps(alloc, &signer, verified),
        Err(_) => false,
    }
}

#[test]
fn a_signer_of_a_pair_signs_and_keeps_its_keys(rt: HostRuntime) {
    let alloc = rt.alloc();
    let ed25519 = SigningScheme::ED25519;
    let p384 = SigningScheme::ECDSA_P384_SHA384_ASN1;
    let sized = SigningScheme::RSA_PSS_SHA256(2048);
    assert!(rt; pair_signs(alloc, ed25519_pair(alloc), ed25519, ed25519));
    assert!(rt; pair_signs(alloc, curve_pair(alloc), p384, p384));
    assert!(rt;
        pair_signs(
            alloc,
            rsa_pair(alloc),
            sized,
            SigningScheme::RSA_PSS_SHA256(0)
        )
    );
}

// Whether a copy of new Ed25519 keys makes signers with both keys.
fn ed25519_copies_sign(alloc: Global) -> bool {
    let Ok(keys) = Ed25519Keys::new(
        alloc,
        &OneKind {
            kind: KeyKind::Ed25519,
        },
    ) else {
        return false;
    };
    let Ok(copy) = Ed25519Keys::from_ed25519key(alloc, &keys) else {
        return false;
    };
    let Ok(signer) = Ed25519Signer::from_ed25519_keys(alloc, &copy) else {
        return false;
    };
    let Ok(any) = copy.to_sigstore_signer(alloc) else {
        return false;
    };
    holds_both(alloc, signer.key_pair()) && signs_and_keeps(alloc, &any, SigningScheme::ED25519)
}

// Whether signers of new RSA keys are verified under the schemes of their paddings.
fn rsa_copies_are_verified(alloc: Global) -> bool {
    let Ok(keys) = RSAKeys::new(alloc, &OneKind { kind: KeyKind::Rsa }, 2048) else {
        return false;
    };
    let digest = DigestAlgorithm::Sha256;
    let Ok(signer) = RSASigner::from_rsa_keys(alloc, &keys, digest, PaddingScheme::PSS) else {
        return false;
    };
    let Ok(any) = keys.to_sigstore_signer(alloc, digest, PaddingScheme::PKCS1v15) else {
        return false;
    };
    is_key(
        signer.to_verification_key(alloc),
        SigningScheme::RSA_PSS_SHA256(0),
    ) && is_key(
        any.to_verification_key(alloc),
        SigningScheme::RSA_PKCS1_SHA256(0),
    )
}

// Whether the signers of new keys on P-384 hold them.
fn curve_copies_are_held(alloc: Global) -> bool {
    let maker = OneKind {
        kind: KeyKind::P384,
    };
    let Ok(keys) = CurveKeys::new(alloc, &maker, EllipticCurve::P384) else {
        return false;
    };
    let Ok(signer) = keys.to_signer(alloc) else {
        return false;
    };
    let Ok(wrapped) = keys.to_wrapped_ecdsa_keys(alloc) else {
        return false;
    };
    let Ok(any) = wrapped.to_sigstore_signer(alloc) else {
        return false;
    };
    holds_both(alloc, signer.ecdsa_keys())
        && signs_and_keeps(alloc, &any, SigningScheme::ECDSA_P384_SHA384_ASN1)
}

#[test]
fn signers_hold_copies_of_keys(rt: HostRuntime) {
    assert!(rt; ed25519_copies_sign(rt.alloc()));
    assert!(rt; rsa_copies_are_verified(rt.alloc()));
    assert!(rt; curve_copies_are_held(rt.alloc()));
}

// Whether a maker that does not sign returns an error.
fn is_refused(alloc: Global) -> bool {
    let Ok(keys) = Ed25519Keys::new(
        alloc,
        &OneKind {
            kind: KeyKind::Ed25519,
        },
    ) else {
        return false;
    };
    let Ok(signer) = Ed25519Signer::from_ed25519_keys(alloc, &keys) else {
        return false;
    };
    match signer.sign(alloc, &NoKeys, b"hello world") {
        Ok(_) => false,
        Err(refusal) => refusal == KeyError::SigningError,
    }
}

#[test]
fn a_maker_that_does_not_sign_is_refused(rt: HostRuntime) {
    assert!(rt; is_refused(rt.alloc()));
}
