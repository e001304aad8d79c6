// Key pairs: how they are made, parsed and copied.
use crate::makers::{NoKeys, OneKind};
use json_values::Blob;
use sig_keys::ecdsa::ECDSAKeys;
use sig_keys::ecdsa::ec::EcdsaKeys as CurveKeys;
use sig_keys::ed25519::Ed25519Keys;
use sig_keys::rsa::RSAKeys;
use sig_keys::{EllipticCurve, KeyError, KeyKind, KeyPair, SigStoreKeyPair};
use std::alloc::{AllocError, Global};
use std::fmt;

// Whether the result is these bytes.
pub(crate) fn is_bytes(answer: Result<Blob, AllocError>, want: &[u8]) -> bool {
    match answer {
        Ok(bytes) => bytes.as_slice() == want,
        Err(_) => false,
    }
}

// Whether the pair has the private key `sk` and the public key `pk`.
pub(crate) fn holds_both<P: KeyPair>(alloc: Global, pair: &P) -> bool {
    is_bytes(pair.private_key_to_der(alloc), b"sk")
        && is_bytes(pair.public_key_to_der(alloc), b"pk")
}

fn is_pair<P: KeyPair + Drop>(alloc: Global, answer: Result<P, KeyError>) -> bool {
    match answer {
        Ok(pair) => holds_both(alloc, &pair),
        Err(_) => false,
    }
}

fn is_refused<P: Drop>(answer: Result<P, KeyError>, want: KeyError) -> bool {
    match answer {
        Ok(_) => false,
        Err(refusal) => refusal == want,
    }
}

#[test]
fn what_no_maker_reads_is_no_key(rt: HostRuntime) {
    let alloc = rt.alloc();
    assert!(rt;
        is_refused(
            CurveKeys::from_der(alloc, &NoKeys, b"sk"),
            KeyError::KeyParseError
        )
    );
    assert!(rt;
        is_refused(
            Ed25519Keys::from_der(alloc, &NoKeys, b"sk"),
            KeyError::KeyParseError
        )
    );
    assert!(rt;
        is_refused(
            SigStoreKeyPair::from_pkcs8_der(alloc, &NoKeys, b"sk"),
            KeyError::KeyParseError
        )
    );
}

#[test]
fn a_maker_that_makes_none_is_refused(rt: HostRuntime) {
    let alloc = rt.alloc();
    assert!(rt;
        is_refused(
            Ed25519Keys::new(alloc, &NoKeys),
            KeyError::KeyGenerationError
        )
    );
    assert!(rt;
        is_refused(
            RSAKeys::new(alloc, &NoKeys, 1024),
            KeyError::KeyGenerationError
        )
    );
}

#[test]
fn new_keys_are_those_of_the_maker(rt: HostRuntime) {
    let alloc = rt.alloc();
    let maker = OneKind { kind: KeyKind::Rsa };
    assert!(rt; is_pair(alloc, Ed25519Keys::new(alloc, &maker)));
    assert!(rt; is_pair(alloc, RSAKeys::new(alloc, &maker, 2048)));
    assert!(rt; is_pair(alloc, ECDSAKeys::new(alloc, &maker, EllipticCurve::P384)));
}

// Whether a private key of only this kind is parsed as one of this kind.
fn is_read_as(alloc: Global, kind: KeyKind, want: &str) -> bool {
    match SigStoreKeyPair::from_der(alloc, &OneKind { kind }, b"sk") {
        Ok(pair) => holds_both(alloc, &pair) && is_printed(alloc, &pair, want),
        Err(_) => false,
    }
}

// Whether the value is printed as this text.
pub(crate) fn is_printed<T: fmt::Display>(alloc: Global, value: &T, want: &str) -> bool {
    match format!(in alloc; "{value}") {
        Ok(text) => text.as_str() == want,
        Err(_) => false,
    }
}

#[test]
fn private_keys_are_read_as_the_first_kind_that_they_are_of(rt: HostRuntime) {
    for (kind, want) in [
        (KeyKind::P521, "EC Key"),
        (KeyKind::Ed25519, "Ed25519 Key"),
        (KeyKind::Rsa, "RSA Key"),
    ] {
        assert!(rt; is_read_as(rt.alloc(), kind, want), "{want}");
    }
}

// Whether keys on only this curve are parsed on it, and wrapped under its variant.
fn is_wrapped(alloc: Global, kind: KeyKind, want: &str) -> bool {
    let Ok(keys) = CurveKeys::from_pkcs8_der(alloc, &OneKind { kind }, b"sk") else {
        return false;
    };
    match keys.to_wrapped_ecdsa_keys(alloc) {
        Ok(wrapped) => is_printed(alloc, &wrapped, want) && holds_both(alloc, &wrapped),
        Err(_) => false,
    }
}

#[test]
fn ecdsa_keys_are_wrapped_under_their_curve(rt: HostRuntime) {
    assert!(rt; is_wrapped(rt.alloc(), KeyKind::P384, "ECDSA P384"));
    assert!(rt; is_wrapped(rt.alloc(), KeyKind::P521, "ECDSA P521"));
    assert!(rt; is_printed(rt.alloc(), &EllipticCurve::P256, "P256"));
}

// Whether new keys on P-256 are printed as this text.
fn are_shown(alloc: Global, want: &str) -> bool {
    let maker = OneKind {
        kind: KeyKind::P256,
    };
    let Ok(keys) = CurveKeys::new(alloc, &maker, EllipticCurve::P256) else {
        return false;
    };
    match format!(in alloc; "{keys:?}") {
        Ok(text) => text.as_str() == want,
        Err(_) => false,
    }
}

#[test]
fn no_key_is_shown(rt: HostRuntime) {
    assert!(rt; are_shown(rt.alloc(), "EcdsaKeys { curve: P256, .. }"));
}
