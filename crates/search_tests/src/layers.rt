// Signature layers that are read and judged on their own.
use cosign_layers::{
    Constraint, PullPolicy, VerificationConstraint, first_satisfying, satisfies_policy,
};
use cosign_parts::{
    CertificateSignature, Evidence, LayerKind, Offline, SignatureLayer, SignedRow, TableJudge,
    TableVerifier, Vouched, VouchedRow, log_texts_are_canonical, signed_text,
};
use json_values::{Annotations, Blob, List, Text};
use std::alloc::{AllocError, Global};

// The SHA-256 digest of `p`.
const P_DIGEST: &str = "sha256:148de9c5a7a44d19e56cd9ae1a554bf67847afb0c58f6e12fa29ac7ddfca9940";

// A bundle whose payload is not a statement (the example of DSSE v1).
const BUNDLE: &str = "{\"mediaType\":\"application/vnd.dev.sigstore.bundle.v0.3+json\",\
        \"dsseEnvelope\":{\"payload\":\"aGVsbG8gd29ybGQ=\",\"payloadType\":\"http://example.com/HelloWorld\",\
        \"signatures\":[{\"sig\":\"c2lnMQ==\"}]},\"verificationMaterial\":{}}";

// What its signature signs.
const ENCODING: &str = "DSSEv1 29 http://example.com/HelloWorld 11 hello world";

fn holds(answer: Result<bool, AllocError>) -> bool {
    match answer {
        Ok(holds) => holds,
        Err(_) => false,
    }
}

// A payload layer `p`, signed by `sig1`.
fn layer(
    alloc: Global,
    certificate: Option<CertificateSignature>,
) -> Result<SignatureLayer, AllocError> {
    let content = Blob::new(alloc, b"p")?;
    let oci_digest = Text::new(alloc, P_DIGEST)?;
    let signature = Text::new(alloc, "c2lnMQ==")?;
    Ok(SignatureLayer {
        kind: LayerKind::Payload,
        content,
        oci_digest,
        annotations: Annotations::new(alloc),
        simple_signing: None,
        signature,
        certificate_signature: certificate,
        bundle: None,
    })
}

// A verifier for which the key `k1` signs `p` by `sig1`.
fn verifier(alloc: Global) -> Result<TableVerifier, AllocError> {
    let key = Blob::new(alloc, b"k1")?;
    let message = Text::new(alloc, P_DIGEST)?;
    let signature = Blob::new(alloc, b"sig1")?;
    let mut rows = List::new(alloc);
    rows.push(SignedRow {
        key,
        message,
        signature,
    })?;
    Ok(TableVerifier { rows })
}

// A policy of one key without constraints.
fn policy(alloc: Global, key: &[u8]) -> Result<PullPolicy, AllocError> {
    let mut keys = List::new(alloc);
    keys.push(Blob::new(alloc, key)?)?;
    Ok(PullPolicy {
        keys,
        constraints: List::new(alloc),
    })
}

fn key_signs(alloc: Global, key: &[u8]) -> Result<bool, AllocError> {
    let layer = layer(alloc, None)?;
    let policy = policy(alloc, key)?;
    let verifier = verifier(alloc)?;
    satisfies_policy(alloc, &verifier, &policy, &layer)
}

fn certified(alloc: Global, key: &[u8]) -> Result<SignatureLayer, AllocError> {
    let certificate = Blob::new(alloc, b"c")?;
    let vouched = vouched(alloc, key)?;
    layer(
        alloc,
        Some(CertificateSignature {
            certificate,
            vouched,
        }),
    )
}

fn vouched(alloc: Global, key: &[u8]) -> Result<Vouched, AllocError> {
    Ok(Vouched {
        key: Blob::new(alloc, key)?,
        email: None,
        url: None,
        issuer: None,
    })
}

// The index of the layer that satisfies the policy by its certificate's key.
fn second_stands(alloc: Global) -> Result<bool, AllocError> {
    let mut layers = List::new(alloc);
    layers.push(certified(alloc, b"k2")?)?;
    layers.push(certified(alloc, b"k1")?)?;
    let policy = policy(alloc, b"k2")?;
    let verifier = verifier(alloc)?;
    let place = first_satisfying(alloc, &verifier, &policy, layers.as_slice())?;
    Ok(place == Some(1))
}

#[test]
fn a_layer_stands_under_a_policy_key_or_its_vouched_key(rt: HostRuntime) {
    assert!(rt; holds(key_signs(rt.alloc(), b"k1")) && !holds(key_signs(rt.alloc(), b"k2")));
    assert!(rt; holds(second_stands(rt.alloc())));
    log_texts_are_canonical();
}

/// Accepts a layer without a certificate.
#[derive(Drop)]
struct WithoutCertificate;

impl VerificationConstraint for WithoutCertificate {
    ghost use Rattle.std.specs.Option.{is_none};

    ghost accepts = { λ _ layer. is_none layer.certificate_signature };

    fn verify(&self, layer: &SignatureLayer) -> Result<bool, AllocError> {
        Ok(layer.certificate_signature.is_none())
    }
}

fn own_is_asked(alloc: Global, layer: SignatureLayer) -> Result<bool, AllocError> {
    let boxed: Box<dyn VerificationConstraint> = Box::new(alloc, WithoutCertificate)?;
    let constraint = Constraint::Own(boxed);
    constraint.verify(&layer)
}

fn plain_is_accepted(alloc: Global) -> Result<bool, AllocError> {
    let layer = layer(alloc, None)?;
    own_is_asked(alloc, layer)
}

fn certified_is_accepted(alloc: Global) -> Result<bool, AllocError> {
    let layer = certified(alloc, b"k1")?;
    own_is_asked(alloc, layer)
}

#[test]
fn a_constraint_of_the_callers_own_is_asked(rt: HostRuntime) {
    assert!(rt; holds(plain_is_accepted(rt.alloc())));
    assert!(rt; !holds(certified_is_accepted(rt.alloc())));
}

// A judge with this many rows that vouch for `c`.
fn judge(alloc: Global, times: u8) -> Result<Option<TableJudge>, AllocError> {
    let mut rows = List::new(alloc);
    for _ in 0..times {
        let certificate = Blob::new(alloc, b"c")?;
        let vouched = vouched(alloc, b"k1")?;
        rows.push(VouchedRow {
            certificate,
            vouched,
        })?;
    }
    Ok(TableJudge::new(rows))
}

fn vouches(alloc: Global, certificate: &[u8]) -> Result<bool, AllocError> {
    let Some(judge) = judge(alloc, 1)? else {
        return Ok(false);
    };
    let evidence = Evidence {
        certificate: Blob::new(alloc, certificate)?,
        integrated_time: 1,
    };
    let found = judge.judge(alloc, &evidence)?;
    Ok(found.is_some())
}

fn is_made(alloc: Global, times: u8) -> Result<bool, AllocError> {
    let judge = judge(alloc, times)?;
    Ok(judge.is_some())
}

#[test]
fn a_table_vouches_for_its_certificates(rt: HostRuntime) {
    assert!(rt; holds(vouches(rt.alloc(), b"c")) && !holds(vouches(rt.alloc(), b"d")));
    assert!(rt; !holds(is_made(rt.alloc(), 2)));
}

// The text that the bundle's signature signs.
fn encoded(alloc: Global) -> Result<Blob, AllocError> {
    let mut layer = layer(alloc, None)?;
    layer.kind = LayerKind::Bundle;
    layer.content = Blob::new(alloc, BUNDLE.as_bytes())?;
    signed_text(alloc, &layer)
}

fn is_encoded(alloc: Global) -> bool {
    match encoded(alloc) {
        Ok(text) => text.as_slice() == ENCODING.as_bytes(),
        Err(_) => false,
    }
}

#[test]
fn a_bundle_signs_its_envelopes_encoding(rt: HostRuntime) {
    assert!(rt; is_encoded(rt.alloc()));
}
