// The calls to Fulcio.
use crate::recorded::{asked, holds, script, showed};
use json_values::Text;
use oci_transport::{Method, Script};
use sig_services::{
    CertificateResponse, FULCIO_ROOT, FulcioClient, FulcioError, KeyAlgorithm, TokenProvider,
};
use std::alloc::Global;
use url::Url;

fn client(alloc: Global) -> Option<FulcioClient> {
    let root = Url::parse(alloc, FULCIO_ROOT).ok()?;
    let token = Text::new(alloc, "t").ok()?;
    let challenge = Text::new(alloc, "someone@example.com").ok()?;
    Some(FulcioClient::new(root, TokenProvider::Static(token, challenge)))
}

fn first_version(alloc: Global) -> Option<bool> {
    let client = client(alloc)?;
    let mut script = script(alloc, 201, b"cert").ok()?;
    let algorithm = KeyAlgorithm::Ed25519;
    let cert = client
        .request_cert(alloc, &mut script, algorithm, b"hello world", b"sig1")
        .ok()?;
    let url = "https://fulcio.sigstore.dev/api/v1/signingCert";
    let body =
        r#"{"publicKey":{"algorithm":"ed25519","content":"aGVsbG8gd29ybGQ="},"signedEmailAddress":"c2lnMQ=="}"#;
    let went = asked(&script, Method::Post, url, body);
    Some(
        cert.as_ref() == b"cert".as_slice() && went && showed(&script, "authorization", "Bearer t"),
    )
}

#[test]
fn a_certificate_is_asked_for_with_a_key_and_its_signature(rt: HostRuntime) {
    assert!(rt; holds(first_version(rt.alloc())));
}

fn answered(alloc: Global, script: &mut Script) -> Result<CertificateResponse, FulcioError> {
    match client(alloc) {
        Some(client) => client.request_cert_v2(alloc, script, b"csr", "t"),
        None => Err(FulcioError::WantOfMemory),
    }
}

// The certificate, the number of certificates after it, and whether it has a separate timestamp.
fn is_response(response: &CertificateResponse, cert: &str, behind: usize, detached: bool) -> bool {
    response.cert.as_str() == cert
        && response.chain.as_slice().len() == behind
        && response.detached_sct.is_some() == detached
}

fn second_version(alloc: Global, body: &str, behind: usize, detached: bool) -> Option<bool> {
    let mut script = script(alloc, 200, body.as_bytes()).ok()?;
    let response = answered(alloc, &mut script).ok()?;
    let url = "https://fulcio.sigstore.dev/api/v2/signingCert";
    let went = asked(
        &script,
        Method::Post,
        url,
        r#"{"certificateSigningRequest":"Y3Ny"}"#,
    );
    Some(went && is_response(&response, "a", behind, detached))
}

#[test]
fn a_chain_comes_with_or_without_a_timestamp(rt: HostRuntime) {
    let embedded = r#"{"signedCertificateEmbeddedSct":{"chain":{"certificates":["a","b"]}}}"#;
    assert!(rt; holds(second_version(rt.alloc(), embedded, 1, false)));
    let detached =
        "{\"signedCertificateDetachedSct\":{\"chain\":{\"certificates\":[\"a\",\"b\",\"c\"]},\
            \"signedCertificateTimestamp\":\"eyJzY3RfdmVyc2lvbiI6MCwiaWQiOiJBQUFBQUFBQUFBQUFBQUFBQUFBQUFBQUFBQUF\
            BQUFBQUFBQUFBQUFBQUFBPSIsInRpbWVzdGFtcCI6MTY1NjQ0ODEzMTAwMCwic2lnbmF0dXJlIjoiQkFNQUFxcTciLCJleHRlbnN\
            pb25zIjoiIn0=\"}}";
    assert!(rt; holds(second_version(rt.alloc(), detached, 2, true)));
}

// The first byte of a malformed body, or 0 if the chain is too short.
fn refused(alloc: Global, body: &str) -> Option<u8> {
    let mut script = script(alloc, 200, body.as_bytes()).ok()?;
    match answered(alloc, &mut script).err()? {
        FulcioError::ChainTooShort => Some(0),
        FulcioError::Json(body) => body.as_slice().first().copied(),
        _ => None,
    }
}

#[test]
fn a_certificate_without_its_issuer_is_refused(rt: HostRuntime) {
    let alone = r#"{"signedCertificateEmbeddedSct":{"chain":{"certificates":["a"]}}}"#;
    assert!(rt; refused(rt.alloc(), alone) == Some(0));
    assert!(rt; refused(rt.alloc(), "{}") == Some(123));
    assert!(rt; refused(rt.alloc(), "[]") == Some(91));
}
