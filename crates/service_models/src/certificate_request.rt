ghost use Rattle.std.specs.Prelude.{◌≡◌, IfOk};
ghost use Rattle.base64.specs.Engines.{standard};
ghost use Rattle.base64.specs.GeneralPurpose.{encode_of};
ghost use Rattle.service_models.specs.CertificateRequest.{algorithm_text, public_key_written};

use base64::engine::general_purpose::STANDARD;
use json_tables::object;
use json_values::{Copied, Json, Text, ToValue};
use serde_json::Value;
use std::alloc::{AllocError, Global};

/// The algorithm of a public key.
#[derive(Clone, Copy, Debug, PartialEq, Eq)]
pub enum KeyAlgorithm {
    Ecdsa,
    Ed25519,
    Rsa,
}

/// A request for a certificate (Fulcio's API, version 1).
#[derive(Debug, Drop)]
pub struct CertificateRequest<'a> {
    pub algorithm: KeyAlgorithm,
    /// The public key in DER.
    pub public_key: &'a [u8],
    /// The key's signature over the challenge.
    pub signature: &'a [u8],
}

/// A request for a certificate (Fulcio's API, version 2).
#[derive(Debug, Drop)]
pub struct CreateSigningCertificateRequest<'a> {
    /// A certificate signing request in PEM (RFC 2986).
    pub certificate_signing_request: &'a [u8],
}

#[tactic(auto, unfolding(crate::specs::CertificateRequest::algorithm_text))]
fn algorithm_text(algorithm: KeyAlgorithm) -> &'static str
    ensures { result.now ≡ algorithm_text algorithm }
{
    match algorithm {
        KeyAlgorithm::Ecdsa => "ecdsa",
        KeyAlgorithm::Ed25519 => "ed25519",
        KeyAlgorithm::Rsa => "rsa",
    }
}

// Encodes padded standard base64 (RFC 4648, 4).
fn encoded(alloc: Global, bytes: &[u8]) -> Result<Text, AllocError>
    ensures { IfOk result (λ text. text ≡ encode_of standard bytes.now) }
{
    let text = STANDARD.encode(alloc, bytes)?;
    Text::new(alloc, text.as_str())
}

fn public_key_value(
    alloc: Global,
    algorithm: KeyAlgorithm,
    content: &[u8],
) -> Result<Json, AllocError>
    ensures { IfOk result (λ json. json ≡ public_key_written algorithm content.now) }
{
    let content = encoded(alloc, content)?;
    let value = object!(alloc, {
        "algorithm": &algorithm_text(algorithm),
        "content": &content,
    })?;
    Ok(Json::new(value))
}

impl<'a> ToValue for CertificateRequest<'a> {
    ghost use Rattle.service_models.specs.CertificateRequest.{request_written};

    ghost written = { λ r. request_written r.algorithm r.public_key.now r.signature.now };

    fn to_value(&self, alloc: Global) -> Result<Value, AllocError> {
        let public_key = public_key_value(alloc, self.algorithm, self.public_key)?;
        let signature = encoded(alloc, self.signature)?;
        let value = object!(alloc, {
            "publicKey": &public_key,
            "signedEmailAddress": &signature,
        })?;
        Ok(value)
    }
}

impl<'a> ToValue for CreateSigningCertificateRequest<'a> {
    ghost use Rattle.service_models.specs.CertificateRequest.{signing_request_written};

    ghost written = { λ r. signing_request_written r.certificate_signing_request.now };

    fn to_value(&self, alloc: Global) -> Result<Value, AllocError> {
        let request = encoded(alloc, self.certificate_signing_request)?;
        let value = object!(alloc, {
            "certificateSigningRequest": &request,
        })?;
        Ok(value)
    }
}

impl Copied for KeyAlgorithm {
    fn copy(&self, _alloc: Global) -> Result<KeyAlgorithm, AllocError> {
        Ok(*self)
    }
}
