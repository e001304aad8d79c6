//! Constraints on the subject of a certificate.
ghost use Rattle.std.specs.Prelude.{◌≡◌};
ghost use Rattle.cosign_layers.specs.Constraint.{has_email, has_url};
ghost use Rattle.cosign_layers.specs.Subject.{has_issuer, is_text};

use crate::constraint::VerificationConstraint;
use cosign_parts::SignatureLayer;
use json_values::{Copied, Text, copied};
use std::alloc::{AllocError, Global};

/// Accepts a layer with a certificate that is vouched for with this email.
#[derive(Drop)]
pub struct CertSubjectEmailVerifier {
    pub email: Text,
    /// The required issuer; `None` accepts any.
    pub issuer: Option<Text>,
}

/// Accepts a layer with a certificate that is vouched for with this URL and issuer.
#[derive(Drop)]
pub struct CertSubjectUrlVerifier {
    pub url: Text,
    pub issuer: Text,
}

impl VerificationConstraint for CertSubjectEmailVerifier {
    ghost use Rattle.cosign_layers.specs.Constraint.{has_email};

    ghost accepts = { λ asked layer. has_email asked layer.certificate_signature };

    fn verify(&self, layer: &SignatureLayer) -> Result<bool, AllocError> {
        let Some(certificate) = &layer.certificate_signature else {
            return Ok(false);
        };
        let vouched = &certificate.vouched;
        Ok(is_text(&self.email, &vouched.email) && has_issuer(&self.issuer, &vouched.issuer))
    }
}

impl VerificationConstraint for CertSubjectUrlVerifier {
    ghost use Rattle.cosign_layers.specs.Constraint.{has_url};

    ghost accepts = { λ asked layer. has_url asked layer.certificate_signature };

    fn verify(&self, layer: &SignatureLayer) -> Result<bool, AllocError> {
        let Some(certificate) = &layer.certificate_signature else {
            return Ok(false);
        };
        let vouched = &certificate.vouched;
        Ok(is_text(&self.url, &vouched.url) && is_text(&self.issuer, &vouched.issuer))
    }
}

// Whether there is a string, and it is this one.
fn is_text(text: &Text, found: &Option<Text>) -> bool
    ensures { result ≡ is_text text.now found.now }
{
    match found {
        None => false,
        Some(found) => found.as_str() == text.as_str(),
    }
}

// Whether the issuer is the required one, if one is required.
fn has_issuer(issuer: &Option<Text>, found: &Option<Text>) -> bool
    ensures { result ≡ has_issuer issuer.now found.now }
{
    match issuer {
        None => true,
        Some(issuer) => is_text(issuer, found),
    }
}

impl Copied for CertSubjectEmailVerifier {
    fn copy(&self, alloc: Global) -> Result<CertSubjectEmailVerifier, AllocError> {
        copied!(alloc, self, CertSubjectEmailVerifier { email, issuer })
    }
}

impl Copied for CertSubjectUrlVerifier {
    fn copy(&self, alloc: Global) -> Result<CertSubjectUrlVerifier, AllocError> {
        copied!(alloc, self, CertSubjectUrlVerifier { url, issuer })
    }
}
