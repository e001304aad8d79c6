ghost use Rattle.json_tables.specs.Outcomes.{ReadsTo};
ghost use Rattle.json_tables.specs.Plain.{read_plain};
ghost use Rattle.service_models.specs.Sct.{inner_sct_of};

use crate::sct::InnerDetachedSCT;
use crate::single::single;
use json_tables::{ReadError, Reads, read_plain, required, required_base64};
use json_values::{Blob, Copied, List, Text, copied};
use serde_json::Value;
use std::alloc::{AllocError, Global};

/// Certificates in PEM, each signed by the next one.
#[derive(Debug, Drop)]
pub struct CertificateChain {
    pub certificates: List<Text>,
}

/// A certificate with a separate timestamp (Fulcio's API, `SigningCertificateDetachedSCT`).
#[derive(Debug, Drop)]
pub struct SigningCertificateDetachedSCT {
    pub chain: CertificateChain,
    pub signed_certificate_timestamp: InnerDetachedSCT,
}

/// A certificate with its timestamp inside (Fulcio's API, `SigningCertificateEmbeddedSCT`).
#[derive(Debug, Drop)]
pub struct SigningCertificateEmbeddedSCT {
    pub chain: CertificateChain,
}

/// The response of Fulcio (its API, `SigningCertificate`).
#[derive(Debug, Drop)]
pub enum SigningCertificate {
    SignedCertificateDetachedSct(SigningCertificateDetachedSCT),
    SignedCertificateEmbeddedSct(SigningCertificateEmbeddedSCT),
}

impl Reads for CertificateChain {
    ghost use Rattle.service_models.specs.Certificate.{chain_of};

    ghost reading = { chain_of };

    #[tactic(auto, unfolding(crate::specs::Certificate::chain_of))]
    fn read_value(alloc: Global, value: &Value) -> Result<CertificateChain, ReadError> {
        let certificates = required(alloc, value, "certificates")?;
        Ok(CertificateChain { certificates })
    }
}

fn inner_sct(alloc: Global, bytes: &Blob) -> Result<InnerDetachedSCT, ReadError>
    ensures { ReadsTo result (read_plain inner_sct_of bytes.now) }
{
    match read_plain(alloc, bytes.as_slice())? {
        Some(sct) => Ok(sct),
        None => Err(ReadError::Shape),
    }
}

impl Reads for SigningCertificateDetachedSCT {
    ghost use Rattle.service_models.specs.Certificate.{detached_of};

    ghost reading = { detached_of };

    #[tactic(auto, unfolding(crate::specs::Certificate::detached_of))]
    fn read_value(
        alloc: Global,
        value: &Value,
    ) -> Result<SigningCertificateDetachedSCT, ReadError> {
        let chain = required(alloc, value, "chain")?;
        let bytes = required_base64(alloc, value, "signedCertificateTimestamp")?;
        let signed_certificate_timestamp = inner_sct(alloc, &bytes)?;
        Ok(SigningCertificateDetachedSCT {
            chain,
            signed_certificate_timestamp,
        })
    }
}

impl Reads for SigningCertificateEmbeddedSCT {
    ghost use Rattle.service_models.specs.Certificate.{embedded_of};

    ghost reading = { embedded_of };

    #[tactic(auto, unfolding(crate::specs::Certificate::embedded_of))]
    fn read_value(
        alloc: Global,
        value: &Value,
    ) -> Result<SigningCertificateEmbeddedSCT, ReadError> {
        let chain = required(alloc, value, "chain")?;
        Ok(SigningCertificateEmbeddedSCT { chain })
    }
}

impl Reads for SigningCertificate {
    ghost use Rattle.service_models.specs.Certificate.{signing_certificate_of};

    ghost reading = { signing_certificate_of };

    #[tactic(auto, unfolding(crate::specs::Certificate::signing_certificate_of))]
    fn read_value(alloc: Global, value: &Value) -> Result<SigningCertificate, ReadError> {
        match single(value) {
            Some(("signedCertificateDetachedSct", member)) => {
                let certificate = SigningCertificateDetachedSCT::read_value(alloc, member)?;
                Ok(SigningCertificate::SignedCertificateDetachedSct(certificate))
            }
            Some(("signedCertificateEmbeddedSct", member)) => {
                let certificate = SigningCertificateEmbeddedSCT::read_value(alloc, member)?;
                Ok(SigningCertificate::SignedCertificateEmbeddedSct(certificate))
            }
            _ => Err(ReadError::Shape),
        }
    }
}

impl Copied for CertificateChain {
    fn copy(&self, alloc: Global) -> Result<CertificateChain, AllocError> {
        let certificates = self.certificates.copy(alloc)?;
        Ok(CertificateChain { certificates })
    }
}

impl Copied for SigningCertificateDetachedSCT {
    fn copy(&self, alloc: Global) -> Result<SigningCertificateDetachedSCT, AllocError> {
        copied!(
            alloc,
            self,
            SigningCertificateDetachedSCT {
                chain,
                signed_certificate_timestamp
            }
        )
    }
}

impl Copied for SigningCertificateEmbeddedSCT {
    fn copy(&self, alloc: Global) -> Result<SigningCertificateEmbeddedSCT, AllocError> {
        let chain = self.chain.copy(alloc)?;
        Ok(SigningCertificateEmbeddedSCT { chain })
    }
}

impl Copied for SigningCertificate {
    fn copy(&self, alloc: Global) -> Result<SigningCertificate, AllocError> {
        match self {
            SigningCertificate::SignedCertificateDetachedSct(certificate) => {
                let certificate = certificate.copy(alloc)?;
                Ok(SigningCertificate::SignedCertificateDetachedSct(certificate))
            }
            SigningCertificate::SignedCertificateEmbeddedSct(certificate) => {
                let certificate = certificate.copy(alloc)?;
                Ok(SigningCertificate::SignedCertificateEmbeddedSct(certificate))
            }
        }
    }
}
