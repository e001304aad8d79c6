//! Certificates, and what is vouched for them.
use json_values::{Blob, Copied, Text, copied};
use std::alloc::{AllocError, Global};

/// The key and identity of a certificate.
#[derive(Drop)]
pub struct Vouched {
    pub key: Blob,
    pub email: Option<Text>,
    pub url: Option<Text>,
    pub issuer: Option<Text>,
}

/// A certificate and what was vouched for it.
#[derive(Drop)]
pub struct CertificateSignature {
    pub certificate: Blob,
    pub vouched: Vouched,
}

/// What a judge is asked about.
#[derive(Drop)]
pub struct Evidence {
    pub certificate: Blob,
    /// When the log accepted the entry, in seconds since 1970.
    pub integrated_time: i64,
}

impl Copied for Vouched {
    fn copy(&self, alloc: Global) -> Result<Vouched, AllocError> {
        copied!(
            alloc,
            self,
            Vouched {
                key,
                email,
                url,
                issuer
            }
        )
    }
}

impl Copied for CertificateSignature {
    fn copy(&self, alloc: Global) -> Result<CertificateSignature, AllocError> {
        copied!(
            alloc,
            self,
            CertificateSignature {
                certificate,
                vouched
            }
        )
    }
}

impl Copied for Evidence {
    fn copy(&self, alloc: Global) -> Result<Evidence, AllocError> {
        Ok(Evidence {
            certificate: self.certificate.copy(alloc)?,
            integrated_time: self.integrated_time,
        })
    }
}
