// Certificates.
use json_values::{Blob, Copied, copied};
use std::alloc::{AllocError, Global};

/// The encoding of a certificate's bytes (RFC 7468 for `Pem`).
#[derive(Clone, Copy, Debug, PartialEq, Eq)]
pub enum CertificateEncoding {
    Der,
    Pem,
}

impl Copied for CertificateEncoding {
    fn copy(&self, _alloc: Global) -> Result<CertificateEncoding, AllocError> {
        Ok(*self)
    }
}

/// A certificate by which a connection is trusted. No call here inspects it: connections are the transport's.
#[derive(Debug, Drop)]
pub struct Certificate {
    pub encoding: CertificateEncoding,
    pub content: Blob,
}

impl Copied for Certificate {
    fn copy(&self, alloc: Global) -> Result<Certificate, AllocError> {
        copied!(alloc, self, Certificate { encoding, content })
    }
}
