// Certificates of registries.
ghost use Rattle.std.specs.Prelude.{◌≡◌, ◌↔◌, IsTrue};
ghost use Rattle.sig_registry.specs.Certificate.{place};

use json_values::{Blob, Copied};
use std::alloc::{AllocError, Global};
use std::cmp::Ordering;

/// The encoding of a certificate.
#[derive(Clone, Copy, Debug)]
pub enum CertificateEncoding {
    Der,
    Pem,
}

impl CertificateEncoding {
    fn place(&self) -> u8
        ensures { result ≡ place self.now }
    {
        match self {
            CertificateEncoding::Der => 0,
            CertificateEncoding::Pem => 1,
        }
    }
}

impl PartialEq for CertificateEncoding {
    ghost use Rattle.std.specs.Cmp.{partial_equiv_from_equiv};
    ghost use Rattle.sig_registry.specs.Certificate.{is_same_encoding, equal_encodings};

    ghost eq = { is_same_encoding };

    ghost laws = { partial_equiv_from_equiv equal_encodings };

    fn eq(&self, other: &CertificateEncoding) -> bool
        ensures value { result ≡ is_same_encoding self.now other.now }
        ensures same { IsTrue result ↔ (self.now ≡ other.now) }
    {
        self.place() == other.place()
    }
}

impl Eq for CertificateEncoding {
    ghost use Rattle.sig_registry.specs.Certificate.{equal_encodings};

    ghost laws = { equal_encodings };
}

impl From<CertificateEncoding> for oci_engine::CertificateEncoding {
    ghost use Rattle.sig_registry.specs.Certificate.{oci_encoding};

    ghost from_gives = { λ given encoding. encoding ≡ oci_encoding given };

    fn from(encoding: CertificateEncoding) -> Self {
        match encoding {
            CertificateEncoding::Der => oci_engine::CertificateEncoding::Der,
            CertificateEncoding::Pem => oci_engine::CertificateEncoding::Pem,
        }
    }
}

/// A certificate: an encoding and the bytes in it.
#[derive(Debug, Drop)]
pub struct Certificate {
    pub encoding: CertificateEncoding,
    pub content: Blob,
}

impl From<Certificate> for oci_engine::Certificate {
    ghost use Rattle.sig_registry.specs.Certificate.{oci_certificate};

    ghost from_gives = { λ given certificate. certificate ≡ oci_certificate given };

    fn from(certificate: Certificate) -> Self {
        let Certificate { encoding, content } = certificate;
        oci_engine::Certificate {
            encoding: oci_engine::CertificateEncoding::from(encoding),
            content,
        }
    }
}

impl Copied for CertificateEncoding {
    fn copy(&self, _alloc: Global) -> Result<CertificateEncoding, AllocError> {
        Ok(*self)
    }
}

impl Copied for Certificate {
    fn copy(&self, alloc: Global) -> Result<Certificate, AllocError> {
        let content = self.content.copy(alloc)?;
        Ok(Certificate {
            encoding: self.encoding,
            content,
        })
    }
}

/// Equal if contents and encodings are equal.
impl PartialEq for Certificate {
    ghost use Rattle.std.specs.Cmp.{partial_equiv_from_equiv};
    ghost use Rattle.sig_registry.specs.Certificate.{is_same, equal};

    ghost eq = { is_same };

    ghost laws = { partial_equiv_from_equiv equal };

    fn eq(&self, other: &Certificate) -> bool
        ensures value { result ≡ is_same self.now other.now }
        ensures same { IsTrue result ↔ (self.now ≡ other.now) }
    {
        self.content.as_slice() == other.content.as_slice() && self.encoding == other.encoding
    }
}

impl Eq for Certificate {
    ghost use Rattle.sig_registry.specs.Certificate.{equal};

    ghost laws = { equal };
}

impl PartialOrd for Certificate {
    ghost use Rattle.std.specs.Prelude.{Some};
    ghost use Rattle.sig_registry.specs.Certificate.{order, partly_ordered};

    ghost partial_cmp = { λ a b. Some (order a b) };

    ghost laws = { partly_ordered };

    fn partial_cmp(&self, other: &Certificate) -> Option<Ordering> {
        Some(self.cmp(other))
    }
}

/// Compares by content, byte by byte, then `Der` before `Pem`.
impl Ord for Certificate {
    ghost use Rattle.std.proofs.Common.{rules};
    ghost use Rattle.std.specs.Cmp.Rules.{comparing};
    ghost use Rattle.sig_registry.specs.Certificate.{order, ordered};

    ghost cmp = { order };

    ghost total = { ordered };

    ghost matches_partial_cmp = { Prim.search (comparing, rules) };

    ghost matches_eq = { Prim.search (comparing, rules) };

    fn cmp(&self, other: &Certificate) -> Ordering {
        self.content
            .as_slice()
            .cmp(other.content.as_slice())
            .then(self.encoding.place().cmp(&other.encoding.place()))
    }
}
