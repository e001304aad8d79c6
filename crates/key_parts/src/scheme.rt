//! Kinds of keys, and the schemes under which they sign.
ghost use Rattle.std.specs.Prelude.{◌≡◌};
ghost use Rattle.key_parts.specs.Scheme.{kind_of, curve_scheme, padding_scheme, padding_under, fits};

use json_values::Copied;
use std::alloc::{AllocError, Global};
use std::fmt;

/// A kind of keys.
#[derive(Clone, Copy, Debug, PartialEq, Eq)]
pub enum KeyKind {
    /// ECDSA on the curve P-256 (FIPS 186-5).
    P256,
    /// ECDSA on the curve P-384.
    P384,
    /// ECDSA on the curve P-521.
    P521,
    /// Ed25519 (RFC 8032).
    Ed25519,
    /// RSA (RFC 8017).
    Rsa,
}

/// A curve of ECDSA keys (FIPS 186-5).
#[derive(Clone, Copy, Debug, PartialEq, Eq)]
pub enum EllipticCurve {
    P256,
    P384,
    P521,
}

/// How an RSA signer hashes a message.
#[derive(Clone, Copy, Debug, PartialEq, Eq)]
pub enum DigestAlgorithm {
    Sha256,
}

/// How an RSA signer pads the digest of a message (RFC 8017, 8).
#[derive(Clone, Copy, Debug, PartialEq, Eq)]
pub enum PaddingScheme {
    PSS,
    PKCS1v15,
}

/// How a message is signed. The number of an RSA scheme is the size of its keys in bits, or 0 if unspecified.
#[derive(Clone, Copy, Debug, PartialEq, Eq)]
pub enum SigningScheme {
    RSA_PSS_SHA256(usize),
    RSA_PKCS1_SHA256(usize),
    ECDSA_P256_SHA256_ASN1,
    ECDSA_P384_SHA384_ASN1,
    ECDSA_P521_SHA512_ASN1,
    ED25519,
}

impl EllipticCurve {
    /// Returns the kind of the curve's keys.
    pub fn kind(&self) -> KeyKind
        ensures { result ≡ kind_of self.now }
    {
        match self {
            EllipticCurve::P256 => KeyKind::P256,
            EllipticCurve::P384 => KeyKind::P384,
            EllipticCurve::P521 => KeyKind::P521,
        }
    }

    /// Returns the scheme under which the curve's keys sign.
    pub fn scheme(&self) -> SigningScheme
        ensures { result ≡ curve_scheme self.now }
    {
        match self {
            EllipticCurve::P256 => SigningScheme::ECDSA_P256_SHA256_ASN1,
            EllipticCurve::P384 => SigningScheme::ECDSA_P384_SHA384_ASN1,
            EllipticCurve::P521 => SigningScheme::ECDSA_P521_SHA512_ASN1,
        }
    }
}

impl PaddingScheme {
    /// Returns the scheme of an RSA signer with this padding, with number 0.
    pub fn scheme(&self) -> SigningScheme
        ensures { result ≡ padding_scheme self.now }
    {
        match self {
            PaddingScheme::PSS => SigningScheme::RSA_PSS_SHA256(0),
            PaddingScheme::PKCS1v15 => SigningScheme::RSA_PKCS1_SHA256(0),
        }
    }
}

impl SigningScheme {
    /// Returns whether keys of this kind sign under the scheme.
    pub fn fits(&self, key: KeyKind) -> bool
        ensures { result ≡ fits key self.now }
    {
        match self {
            SigningScheme::RSA_PSS_SHA256(_) => key == KeyKind::Rsa,
            SigningScheme::RSA_PKCS1_SHA256(_) => key == KeyKind::Rsa,
            SigningScheme::ECDSA_P256_SHA256_ASN1 => key == KeyKind::P256,
            SigningScheme::ECDSA_P384_SHA384_ASN1 => key == KeyKind::P384,
            SigningScheme::ECDSA_P521_SHA512_ASN1 => key == KeyKind::P521,
            SigningScheme::ED25519 => key == KeyKind::Ed25519,
        }
    }

    /// Returns the padding of an RSA scheme.
    pub fn padding(&self) -> PaddingScheme
        ensures { result ≡ padding_under self.now }
    {
        match self {
            SigningScheme::RSA_PKCS1_SHA256(_) => PaddingScheme::PKCS1v15,
            _ => PaddingScheme::PSS,
        }
    }
}

impl fmt::Display for EllipticCurve {
    ghost use Rattle.std.specs.Prelude.{Some};
    ghost use Rattle.std.specs.Fmt.{DisplaysOnOk, WritesStyledOnOk};
    ghost use Rattle.key_parts.specs.Shown.{curve_name};

    ghost output = { λ curve. Some (curve_name curve) };

    fn fmt<W: fmt::Write>(&self, f: &mut fmt::Formatter<W>) -> fmt::Result
        ensures writes { DisplaysOnOk W.write_str_gives f.old result (Some (curve_name self.now)) f.new }
        ensures styled { WritesStyledOnOk W.write_str_gives f.old result (curve_name self.now) f.new }
    {
        match self {
            EllipticCurve::P256 => f.write_str("P256"),
            EllipticCurve::P384 => f.write_str("P384"),
            EllipticCurve::P521 => f.write_str("P521"),
        }
    }
}

impl Copied for KeyKind {
    fn copy(&self, _alloc: Global) -> Result<KeyKind, AllocError> {
        Ok(*self)
    }
}

impl Copied for EllipticCurve {
    fn copy(&self, _alloc: Global) -> Result<EllipticCurve, AllocError> {
        Ok(*self)
    }
}

impl Copied for DigestAlgorithm {
    fn copy(&self, _alloc: Global) -> Result<DigestAlgorithm, AllocError> {
        Ok(*self)
    }
}

impl Copied for PaddingScheme {
    fn copy(&self, _alloc: Global) -> Result<PaddingScheme, AllocError> {
        Ok(*self)
    }
}

impl Copied for SigningScheme {
    fn copy(&self, _alloc: Global) -> Result<SigningScheme, AllocError> {
        Ok(*self)
    }
}
