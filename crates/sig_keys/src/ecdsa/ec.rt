//! ECDSA keys of one curve, and their signer.
ghost use Rattle.std.specs.Prelude.{◌≡◌, IfOk};
ghost use Rattle.sig_keys.specs.Ec.{keys_on, ecdsa_keys_of, ecdsa_signer, MadeKeys};
ghost use Rattle.sig_keys.specs.Ecdsa.{wrapped};
ghost use Rattle.key_parts.specs.Outcomes.{Makes, Parses};
ghost use Rattle.key_parts.specs.Scheme.{kind_of, curve_scheme};

use super::ECDSAKeys as AnyCurveKeys;
use crate::signer::Signer;
use json_values::{Blob, Copied, copied};
use key_parts::{CosignVerificationKey, EllipticCurve, KeyError, KeyMaker, KeyPair, SigningScheme};
use std::alloc::{AllocError, Global};
use std::fmt;

/// ECDSA keys of one curve.
#[derive(Drop)]
pub struct EcdsaKeys {
    pub curve: EllipticCurve,
    /// The private key, PKCS 8 in DER.
    pub pkcs8_der: Blob,
    /// The public key, SubjectPublicKeyInfo in DER.
    pub spki_der: Blob,
}

/// Signs under the scheme of its keys' curve.
#[derive(Drop)]
pub struct EcdsaSigner {
    pub keys: EcdsaKeys,
}

impl EcdsaKeys {
    /// Makes new keys on this curve. Returns `KeyGenerationError` if and only if the maker makes none.
    pub fn new<M: KeyMaker>(
        alloc: Global,
        maker: &M,
        curve: EllipticCurve,
    ) -> Result<Self, KeyError>
        ensures { Makes result (M.can_make maker.now (kind_of curve) 0) (MadeKeys (M.Made maker.now) curve) }
    {
        match maker.generate(alloc, curve.kind(), 0)? {
            Some((pkcs8_der, spki_der)) => Ok(EcdsaKeys {
                curve,
                pkcs8_der,
                spki_der,
            }),
            None => Err(KeyError::KeyGenerationError),
        }
    }

    /// Parses a private key on the first of P-256, P-384 and P-521 on which the maker parses it. Returns
    /// `KeyParseError` if and only if there is none.
    pub fn from_der<M: KeyMaker>(alloc: Global, maker: &M, pkcs8: &[u8]) -> Result<Self, KeyError>
        ensures { Parses result (ecdsa_keys_of (M.public_of maker.now) pkcs8.now) }
    {
        match Self::read(alloc, maker, pkcs8)? {
            Some(keys) => Ok(keys),
            None => Err(KeyError::KeyParseError),
        }
    }

    /// Does the same as `from_der`.
    pub fn from_pkcs8_der<M: KeyMaker>(
        alloc: Global,
        maker: &M,
        pkcs8: &[u8],
    ) -> Result<Self, KeyError>
        ensures { Parses result (ecdsa_keys_of (M.public_of maker.now) pkcs8.now) }
    {
        Self::from_der(alloc, maker, pkcs8)
    }

    // Returns the keys on the first curve on which the maker parses them.
    pub(crate) fn read<M: KeyMaker>(
        alloc: Global,
        maker: &M,
        pkcs8: &[u8],
    ) -> Result<Option<EcdsaKeys>, AllocError>
        ensures { IfOk result (λ found. found ≡ ecdsa_keys_of (M.public_of maker.now) pkcs8.now) }
    {
        if let Some(keys) = Self::read_on(alloc, maker, EllipticCurve::P256, pkcs8)? {
            return Ok(Some(keys));
        }
        if let Some(keys) = Self::read_on(alloc, maker, EllipticCurve::P384, pkcs8)? {
            return Ok(Some(keys));
        }
        Self::read_on(alloc, maker, EllipticCurve::P521, pkcs8)
    }

    fn read_on<M: KeyMaker>(
        alloc: Global,
        maker: &M,
        curve: EllipticCurve,
        pkcs8: &[u8],
    ) -> Result<Option<EcdsaKeys>, AllocError>
        ensures { IfOk result (λ found. found ≡ keys_on (M.public_of maker.now) pkcs8.now curve) }
    {
        let Some(spki_der) = maker.public(alloc, curve.kind(), pkcs8)? else {
            return Ok(None);
        };
        let pkcs8_der = Blob::new(alloc, pkcs8)?;
        Ok(Some(EcdsaKeys {
            curve,
            pkcs8_der,
            spki_der,
        }))
    }

    /// Returns a signer with a copy of the keys.
    pub fn to_signer(&self, alloc: Global) -> Result<EcdsaSigner, AllocError>
        ensures { IfOk result (λ signer. signer ≡ ecdsa_signer self.now) }
    {
        let keys = self.copy(alloc)?;
        Ok(EcdsaSigner { keys })
    }

    /// Copies the keys, under the variant of their curve.
    pub fn to_wrapped_ecdsa_keys(&self, alloc: Global) -> Result<AnyCurveKeys, AllocError>
        ensures { IfOk result (λ keys. keys ≡ wrapped self.now) }
    {
        let keys = self.copy(alloc)?;
        Ok(keys.into_wrapped())
    }

    // Returns these keys under the variant of their curve.
    pub(crate) fn into_wrapped(self) -> AnyCurveKeys
        ensures { result ≡ wrapped self }
    {
        match self.curve {
            EllipticCurve::P256 => AnyCurveKeys::P256(self),
            EllipticCurve::P384 => AnyCurveKeys::P384(self),
            EllipticCurve::P521 => AnyCurveKeys::P521(self),
        }
    }
}

impl KeyPair for EcdsaKeys {
    ghost public_der = { λ keys. keys.spki_der };

    ghost private_der = { λ keys. keys.pkcs8_der };

    ghost scheme_under = { λ keys scheme. scheme };

    fn public_key_to_der(&self, alloc: Global) -> Result<Blob, AllocError> {
        self.spki_der.copy(alloc)
    }

    fn private_key_to_der(&self, alloc: Global) -> Result<Blob, AllocError> {
        self.pkcs8_der.copy(alloc)
    }

    fn to_verification_key(
        &self,
        alloc: Global,
        scheme: SigningScheme,
    ) -> Result<CosignVerificationKey, AllocError> {
        let key = self.spki_der.copy(alloc)?;
        Ok(CosignVerificationKey { scheme, key })
    }
}

impl EcdsaSigner {
    /// Returns a signer with a copy of these keys.
    pub fn from_ecdsa_keys(alloc: Global, keys: &EcdsaKeys) -> Result<EcdsaSigner, AllocError>
        ensures { IfOk result (λ signer. signer ≡ ecdsa_signer keys.now) }
    {
        keys.to_signer(alloc)
    }

    /// Returns the signer's keys.
    pub fn ecdsa_keys(&self) -> &EcdsaKeys
        ensures { result.now ≡ self.now.keys }
    {
        &self.keys
    }
}

impl Signer for EcdsaSigner {
    type Keys = EcdsaKeys;

    ghost keys_of = { λ signer. signer.keys };

    ghost scheme_of = { λ signer. curve_scheme signer.keys.curve };

    fn key_pair(&self) -> &EcdsaKeys {
        &self.keys
    }

    fn sign<M: KeyMaker>(
        &self,
        alloc: Global,
        maker: &M,
        message: &[u8],
    ) -> Result<Blob, KeyError> {
        let scheme = self.keys.curve.scheme();
        match maker.sign(alloc, scheme, self.keys.pkcs8_der.as_slice(), message)? {
            Some(signature) => Ok(signature),
            None => Err(KeyError::SigningError),
        }
    }
}

impl Copied for EcdsaKeys {
    fn copy(&self, alloc: Global) -> Result<EcdsaKeys, AllocError> {
        copied!(
            alloc,
            self,
            EcdsaKeys {
                curve,
                pkcs8_der,
                spki_der
            }
        )
    }
}

impl Copied for EcdsaSigner {
    fn copy(&self, alloc: Global) -> Result<EcdsaSigner, AllocError> {
        self.keys.to_signer(alloc)
    }
}

/// The curve is printed and no key, whatever the formatter.
impl fmt::Debug for EcdsaKeys {
    ghost use Rattle.std.specs.Prelude.{Some};
    ghost use Rattle.std.specs.Fmt.{DisplaysOnOk, WritesStyledOnOk};
    ghost use Rattle.sig_keys.specs.Shown.{shown_ecdsa_keys};

    ghost debug_output = { λ keys. Some (shown_ecdsa_keys keys) };

    fn fmt<W: fmt::Write>(&self, f: &mut fmt::Formatter<W>) -> fmt::Result
        ensures writes { DisplaysOnOk W.write_str_gives f.old result (Some (shown_ecdsa_keys self.now)) f.new }
        ensures styled { WritesStyledOnOk W.write_str_gives f.old result (shown_ecdsa_keys self.now) f.new }
    {
        match self.curve {
            EllipticCurve::P256 => f.write_str("EcdsaKeys { curve: P256, .. }"),
            EllipticCurve::P384 => f.write_str("EcdsaKeys { curve: P384, .. }"),
            EllipticCurve::P521 => f.write_str("EcdsaKeys { curve: P521, .. }"),
        }
    }
}

/// No key is printed, whatever the formatter.
impl fmt::Debug for EcdsaSigner {
    ghost use Rattle.std.specs.Prelude.{Some, codes};
    ghost use Rattle.std.specs.Fmt.{DisplaysOnOk, WritesStyledOnOk};

    ghost debug_output = { λ signer. Some (codes "EcdsaSigner { .. }") };

    fn fmt<W: fmt::Write>(&self, f: &mut fmt::Formatter<W>) -> fmt::Result
        ensures writes { DisplaysOnOk W.write_str_gives f.old result (Some (codes "EcdsaSigner { .. }")) f.new }
        ensures styled { WritesStyledOnOk W.write_str_gives f.old result (codes "EcdsaSigner { .. }") f.new }
    {
        f.write_str("EcdsaSigner { .. }")
    }
}
