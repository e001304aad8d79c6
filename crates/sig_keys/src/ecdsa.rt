//! ECDSA keys of any curve.
ghost use Rattle.std.specs.Prelude.{◌≡◌, IfOk};
ghost use Rattle.sig_keys.specs.Ec.{ecdsa_signer};
ghost use Rattle.sig_keys.specs.Ecdsa.{wrapped, inner_of, curve_keys_of, MadeOnCurve};
ghost use Rattle.key_parts.specs.Outcomes.{Makes, Parses};
ghost use Rattle.key_parts.specs.Scheme.{kind_of};
ghost use Rattle.sig_keys.specs.declared.store_signer.SigStoreSigner.TheVariants.{ECDSA as ecdsa_store_signer};

pub mod ec;

use crate::store_signer::SigStoreSigner;
use ec::EcdsaKeys as CurveKeys;
use json_values::{Blob, Copied};
use key_parts::{CosignVerificationKey, EllipticCurve, KeyError, KeyMaker, KeyPair, SigningScheme};
use std::alloc::{AllocError, Global};
use std::fmt;

/// ECDSA keys, by their curve. If a caller puts keys under another variant, their field `curve`
/// decides.
#[derive(Drop)]
pub enum ECDSAKeys {
    P256(CurveKeys),
    P384(CurveKeys),
    P521(CurveKeys),
}

impl ECDSAKeys {
    /// Makes new keys on this curve. Returns `KeyGenerationError` if and only if the maker makes none.
    pub fn new<M: KeyMaker>(
        alloc: Global,
        maker: &M,
        curve: EllipticCurve,
    ) -> Result<Self, KeyError>
        ensures { Makes result (M.can_make maker.now (kind_of curve) 0) (MadeOnCurve (M.Made maker.now) curve) }
    {
        let keys = CurveKeys::new(alloc, maker, curve)?;
        Ok(keys.into_wrapped())
    }

    /// Parses a private key. Returns `KeyParseError` if and only if the maker does not parse it on any of the curves.
    pub fn from_der<M: KeyMaker>(alloc: Global, maker: &M, pkcs8: &[u8]) -> Result<Self, KeyError>
        ensures { Parses result (curve_keys_of (M.public_of maker.now) pkcs8.now) }
    {
        let keys = CurveKeys::from_der(alloc, maker, pkcs8)?;
        Ok(keys.into_wrapped())
    }

    /// Does the same as `from_der`.
    pub fn from_pkcs8_der<M: KeyMaker>(
        alloc: Global,
        maker: &M,
        pkcs8: &[u8],
    ) -> Result<Self, KeyError>
        ensures { Parses result (curve_keys_of (M.public_of maker.now) pkcs8.now) }
    {
        Self::from_der(alloc, maker, pkcs8)
    }

    /// Returns the keys of any variant.
    pub fn as_inner(&self) -> &CurveKeys
        ensures { result.now ≡ inner_of self.now }
    {
        match self {
            ECDSAKeys::P256(keys) => keys,
            ECDSAKeys::P384(keys) => keys,
            ECDSAKeys::P521(keys) => keys,
        }
    }

    /// Returns a signer with a copy of the keys.
    pub fn to_sigstore_signer(&self, alloc: Global) -> Result<SigStoreSigner, AllocError>
        ensures { IfOk result (λ signer. signer ≡ ecdsa_store_signer (ecdsa_signer (inner_of self.now))) }
    {
        let signer = self.as_inner().to_signer(alloc)?;
        Ok(SigStoreSigner::ECDSA(signer))
    }
}

impl KeyPair for ECDSAKeys {
    ghost public_der = { λ keys. (inner_of keys).spki_der };

    ghost private_der = { λ keys. (inner_of keys).pkcs8_der };

    ghost scheme_under = { λ keys scheme. scheme };

    fn public_key_to_der(&self, alloc: Global) -> Result<Blob, AllocError> {
        self.as_inner().public_key_to_der(alloc)
    }

    fn private_key_to_der(&self, alloc: Global) -> Result<Blob, AllocError> {
        self.as_inner().private_key_to_der(alloc)
    }

    fn to_verification_key(
        &self,
        alloc: Global,
        scheme: SigningScheme,
    ) -> Result<CosignVerificationKey, AllocError> {
        self.as_inner().to_verification_key(alloc, scheme)
    }
}

impl Copied for ECDSAKeys {
    fn copy(&self, alloc: Global) -> Result<ECDSAKeys, AllocError> {
        match self {
            ECDSAKeys::P256(keys) => Ok(ECDSAKeys::P256(keys.copy(alloc)?)),
            ECDSAKeys::P384(keys) => Ok(ECDSAKeys::P384(keys.copy(alloc)?)),
            ECDSAKeys::P521(keys) => Ok(ECDSAKeys::P521(keys.copy(alloc)?)),
        }
    }
}

/// Printed as `ECDSA ` and the curve.
impl fmt::Display for ECDSAKeys {
    ghost use Rattle.std.specs.Prelude.{Some};
    ghost use Rattle.std.specs.Fmt.{DisplaysOnOk, WritesStyledOnOk};
    ghost use Rattle.sig_keys.specs.Shown.{printed_keys};

    ghost output = { λ keys. Some (printed_keys keys) };

    fn fmt<W: fmt::Write>(&self, f: &mut fmt::Formatter<W>) -> fmt::Result
        ensures writes { DisplaysOnOk W.write_str_gives f.old result (Some (printed_keys self.now)) f.new }
        ensures styled { WritesStyledOnOk W.write_str_gives f.old result (printed_keys self.now) f.new }
    {
        match self.as_inner().curve {
            EllipticCurve::P256 => f.write_str("ECDSA P256"),
            EllipticCurve::P384 => f.write_str("ECDSA P384"),
            EllipticCurve::P521 => f.write_str("ECDSA P521"),
        }
    }
}

/// No key is printed, whatever the formatter.
impl fmt::Debug for ECDSAKeys {
    ghost use Rattle.std.specs.Prelude.{Some};
    ghost use Rattle.std.specs.Fmt.{DisplaysOnOk, WritesStyledOnOk};
    ghost use Rattle.sig_keys.specs.Shown.{shown_curve_keys};

    ghost debug_output = { λ keys. Some (shown_curve_keys keys) };

    fn fmt<W: fmt::Write>(&self, f: &mut fmt::Formatter<W>) -> fmt::Result
        ensures writes { DisplaysOnOk W.write_str_gives f.old result (Some (shown_curve_keys self.now)) f.new }
        ensures styled { WritesStyledOnOk W.write_str_gives f.old result (shown_curve_keys self.now) f.new }
    {
        match self {
            ECDSAKeys::P256(_) => f.write_str("P256(..)"),
            ECDSAKeys::P384(_) => f.write_str("P384(..)"),
            ECDSAKeys::P521(_) => f.write_str("P521(..)"),
        }
    }
}
