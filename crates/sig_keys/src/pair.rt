//! Keys of any kind.
ghost use Rattle.std.specs.Prelude.{◌≡◌, IfOk};
ghost use Rattle.json_values.specs.Refusals.{Matches};
ghost use Rattle.key_parts.specs.Outcomes.{Parses};
ghost use Rattle.key_parts.specs.Error.{is_memory};
ghost use Rattle.sig_keys.specs.Pair.{pair_read, pair_kind, pair_public, pair_private, pair_scheme, signer_under};

use crate::ecdsa::ECDSAKeys;
use crate::ecdsa::ec::EcdsaKeys as CurveKeys;
use crate::ed25519::Ed25519Keys;
use crate::rsa::RSAKeys;
use crate::store_signer::SigStoreSigner;
use json_values::{Blob, Copied};
use key_parts::{
    CosignVerificationKey, DigestAlgorithm, KeyError, KeyKind, KeyMaker, KeyPair, SigningScheme,
};
use std::alloc::{AllocError, Global};
use std::fmt;

/// Keys of any kind.
#[derive(Drop)]
pub enum SigStoreKeyPair {
    ECDSA(ECDSAKeys),
    ED25519(Ed25519Keys),
    RSA(RSAKeys),
}

impl SigStoreKeyPair {
    /// Parses a private key as the first of ECDSA, Ed25519 and RSA as which the maker parses it. Returns
    /// `KeyParseError` if and only if there is none.
    pub fn from_der<M: KeyMaker>(alloc: Global, maker: &M, pkcs8: &[u8]) -> Result<Self, KeyError>
        ensures { Parses result (pair_read (M.public_of maker.now) pkcs8.now) }
    {
        if let Some(keys) = CurveKeys::read(alloc, maker, pkcs8)? {
            return Ok(SigStoreKeyPair::ECDSA(keys.into_wrapped()));
        }
        if let Some(keys) = Ed25519Keys::read(alloc, maker, pkcs8)? {
            return Ok(SigStoreKeyPair::ED25519(keys));
        }
        match RSAKeys::read(alloc, maker, pkcs8)? {
            Some(keys) => Ok(SigStoreKeyPair::RSA(keys)),
            None => Err(KeyError::KeyParseError),
        }
    }

    /// Does the same as `from_der`.
    pub fn from_pkcs8_der<M: KeyMaker>(
        alloc: Global,
        maker: &M,
        pkcs8: &[u8],
    ) -> Result<Self, KeyError>
        ensures { Parses result (pair_read (M.public_of maker.now) pkcs8.now) }
    {
        Self::from_der(alloc, maker, pkcs8)
    }

    /// Returns a signer with a copy of the keys, `UnmatchedKeyAndSigningScheme` if and only if they do not sign under
    /// the scheme: ECDSA keys sign only under their curve's, Ed25519 keys under `ED25519`, RSA keys under both of RSA.
    pub fn to_sigstore_signer(
        &self,
        alloc: Global,
        scheme: SigningScheme,
    ) -> Result<SigStoreSigner, KeyError>
        ensures { Matches is_memory result (signer_under self.now scheme) }
    {
        let key = self.kind();
        if !scheme.fits(key) {
            return Err(KeyError::UnmatchedKeyAndSigningScheme { key, scheme });
        }
        let signer = match self {
            SigStoreKeyPair::ECDSA(keys) => keys.to_sigstore_signer(alloc)?,
            SigStoreKeyPair::ED25519(keys) => keys.to_sigstore_signer(alloc)?,
            SigStoreKeyPair::RSA(keys) => {
                keys.to_sigstore_signer(alloc, DigestAlgorithm::Sha256, scheme.padding())?
            }
        };
        Ok(signer)
    }

    fn kind(&self) -> KeyKind
        ensures { result ≡ pair_kind self.now }
    {
        match self {
            SigStoreKeyPair::ECDSA(keys) => keys.as_inner().curve.kind(),
            SigStoreKeyPair::ED25519(_) => KeyKind::Ed25519,
            SigStoreKeyPair::RSA(_) => KeyKind::Rsa,
        }
    }
}

/// A verification key of Ed25519 keys always has the scheme `ED25519`.
impl KeyPair for SigStoreKeyPair {
    ghost public_der = { pair_public };

    ghost private_der = { pair_private };

    ghost scheme_under = { pair_scheme };

    fn public_key_to_der(&self, alloc: Global) -> Result<Blob, AllocError> {
        match self {
            SigStoreKeyPair::ECDSA(keys) => keys.public_key_to_der(alloc),
            SigStoreKeyPair::ED25519(keys) => keys.public_key_to_der(alloc),
            SigStoreKeyPair::RSA(keys) => keys.public_key_to_der(alloc),
        }
    }

    fn private_key_to_der(&self, alloc: Global) -> Result<Blob, AllocError> {
        match self {
            SigStoreKeyPair::ECDSA(keys) => keys.private_key_to_der(alloc),
            SigStoreKeyPair::ED25519(keys) => keys.private_key_to_der(alloc),
            SigStoreKeyPair::RSA(keys) => keys.private_key_to_der(alloc),
        }
    }

    fn to_verification_key(
        &self,
        alloc: Global,
        scheme: SigningScheme,
    ) -> Result<CosignVerificationKey, AllocError> {
        match self {
            SigStoreKeyPair::ECDSA(keys) => keys.to_verification_key(alloc, scheme),
            SigStoreKeyPair::ED25519(keys) => keys.to_verification_key(alloc, scheme),
            SigStoreKeyPair::RSA(keys) => keys.to_verification_key(alloc, scheme),
        }
    }
}

impl Copied for SigStoreKeyPair {
    fn copy(&self, alloc: Global) -> Result<SigStoreKeyPair, AllocError> {
        match self {
            SigStoreKeyPair::ECDSA(keys) => Ok(SigStoreKeyPair::ECDSA(keys.copy(alloc)?)),
            SigStoreKeyPair::ED25519(keys) => Ok(SigStoreKeyPair::ED25519(keys.copy(alloc)?)),
            SigStoreKeyPair::RSA(keys) => Ok(SigStoreKeyPair::RSA(keys.copy(alloc)?)),
        }
    }
}

impl fmt::Display for SigStoreKeyPair {
    ghost use Rattle.std.specs.Prelude.{Some};
    ghost use Rattle.std.specs.Fmt.{DisplaysOnOk, WritesStyledOnOk};
    ghost use Rattle.sig_keys.specs.Shown.{printed_pair};

    ghost output = { λ pair. Some (printed_pair pair) };

    fn fmt<W: fmt::Write>(&self, f: &mut fmt::Formatter<W>) -> fmt::Result
        ensures writes { DisplaysOnOk W.write_str_gives f.old result (Some (printed_pair self.now)) f.new }
        ensures styled { WritesStyledOnOk W.write_str_gives f.old result (printed_pair self.now) f.new }
    {
        match self {
            SigStoreKeyPair::ECDSA(_) => f.write_str("EC Key"),
            SigStoreKeyPair::ED25519(_) => f.write_str("Ed25519 Key"),
            SigStoreKeyPair::RSA(_) => f.write_str("RSA Key"),
        }
    }
}

/// No key is printed, whatever the formatter.
impl fmt::Debug for SigStoreKeyPair {
    ghost use Rattle.std.specs.Prelude.{Some};
    ghost use Rattle.std.specs.Fmt.{DisplaysOnOk, WritesStyledOnOk};
    ghost use Rattle.sig_keys.specs.Shown.{shown_pair};

    ghost debug_output = { λ pair. Some (shown_pair pair) };

    fn fmt<W: fmt::Write>(&self, f: &mut fmt::Formatter<W>) -> fmt::Result
        ensures writes { DisplaysOnOk W.write_str_gives f.old result (Some (shown_pair self.now)) f.new }
        ensures styled { WritesStyledOnOk W.write_str_gives f.old result (shown_pair self.now) f.new }
    {
        match self {
            SigStoreKeyPair::ECDSA(_) => f.write_str("ECDSA(..)"),
            SigStoreKeyPair::ED25519(_) => f.write_str("ED25519(..)"),
            SigStoreKeyPair::RSA(_) => f.write_str("RSA(..)"),
        }
    }
}
