//! Ed25519 keys (RFC 8032), and their signer.
ghost use Rattle.std.specs.Prelude.{◌≡◌, IfOk};
ghost use Rattle.sig_keys.specs.Ed25519.{ed25519_keys_of, ed25519_signer, MadeEd25519};
ghost use Rattle.key_parts.specs.Outcomes.{Makes, Parses};
ghost use Rattle.key_parts.specs.declared.scheme.KeyKind.TheVariants as kind;
ghost use Rattle.key_parts.specs.declared.scheme.SigningScheme.TheVariants as scheme_of_keys;
ghost use Rattle.sig_keys.specs.declared.store_signer.SigStoreSigner.TheVariants.{ED25519 as ed25519_store_signer};

use crate::signer::Signer;
use crate::store_signer::SigStoreSigner;
use json_values::{Blob, Copied, copied};
use key_parts::{CosignVerificationKey, KeyError, KeyKind, KeyMaker, KeyPair, SigningScheme};
use std::alloc::{AllocError, Global};
use std::fmt;

/// Ed25519 keys.
#[derive(Drop)]
pub struct Ed25519Keys {
    /// The private key, PKCS 8 in DER.
    pub pkcs8_der: Blob,
    /// The public key, SubjectPublicKeyInfo in DER.
    pub spki_der: Blob,
}

/// Signs under `ED25519`.
#[derive(Drop)]
pub struct Ed25519Signer {
    pub keys: Ed25519Keys,
}

impl Ed25519Keys {
    /// Makes new keys. Returns `KeyGenerationError` if and only if the maker makes none.
    pub fn new<M: KeyMaker>(alloc: Global, maker: &M) -> Result<Self, KeyError>
        ensures { Makes result (M.can_make maker.now kind.Ed25519 0) (MadeEd25519 (M.Made maker.now)) }
    {
        match maker.generate(alloc, KeyKind::Ed25519, 0)? {
            Some((pkcs8_der, spki_der)) => Ok(Ed25519Keys {
                pkcs8_der,
                spki_der,
            }),
            None => Err(KeyError::KeyGenerationError),
        }
    }

    /// Parses a private key. Returns `KeyParseError` if and only if the maker does not parse it as Ed25519.
    pub fn from_der<M: KeyMaker>(alloc: Global, maker: &M, pkcs8: &[u8]) -> Result<Self, KeyError>
        ensures { Parses result (ed25519_keys_of (M.public_of maker.now) pkcs8.now) }
    {
        match Self::read(alloc, maker, pkcs8)? {
            Some(keys) => Ok(keys),
            None => Err(KeyError::KeyParseError),
        }
    }

    /// Does the same as `from_der`.
    pub fn from_pkcs8_der<M: KeyMaker>(
        alloc: Global,
        maker: &M,
        pkcs8: &[u8],
    ) -> Result<Self, KeyError>
        ensures { Parses result (ed25519_keys_of (M.public_of maker.now) pkcs8.now) }
    {
        Self::from_der(alloc, maker, pkcs8)
    }

    // Returns the keys, if the maker parses them.
    pub(crate) fn read<M: KeyMaker>(
        alloc: Global,
        maker: &M,
        pkcs8: &[u8],
    ) -> Result<Option<Ed25519Keys>, AllocError>
        ensures { IfOk result (λ found. found ≡ ed25519_keys_of (M.public_of maker.now) pkcs8.now) }
    {
        let Some(spki_der) = maker.public(alloc, KeyKind::Ed25519, pkcs8)? else {
            return Ok(None);
        };
        let pkcs8_der = Blob::new(alloc, pkcs8)?;
        Ok(Some(Ed25519Keys {
            pkcs8_der,
            spki_der,
        }))
    }

    /// Copies these keys.
    pub fn from_ed25519key(alloc: Global, key: &Ed25519Keys) -> Result<Ed25519Keys, AllocError>
        ensures { IfOk result (λ keys. keys ≡ key.now) }
    {
        key.copy(alloc)
    }

    /// Returns a signer with a copy of the keys.
    pub fn to_sigstore_signer(&self, alloc: Global) -> Result<SigStoreSigner, AllocError>
        ensures { IfOk result (λ signer. signer ≡ ed25519_store_signer (ed25519_signer self.now)) }
    {
        let keys = self.copy(alloc)?;
        Ok(SigStoreSigner::ED25519(Ed25519Signer { keys }))
    }
}

impl KeyPair for Ed25519Keys {
    ghost public_der = { λ keys. keys.spki_der };

    ghost private_der = { λ keys. keys.pkcs8_der };

    ghost scheme_under = { λ keys scheme. scheme_of_keys.ED25519 };

    fn public_key_to_der(&self, alloc: Global) -> Result<Blob, AllocError> {
        self.spki_der.copy(alloc)
    }

    fn private_key_to_der(&self, alloc: Global) -> Result<Blob, AllocError> {
        self.pkcs8_der.copy(alloc)
    }

    fn to_verification_key(
        &self,
        alloc: Global,
        _scheme: SigningScheme,
    ) -> Result<CosignVerificationKey, AllocError> {
        let key = self.spki_der.copy(alloc)?;
        Ok(CosignVerificationKey {
            scheme: SigningScheme::ED25519,
            key,
        })
    }
}

impl Ed25519Signer {
    /// Returns a signer with a copy of these keys.
    pub fn from_ed25519_keys(alloc: Global, keys: &Ed25519Keys) -> Result<Ed25519Signer, AllocError>
        ensures { IfOk result (λ signer. signer ≡ ed25519_signer keys.now) }
    {
        let keys = keys.copy(alloc)?;
        Ok(Ed25519Signer { keys })
    }

    /// Returns the signer's keys.
    pub fn ed25519_keys(&self) -> &Ed25519Keys
        ensures { result.now ≡ self.now.keys }
    {
        &self.keys
    }
}

impl Signer for Ed25519Signer {
    type Keys = Ed25519Keys;

    ghost keys_of = { λ signer. signer.keys };

    ghost scheme_of = { λ signer. scheme_of_keys.ED25519 };

    fn key_pair(&self) -> &Ed25519Keys {
        &self.keys
    }

    fn sign<M: KeyMaker>(
        &self,
        alloc: Global,
        maker: &M,
        message: &[u8],
    ) -> Result<Blob, KeyError> {
        let private = self.keys.pkcs8_der.as_slice();
        match maker.sign(alloc, SigningScheme::ED25519, private, message)? {
            Some(signature) => Ok(signature),
            None => Err(KeyError::SigningError),
        }
    }
}

impl Copied for Ed25519Keys {
    fn copy(&self, alloc: Global) -> Result<Ed25519Keys, AllocError> {
        copied!(
            alloc,
            self,
            Ed25519Keys {
                pkcs8_der,
                spki_der
            }
        )
    }
}

impl Copied for Ed25519Signer {
    fn copy(&self, alloc: Global) -> Result<Ed25519Signer, AllocError> {
        let keys = self.keys.copy(alloc)?;
        Ok(Ed25519Signer { keys })
    }
}

/// No key is printed, whatever the formatter.
impl fmt::Debug for Ed25519Keys {
    ghost use Rattle.std.specs.Prelude.{Some, codes};
    ghost use Rattle.std.specs.Fmt.{DisplaysOnOk, WritesStyledOnOk};

    ghost debug_output = { λ keys. Some (codes "Ed25519Keys { .. }") };

    fn fmt<W: fmt::Write>(&self, f: &mut fmt::Formatter<W>) -> fmt::Result
        ensures writes { DisplaysOnOk W.write_str_gives f.old result (Some (codes "Ed25519Keys { .. }")) f.new }
        ensures styled { WritesStyledOnOk W.write_str_gives f.old result (codes "Ed25519Keys { .. }") f.new }
    {
        f.write_str("Ed25519Keys { .. }")
    }
}

/// No key is printed, whatever the formatter.
impl fmt::Debug for Ed25519Signer {
    ghost use Rattle.std.specs.Prelude.{Some, codes};
    ghost use Rattle.std.specs.Fmt.{DisplaysOnOk, WritesStyledOnOk};

    ghost debug_output = { λ signer. Some (codes "Ed25519Signer { .. }") };

    fn fmt<W: fmt::Write>(&self, f: &mut fmt::Formatter<W>) -> fmt::Result
        ensures writes { DisplaysOnOk W.write_str_gives f.old result (Some (codes "Ed25519Signer { .. }")) f.new }
        ensures styled { WritesStyledOnOk W.write_str_gives f.old result (codes "Ed25519Signer { .. }") f.new }
    {
        f.write_str("Ed25519Signer { .. }")
    }
}
