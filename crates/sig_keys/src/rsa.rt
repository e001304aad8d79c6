//! RSA keys (RFC 8017), and their signer.
ghost use Rattle.std.specs.Prelude.{◌≡◌, IfOk};
ghost use Rattle.key_parts.specs.KeyPair.{verification_key};
ghost use Rattle.key_parts.specs.Outcomes.{Makes, Parses};
ghost use Rattle.sig_keys.specs.Rsa.{rsa_keys_of, rsa_signer, MadeRsa};
ghost use Rattle.key_parts.specs.Scheme.{padding_scheme};
ghost use Rattle.key_parts.specs.declared.scheme.KeyKind.TheVariants as kind;
ghost use Rattle.sig_keys.specs.declared.store_signer.SigStoreSigner.TheVariants.{RSA as rsa_store_signer};

use crate::signer::Signer;
use crate::store_signer::SigStoreSigner;
use json_values::{Blob, Copied, copied};
use key_parts::{
    CosignVerificationKey, DigestAlgorithm, KeyError, KeyKind, KeyMaker, KeyPair, PaddingScheme,
    SigningScheme,
};
use std::alloc::{AllocError, Global};
use std::fmt;

/// The default size of new keys, in bits.
pub const DEFAULT_KEY_SIZE: usize = 2048;

/// RSA keys.
#[derive(Drop)]
pub struct RSAKeys {
    /// The private key, PKCS 8 in DER.
    pub pkcs8_der: Blob,
    /// The public key, SubjectPublicKeyInfo in DER.
    pub spki_der: Blob,
}

/// Signs under the RSA scheme of its padding, with number 0.
#[derive(Drop)]
pub struct RSASigner {
    pub keys: RSAKeys,
    pub digest: DigestAlgorithm,
    pub padding: PaddingScheme,
}

impl RSAKeys {
    /// Makes new keys of `bits` bits. Returns `KeyGenerationError` if and only if the maker makes none.
    pub fn new<M: KeyMaker>(alloc: Global, maker: &M, bits: usize) -> Result<Self, KeyError>
        ensures { Makes result (M.can_make maker.now kind.Rsa bits) (MadeRsa (M.Made maker.now) bits) }
    {
        match maker.generate(alloc, KeyKind::Rsa, bits)? {
            Some((pkcs8_der, spki_der)) => Ok(RSAKeys {
                pkcs8_der,
                spki_der,
            }),
            None => Err(KeyError::KeyGenerationError),
        }
    }

    /// Parses a private key. Returns `KeyParseError` if and only if the maker does not parse it as RSA.
    pub fn from_der<M: KeyMaker>(alloc: Global, maker: &M, pkcs8: &[u8]) -> Result<Self, KeyError>
        ensures { Parses result (rsa_keys_of (M.public_of maker.now) pkcs8.now) }
    {
        match Self::read(alloc, maker, pkcs8)? {
            Some(keys) => Ok(keys),
            None => Err(KeyError::KeyParseError),
        }
    }

    /// Does the same as `from_der`.
    pub fn from_pkcs8_der<M: KeyMaker>(
        alloc: Global,
        maker: &M,
        pkcs8: &[u8],
    ) -> Result<Self, KeyError>
        ensures { Parses result (rsa_keys_of (M.public_of maker.now) pkcs8.now) }
    {
        Self::from_der(alloc, maker, pkcs8)
    }

    // Returns the keys, if the maker parses them.
    pub(crate) fn read<M: KeyMaker>(
        alloc: Global,
        maker: &M,
        pkcs8: &[u8],
    ) -> Result<Option<RSAKeys>, AllocError>
        ensures { IfOk result (λ found. found ≡ rsa_keys_of (M.public_of maker.now) pkcs8.now) }
    {
        let Some(spki_der) = maker.public(alloc, KeyKind::Rsa, pkcs8)? else {
            return Ok(None);
        };
        let pkcs8_der = Blob::new(alloc, pkcs8)?;
        Ok(Some(RSAKeys {
            pkcs8_der,
            spki_der,
        }))
    }

    /// Returns a signer with a copy of the keys.
    pub fn to_sigstore_signer(
        &self,
        alloc: Global,
        digest: DigestAlgorithm,
        padding: PaddingScheme,
    ) -> Result<SigStoreSigner, AllocError>
        ensures { IfOk result (λ signer. signer ≡ rsa_store_signer (rsa_signer self.now digest padding)) }
    {
        let signer = RSASigner::from_rsa_keys(alloc, self, digest, padding)?;
        Ok(SigStoreSigner::RSA(signer))
    }
}

impl KeyPair for RSAKeys {
    ghost public_der = { λ keys. keys.spki_der };

    ghost private_der = { λ keys. keys.pkcs8_der };

    ghost scheme_under = { λ keys scheme. scheme };

    fn public_key_to_der(&self, alloc: Global) -> Result<Blob, AllocError> {
        self.spki_der.copy(alloc)
    }

    fn private_key_to_der(&self, alloc: Global) -> Result<Blob, AllocError> {
        self.pkcs8_der.copy(alloc)
    }

    fn to_verification_key(
        &self,
        alloc: Global,
        scheme: SigningScheme,
    ) -> Result<CosignVerificationKey, AllocError> {
        let key = self.spki_der.copy(alloc)?;
        Ok(CosignVerificationKey { scheme, key })
    }
}

impl RSASigner {
    /// Creates a signer with these keys.
    pub fn new(keys: RSAKeys, digest: DigestAlgorithm, padding: PaddingScheme) -> Self
        ensures { result ≡ rsa_signer keys digest padding }
    {
        RSASigner {
            keys,
            digest,
            padding,
        }
    }

    /// Returns a signer with a copy of these keys.
    pub fn from_rsa_keys(
        alloc: Global,
        keys: &RSAKeys,
        digest: DigestAlgorithm,
        padding: PaddingScheme,
    ) -> Result<RSASigner, AllocError>
        ensures { IfOk result (λ signer. signer ≡ rsa_signer keys.now digest padding) }
    {
        let keys = keys.copy(alloc)?;
        Ok(RSASigner::new(keys, digest, padding))
    }

    /// Returns the signer's keys.
    pub fn rsa_keys(&self) -> &RSAKeys
        ensures { result.now ≡ self.now.keys }
    {
        &self.keys
    }

    /// Returns the public key with the signer's scheme.
    pub fn to_verification_key(&self, alloc: Global) -> Result<CosignVerificationKey, AllocError>
        ensures { IfOk result (λ key. key
            ≡ verification_key (padding_scheme self.now.padding) self.now.keys.spki_der) }
    {
        self.keys.to_verification_key(alloc, self.padding.scheme())
    }
}

impl Signer for RSASigner {
    type Keys = RSAKeys;

    ghost keys_of = { λ signer. signer.keys };

    ghost scheme_of = { λ signer. padding_scheme signer.padding };

    fn key_pair(&self) -> &RSAKeys {
        &self.keys
    }

    fn sign<M: KeyMaker>(
        &self,
        alloc: Global,
        maker: &M,
        message: &[u8],
    ) -> Result<Blob, KeyError> {
        let scheme = self.padding.scheme();
        match maker.sign(alloc, scheme, self.keys.pkcs8_der.as_slice(), message)? {
            Some(signature) => Ok(signature),
            None => Err(KeyError::SigningError),
        }
    }
}

impl Copied for RSAKeys {
    fn copy(&self, alloc: Global) -> Result<RSAKeys, AllocError> {
        copied!(
            alloc,
            self,
            RSAKeys {
                pkcs8_der,
                spki_der
            }
        )
    }
}

impl Copied for RSASigner {
    fn copy(&self, alloc: Global) -> Result<RSASigner, AllocError> {
        RSASigner::from_rsa_keys(alloc, &self.keys, self.digest, self.padding)
    }
}

/// No key is printed, whatever the formatter.
impl fmt::Debug for RSAKeys {
    ghost use Rattle.std.specs.Prelude.{Some, codes};
    ghost use Rattle.std.specs.Fmt.{DisplaysOnOk, WritesStyledOnOk};

    ghost debug_output = { λ keys. Some (codes "RSAKeys { .. }") };

    fn fmt<W: fmt::Write>(&self, f: &mut fmt::Formatter<W>) -> fmt::Result
        ensures writes { DisplaysOnOk W.write_str_gives f.old result (Some (codes "RSAKeys { .. }")) f.new }
        ensures styled { WritesStyledOnOk W.write_str_gives f.old result (codes "RSAKeys { .. }") f.new }
    {
        f.write_str("RSAKeys { .. }")
    }
}

/// No key is printed, whatever the formatter.
impl fmt::Debug for RSASigner {
    ghost use Rattle.std.specs.Prelude.{Some, codes};
    ghost use Rattle.std.specs.Fmt.{DisplaysOnOk, WritesStyledOnOk};

    ghost debug_output = { λ signer. Some (codes "RSASigner { .. }") };

    fn fmt<W: fmt::Write>(&self, f: &mut fmt::Formatter<W>) -> fmt::Result
        ensures writes { DisplaysOnOk W.write_str_gives f.old result (Some (codes "RSASigner { .. }")) f.new }
        ensures styled { WritesStyledOnOk W.write_str_gives f.old result (codes "RSASigner { .. }") f.new }
    {
        f.write_str("RSASigner { .. }")
    }
}
