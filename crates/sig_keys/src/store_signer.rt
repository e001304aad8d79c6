//! Signers of any kind.
ghost use Rattle.std.specs.Prelude.{◌≡◌, IfOk};
ghost use Rattle.key_parts.specs.KeyPair.{verification_key};
ghost use Rattle.key_parts.specs.Outcomes.{SignsBy};
ghost use Rattle.sig_keys.specs.StoreSigner.{signer_scheme, signer_private, signer_public, pair_of};

use crate::ecdsa::ec::EcdsaSigner;
use crate::ed25519::Ed25519Signer;
use crate::pair::SigStoreKeyPair;
use crate::rsa::RSASigner;
use crate::signer::Signer;
use json_values::{Blob, Copied};
use key_parts::{CosignVerificationKey, KeyError, KeyMaker, KeyPair, SigningScheme};
use std::alloc::{AllocError, Global};
use std::fmt;

/// A signer of any kind.
#[derive(Drop)]
pub enum SigStoreSigner {
    ECDSA(EcdsaSigner),
    ED25519(Ed25519Signer),
    RSA(RSASigner),
}

impl SigStoreSigner {
    /// Returns the maker's signature of the message. Returns `SigningError` if and only if the maker does not sign.
    pub fn sign<M: KeyMaker>(
        &self,
        alloc: Global,
        maker: &M,
        message: &[u8],
    ) -> Result<Blob, KeyError>
        ensures { SignsBy (M.can_sign maker.now) (M.Signs maker.now) (signer_scheme self.now)
            (signer_private self.now) message.now result }
    {
        match self {
            SigStoreSigner::ECDSA(signer) => signer.sign(alloc, maker, message),
            SigStoreSigner::ED25519(signer) => signer.sign(alloc, maker, message),
            SigStoreSigner::RSA(signer) => signer.sign(alloc, maker, message),
        }
    }

    /// Copies the signer's keys.
    pub fn to_sigstore_keypair(&self, alloc: Global) -> Result<SigStoreKeyPair, AllocError>
        ensures { IfOk result (λ pair. pair ≡ pair_of self.now) }
    {
        match self {
            SigStoreSigner::ECDSA(signer) => {
                let keys = signer.keys.to_wrapped_ecdsa_keys(alloc)?;
                Ok(SigStoreKeyPair::ECDSA(keys))
            }
            SigStoreSigner::ED25519(signer) => {
                let keys = signer.keys.copy(alloc)?;
                Ok(SigStoreKeyPair::ED25519(keys))
            }
            SigStoreSigner::RSA(signer) => {
                let keys = signer.keys.copy(alloc)?;
                Ok(SigStoreKeyPair::RSA(keys))
            }
        }
    }

    /// Returns the public key with the signer's scheme.
    pub fn to_verification_key(&self, alloc: Global) -> Result<CosignVerificationKey, AllocError>
        ensures { IfOk result (λ key. key ≡ verification_key (signer_scheme self.now) (signer_public self.now)) }
    {
        match self {
            SigStoreSigner::ECDSA(signer) => {
                let scheme = signer.keys.curve.scheme();
                signer.keys.to_verification_key(alloc, scheme)
            }
            SigStoreSigner::ED25519(signer) => {
                signer
                    .keys
                    .to_verification_key(alloc, SigningScheme::ED25519)
            }
            SigStoreSigner::RSA(signer) => signer.to_verification_key(alloc),
        }
    }
}

impl Copied for SigStoreSigner {
    fn copy(&self, alloc: Global) -> Result<SigStoreSigner, AllocError> {
        match self {
            SigStoreSigner::ECDSA(signer) => Ok(SigStoreSigner::ECDSA(signer.copy(alloc)?)),
            SigStoreSigner::ED25519(signer) => Ok(SigStoreSigner::ED25519(signer.copy(alloc)?)),
            SigStoreSigner::RSA(signer) => Ok(SigStoreSigner::RSA(signer.copy(alloc)?)),
        }
    }
}

/// No key is printed, whatever the formatter.
impl fmt::Debug for SigStoreSigner {
    ghost use Rattle.std.specs.Prelude.{Some};
    ghost use Rattle.std.specs.Fmt.{DisplaysOnOk, WritesStyledOnOk};
    ghost use Rattle.sig_keys.specs.Shown.{shown_signer};

    ghost debug_output = { λ signer. Some (shown_signer signer) };

    fn fmt<W: fmt::Write>(&self, f: &mut fmt::Formatter<W>) -> fmt::Result
        ensures writes { DisplaysOnOk W.write_str_gives f.old result (Some (shown_signer self.now)) f.new }
        ensures styled { WritesStyledOnOk W.write_str_gives f.old result (shown_signer self.now) f.new }
    {
        match self {
            SigStoreSigner::ECDSA(_) => f.write_str("ECDSA(..)"),
            SigStoreSigner::ED25519(_) => f.write_str("ED25519(..)"),
            SigStoreSigner::RSA(_) => f.write_str("RSA(..)"),
        }
    }
}
