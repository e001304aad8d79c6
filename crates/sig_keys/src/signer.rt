//! Common calls of all signers.
ghost use Rattle.std.specs.Prelude.{◌≡◌};
ghost use Rattle.key_parts.specs.Outcomes.{SignsBy};
ghost use Rattle.key_parts.specs.declared.scheme.SigningScheme.{SigningScheme};

use json_values::Blob;
use key_parts::{KeyError, KeyMaker, KeyPair};
use std::alloc::Global;

/// Signs messages with its keys under its scheme.
pub trait Signer {
    type Keys: KeyPair;

    ghost keys_of: { Self → Self.Keys };

    ghost scheme_of: { Self → SigningScheme };

    /// Returns the signer's keys.
    fn key_pair(&self) -> &Self::Keys
        ensures { result.now ≡ keys_of self.now };

    /// Returns the maker's signature of the message. Returns `SigningError` if and only if the maker does not sign.
    fn sign<M: KeyMaker>(&self, alloc: Global, maker: &M, message: &[u8]) -> Result<Blob, KeyError>
        ensures { SignsBy (M.can_sign maker.now) (M.Signs maker.now) (scheme_of self.now)
            (Self.Keys.private_der (keys_of self.now)) message.now result };
}
