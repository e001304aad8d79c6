// Makers with constant results.
ghost use Rattle.std.specs.Prelude.{◌≡◌, Bool, true, false, Some, None, codes};
ghost use Rattle.sig_tests.specs.Kinds.{reads_as};

use json_values::Blob;
use sig_keys::{KeyKind, KeyMaker, SigningScheme};
use std::alloc::{AllocError, Global};

/// Makes, parses and signs nothing.
#[derive(Drop)]
pub struct NoKeys;

impl KeyMaker for NoKeys {
    ghost use Rattle.std.specs.Prelude.{⊤};

    ghost public_of = { λ maker kind pkcs8. None };

    ghost can_make = { λ maker kind bits. false };

    ghost Made = { λ maker kind bits private public. ⊤ };

    ghost can_sign = { λ maker scheme pkcs8 message. false };

    ghost Signs = { λ maker scheme pkcs8 message signature. ⊤ };

    fn generate(
        &self,
        _alloc: Global,
        _kind: KeyKind,
        _bits: usize,
    ) -> Result<Option<(Blob, Blob)>, AllocError> {
        Ok(None)
    }

    fn public(
        &self,
        _alloc: Global,
        _kind: KeyKind,
        _pkcs8: &[u8],
    ) -> Result<Option<Blob>, AllocError> {
        Ok(None)
    }

    fn sign(
        &self,
        _alloc: Global,
        _scheme: SigningScheme,
        _pkcs8: &[u8],
        _message: &[u8],
    ) -> Result<Option<Blob>, AllocError> {
        Ok(None)
    }
}

/// Makes the private key `sk` and the public key `pk`, parses all bytes as a private key of one kind, whose public key
/// is `pk`, and signs each message as `sig1`.
#[derive(Drop)]
pub struct OneKind {
    pub kind: KeyKind,
}

impl KeyMaker for OneKind {
    ghost public_of = { λ maker kind pkcs8. reads_as maker.kind kind (codes "pk") };

    ghost can_make = { λ maker kind bits. true };

    ghost Made = { λ maker kind bits private public. (private ≡ codes "sk") × (public ≡ codes "pk") };

    ghost can_sign = { λ maker scheme pkcs8 message. true };

    ghost Signs = { λ maker scheme pkcs8 message signature. signature ≡ codes "sig1" };

    fn generate(
        &self,
        alloc: Global,
        _kind: KeyKind,
        _bits: usize,
    ) -> Result<Option<(Blob, Blob)>, AllocError> {
        let private = Blob::new(alloc, b"sk")?;
        let public = Blob::new(alloc, b"pk")?;
        Ok(Some((private, public)))
    }

    fn public(
        &self,
        alloc: Global,
        kind: KeyKind,
        _pkcs8: &[u8],
    ) -> Result<Option<Blob>, AllocError> {
        if kind != self.kind {
            return Ok(None);
        }
        let public = Blob::new(alloc, b"pk")?;
        Ok(Some(public))
    }

    fn sign(
        &self,
        alloc: Global,
        _scheme: SigningScheme,
        _pkcs8: &[u8],
        _message: &[u8],
    ) -> Result<Option<Blob>, AllocError> {
        let signature = Blob::new(alloc, b"sig1")?;
        Ok(Some(signature))
    }
}
