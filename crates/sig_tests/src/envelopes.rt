// The envelope of private keys.
ghost use Rattle.std.specs.Prelude.{Some, replicate};

use json_values::{Blob, Text};
use sig_keys::kdf::{decrypt, encrypt};
use sig_keys::{DecryptCause, KdfError, KeyBox};
use std::alloc::{AllocError, Global};

/// Derives 32 zero bytes, and seals and opens bytes unchanged.
#[derive(Drop)]
pub struct OpenBox;

impl KeyBox for OpenBox {
    ghost derived = { λ keybox password salt log_n r p. replicate 32 0 };

    ghost sealed = { λ keybox key nonce plain. plain };

    ghost opened = { λ keybox key nonce sealed. Some sealed };

    fn derive(
        &self,
        alloc: Global,
        _password: &[u8],
        _salt: &[u8],
        _log_n: u8,
        _r: u32,
        _p: u32,
    ) -> Result<Blob, AllocError> {
        Blob::new(alloc, &[0; 32])
    }

    fn seal(
        &self,
        alloc: Global,
        _key: &Blob,
        _nonce: &[u8],
        plain: &[u8],
    ) -> Result<Blob, AllocError> {
        Blob::new(alloc, plain)
    }

    fn unseal(
        &self,
        alloc: Global,
        _key: &Blob,
        _nonce: &[u8],
        ciphertext: &[u8],
    ) -> Result<Option<Blob>, AllocError> {
        let plain = Blob::new(alloc, ciphertext)?;
        Ok(Some(plain))
    }
}

const ENVELOPE: &'static str =
    "{\"kdf\":{\"name\":\"scrypt\",\"params\":{\"N\":32768,\"r\":8,\"p\":1},\
\"salt\":\"AAAAAAAAAAAAAAAAAAAAAAAAAAAAAAAAAAAAAAAAAAA=\"},\
\"cipher\":{\"name\":\"nacl/secretbox\",\"nonce\":\"AAAAAAAAAAAAAAAAAAAAAAAAAAAAAAAA\"},\
\"ciphertext\":\"aGVsbG8gd29ybGQ=\"}";

#[test]
fn an_envelope_has_its_members_in_this_order(rt: HostRuntime) {
    let text = encrypt(
        rt.alloc(),
        b"hello world",
        b"pw",
        &[0; 32],
        &[0; 24],
        &OpenBox,
    );
    let is_written = match text {
        Ok(text) => text.as_slice() == ENVELOPE.as_bytes(),
        Err(_) => false,
    };
    assert!(rt; is_written);
}

#[test]
fn what_was_encrypted_is_decrypted(rt: HostRuntime) {
    let is_opened = match decrypt(rt.alloc(), ENVELOPE.as_bytes(), b"pw", &OpenBox) {
        Ok(plain) => plain.as_slice() == b"hello world".as_slice(),
        Err(_) => false,
    };
    assert!(rt; is_opened);
}

// The cause why an envelope cannot be opened, in one word.
fn cause(refusal: &KdfError) -> &'static str {
    match refusal {
        KdfError::EnvelopeUnreadable => "unreadable",
        KdfError::PrivateKeyDecryptError(cause) => match cause {
            DecryptCause::UnknownCipher(name) if name.as_str() == "x" => "cipher x",
            DecryptCause::UnknownKdf(name) if name.as_str() == "y" => "kdf y",
            DecryptCause::UnexpectedParameters => "parameters",
            DecryptCause::NonceLength => "nonce",
            DecryptCause::UnsealRefused => "unseal",
            _ => "another name",
        },
        KdfError::WantOfMemory => "memory",
    }
}

// An envelope with this cipher, this key derivation and this N, and one byte for each of the other values.
fn envelope(alloc: Global, cipher: &str, derivation: &str, n: &str) -> Result<Text, AllocError> {
    let mut text = Text::new(alloc, "{\"kdf\":{\"name\":\"")?;
    text.push_str(derivation)?;
    text.push_str("\",\"params\":{\"N\":")?;
    text.push_str(n)?;
    text.push_str(",\"r\":8,\"p\":1},\"salt\":\"AA==\"},\"cipher\":{\"name\":\"")?;
    text.push_str(cipher)?;
    text.push_str("\",\"nonce\":\"AA==\"},\"ciphertext\":\"AA==\"}")?;
    Ok(text)
}

fn is_refused(alloc: Global, envelope: Result<Text, AllocError>, want: &str) -> bool {
    let Ok(envelope) = envelope else {
        return false;
    };
    match decrypt(alloc, envelope.as_str().as_bytes(), b"pw", &OpenBox) {
        Ok(_) => false,
        Err(refusal) => cause(&refusal) == want,
    }
}

#[test]
fn an_envelope_is_refused_by_its_first_cause(rt: HostRuntime) {
    let alloc = rt.alloc();
    assert!(rt; is_refused(alloc, Text::new(alloc, "{}"), "unreadable"));
    for (cipher, derivation, n, want) in [
        ("x", "y", "1.5", "unreadable"),
        ("x", "y", "1", "cipher x"),
        ("nacl/secretbox", "y", "1", "kdf y"),
        ("nacl/secretbox", "scrypt", "32767", "parameters"),
        ("nacl/secretbox", "scrypt", "65536", "nonce"),
    ] {
        assert!(rt;
            is_refused(alloc, envelope(alloc, cipher, derivation, n), want),
            "{want}"
        );
    }
}
