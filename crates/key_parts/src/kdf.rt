//! Private keys encrypted under passwords.
ghost use Rattle.std.specs.Prelude.{◌≡◌, IfOk, Some, Ok};
ghost use Rattle.json_tables.specs.Plain.{read_plain};
ghost use Rattle.json_values.specs.Refusals.{Matches};
ghost use Rattle.key_parts.specs.Decrypt.{checked, decrypted, plain_of};
ghost use Rattle.key_parts.specs.Encrypt.{encrypted, OpensWhatItSeals};
ghost use Rattle.key_parts.specs.Envelope.{envelope_of, envelope_text, envelope_with};
ghost use Rattle.key_parts.specs.EnvelopeError.{is_memory};
ghost use Rattle.key_parts.specs.declared.envelope_error.KdfError.TheVariants.{PrivateKeyDecryptError};

use crate::base64_text::push_base64;
use crate::envelope::Envelope;
use crate::envelope_error::{DecryptCause, KdfError};
use crate::key_box::{BOX_NONCE_SIZE, KeyBox, NAME_SECRET_BOX};
use crate::scrypt::{NAME_SCRYPT, SALT_SIZE, SCRYPT_P, SCRYPT_R};
use json_tables::read_plain;
use json_values::{Blob, Text};
use std::alloc::{AllocError, Global};

// The text before the salt, the nonce and the ciphertext.
const TO_SALT: &'static str =
    "{\"kdf\":{\"name\":\"scrypt\",\"params\":{\"N\":32768,\"r\":8,\"p\":1},\"salt\":\"";

const TO_NONCE: &'static str = "\"},\"cipher\":{\"name\":\"nacl/secretbox\",\"nonce\":\"";

const TO_CIPHERTEXT: &'static str = "\"},\"ciphertext\":\"";

/// Encrypts a private key under a password, with log N 15, r 8 and p 1 for scrypt. Returns JSON with its members
/// in cosign's order. The caller must pass a fresh salt and nonce for each envelope.
pub fn encrypt<B: KeyBox>(
    alloc: Global,
    plaintext: &[u8],
    password: &[u8],
    salt: &[u8; SALT_SIZE],
    nonce: &[u8; BOX_NONCE_SIZE],
    keybox: &B,
) -> Result<Blob, AllocError>
    ensures text { IfOk result (λ text. text ≡ encrypted (B.derived keybox.now) (B.sealed keybox.now)
        plaintext.now password.now salt.now nonce.now) }
    ensures back { OpensWhatItSeals (B.derived keybox.now) (B.sealed keybox.now) (B.opened keybox.now)
        plaintext.now password.now salt.now nonce.now
        → IfOk result (λ text. decrypted (B.derived keybox.now) (B.opened keybox.now) text password.now
        ≡ Ok plaintext.now) }
{
    let key = keybox.derive(alloc, password, salt, 15, SCRYPT_R, SCRYPT_P)?;
    let sealed = keybox.seal(alloc, &key, nonce, plaintext)?;
    let text = write_envelope(alloc, salt, nonce, sealed.as_slice())?;
    Ok(text)
}

/// Decrypts an envelope under a password.
///
/// Returns the first of these errors that applies: `EnvelopeUnreadable` if the bytes are not JSON without floats
/// that matches the envelope's table; then, inside `PrivateKeyDecryptError`, `UnknownCipher`, `UnknownKdf`,
/// `UnexpectedParameters`, `NonceLength`, and `UnsealRefused` if the box does not open the ciphertext.
pub fn decrypt<B: KeyBox>(
    alloc: Global,
    ciphertext: &[u8],
    password: &[u8],
    keybox: &B,
) -> Result<Blob, KdfError>
    ensures { Matches is_memory result
        (decrypted (B.derived keybox.now) (B.opened keybox.now) ciphertext.now password.now) }
{
    let Some(envelope) = read_plain::<Envelope>(alloc, ciphertext)? else {
        return Err(KdfError::EnvelopeUnreadable);
    };
    check(alloc, &envelope)?;
    match unseal(alloc, &envelope, password, keybox)? {
        Some(plain) => Ok(plain),
        None => Err(refused(DecryptCause::UnsealRefused)),
    }
}

fn refused(cause: DecryptCause) -> KdfError
    ensures { result ≡ PrivateKeyDecryptError cause }
{
    KdfError::PrivateKeyDecryptError(cause)
}

// Checks that the envelope has a form that cosign writes.
fn check(alloc: Global, envelope: &Envelope) -> Result<(), KdfError>
    ensures { Matches is_memory result (checked envelope.now) }
{
    let cipher = envelope.cipher.name.as_str();
    if cipher != NAME_SECRET_BOX {
        return Err(refused(DecryptCause::UnknownCipher(Text::new(alloc, cipher)?)));
    }
    let derivation = envelope.derivation.name.as_str();
    if derivation != NAME_SCRYPT {
        return Err(refused(DecryptCause::UnknownKdf(Text::new(alloc, derivation)?)));
    }
    if !envelope.derivation.params.check_params() {
        return Err(refused(DecryptCause::UnexpectedParameters));
    }
    if envelope.cipher.nonce.as_slice().len() != BOX_NONCE_SIZE {
        return Err(refused(DecryptCause::NonceLength));
    }
    Ok(())
}

// Opens the envelope.
fn unseal<B: KeyBox>(
    alloc: Global,
    envelope: &Envelope,
    password: &[u8],
    keybox: &B,
) -> Result<Option<Blob>, AllocError>
    ensures { IfOk result (λ plain. plain
        ≡ plain_of (B.derived keybox.now) (B.opened keybox.now) envelope.now password.now) }
{
    let params = envelope.derivation.params;
    let salt = envelope.derivation.salt.as_slice();
    let key = keybox.derive(alloc, password, salt, params.log_n(), params.r, params.p)?;
    let nonce = envelope.cipher.nonce.as_slice();
    keybox.unseal(alloc, &key, nonce, envelope.ciphertext.as_slice())
}

// Returns the text of an envelope, which parses to the envelope of these parts.
fn write_envelope(
    alloc: Global,
    salt: &[u8],
    nonce: &[u8],
    ciphertext: &[u8],
) -> Result<Blob, AllocError>
    ensures text { IfOk result (λ text. text ≡ envelope_text salt.now nonce.now ciphertext.now) }
    ensures back { IfOk result (λ text. read_plain envelope_of text
        ≡ Some (envelope_with salt.now nonce.now ciphertext.now)) }
{
    let mut text = Text::new(alloc, TO_SALT)?;
    push_base64(alloc, &mut text, salt)?;
    text.push_str(TO_NONCE)?;
    push_base64(alloc, &mut text, nonce)?;
    text.push_str(TO_CIPHERTEXT)?;
    push_base64(alloc, &mut text, ciphertext)?;
    text.push_str("\"}")?;
    let bytes = Blob::new(alloc, text.as_str().as_bytes())?;
    Ok(bytes)
}
