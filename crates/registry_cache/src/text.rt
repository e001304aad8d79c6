// The canonical text of settings, and its hash.
ghost use Rattle.std.specs.Prelude.{◌≡◌, None, IfOk};
ghost use Rattle.hex.specs.Hex.{encode_lower};
ghost use Rattle.sha2.specs.Sha256.{sha256};
ghost use Rattle.json_events.specs.Canonical.{Canonical};
ghost use Rattle.json_events.specs.Refused.{refused};

use json_canon::to_vec;
use json_events::CanonError;
use json_values::{Blob, Text, ToValue};
use sha2::{Digest, Sha256};
use std::alloc::{AllocError, Global};

// The canonical text of a value whose numbers are all accepted.
pub(crate) fn text_of<V: ToValue>(alloc: Global, value: &V) -> Result<Blob, AllocError>
    requires { refused (V.written value.now) ≡ None }
    ensures { IfOk result (λ text. Canonical (V.written value.now) text) }
{
    match to_vec(alloc, value) {
        Ok(text) => Ok(text),
        Err(CanonError::WantOfMemory) => Err(AllocError),
        Err(_) => unreachable!(),
    }
}

// The hexadecimal digits of the SHA-256 of a text.
pub(crate) fn digits_of(alloc: Global, text: &[u8]) -> Result<Text, AllocError>
    ensures { IfOk result (λ digits. digits ≡ encode_lower (sha256 text.now)) }
{
    let digits = hex::encode(alloc, &Sha256::digest(text))?;
    Text::new(alloc, digits.as_str())
}
