// The texts of numbers, `bool` and strings (RFC 8785, 3.2.2).
ghost use Rattle.std.specs.Prelude.{◌≡◌, IfOk};
ghost use Rattle.std.specs.Fmt.{signed_decimal};
ghost use Rattle.json_values.specs.Canon.{quoted_text};
ghost use Rattle.json_events.specs.Canonical.{truth_text};
ghost use Rattle.json_events.specs.Scalars.{refused_integer};

use crate::error::CanonError;
use itoa::Buffer;
use json_values::{Blob, write_quoted};
use std::alloc::{AllocError, Global};

/// The greatest magnitude of an integer that every JSON parser represents exactly (RFC 8785, 3.2.2.3).
pub const MAX_SAFE_INTEGER: i64 = 9007199254740991;

/// Returns `IntegerOutOfRange` if the magnitude of the number is greater than 9007199254740991.
pub fn refused_integer(z: i128) -> Option<CanonError>
    ensures { result ≡ refused_integer z }
{
    let greatest = i128::from(MAX_SAFE_INTEGER);
    if -greatest <= z && z <= greatest {
        None
    } else {
        Some(CanonError::IntegerOutOfRange)
    }
}

pub(crate) fn truth_word(value: bool) -> &'static [u8]
    ensures { result.now ≡ truth_text value }
{
    if value { b"true" } else { b"false" }
}

pub(crate) fn integer_text(alloc: Global, value: i128) -> Result<Blob, AllocError>
    ensures { IfOk result (λ t. t ≡ signed_decimal value) }
{
    let mut buffer = Buffer::new();
    Blob::new(alloc, buffer.format(value).as_bytes())
}

pub(crate) fn string_text(alloc: Global, text: &str) -> Result<Blob, AllocError>
    ensures { IfOk result (λ t. t ≡ quoted_text text.now) }
{
    let quoted = write_quoted(alloc, text)?;
    Blob::new(alloc, quoted.as_str().as_bytes())
}
