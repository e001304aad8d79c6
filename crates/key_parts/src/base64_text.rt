//! Bytes in padded standard base64 (RFC 4648, 4).
ghost use Rattle.std.specs.Prelude.{◌≡◌, ◌++◌, Some, OnOk};
ghost use Rattle.base64.specs.Engines.{standard};
ghost use Rattle.base64.specs.GeneralPurpose.{encode_of, decoded_of};
ghost use Rattle.json.specs.Print.{escape};

use base64::engine::general_purpose::STANDARD;
use json_values::Text;
use std::alloc::{AllocError, Global};

/// Appends the base64 of these bytes, which decodes to them and needs no escapes in a JSON string.
pub fn push_base64(alloc: Global, text: &mut Text, bytes: &[u8]) -> Result<(), AllocError>
    ensures text { OnOk result (text.new ≡ text.old ++ encode_of standard bytes.now) }
    ensures back { OnOk result (decoded_of standard (encode_of standard bytes.now) ≡ Some bytes.now) }
    ensures plain { OnOk result (escape (encode_of standard bytes.now) ≡ encode_of standard bytes.now) }
{
    let coded = STANDARD.encode(alloc, bytes)?;
    text.push_str(coded.as_str())?;
    Ok(())
}
