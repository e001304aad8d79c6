ghost use Rattle.std.specs.Prelude.{◌≡◌, ◌≤◌, false, length, map, None, option_and_then, is_some, IfOk, IfSome};
ghost use Rattle.std.specs.List.{list_any};
ghost use Rattle.std.specs.Str.{bytes_eq};
ghost use Rattle.json.specs.Reads.{token_of};
ghost use Rattle.json_values.specs.JsonText.{json_of};
ghost use Rattle.json_tables.specs.Objects.{only};
ghost use Rattle.json_tables.specs.Tokens.{opens_object, DecidesOnly, DecidesRest};

use json::{Reader, Scratch, Token};
use std::alloc::{AllocError, Global};
use std::str;

// How many bytes `may_have_only` reads first.
const FRONT: usize = 65536;

// How deep arrays and objects may nest in a member of the object.
const MEMBER_DEPTH: usize = 126;

/// Returns false only if the bytes are not a JSON object with no other members than these. Reads the first 64 KiB, and
/// the whole text only if they have another member. Builds no value.
pub fn may_have_only(alloc: Global, bytes: &[u8], names: &[&str]) -> Result<bool, AllocError>
    ensures refused { IfOk result (λ may. may ≡ false
        → option_and_then (only (map (λ name. name.now) names.now)) (json_of bytes.now) ≡ None) }
    ensures short { length bytes.now ≤ 65536 → IfOk result (λ may. IfSome (json_of bytes.now)
        (λ d. may ≡ is_some (only (map (λ name. name.now) names.now) d))) }
{
    if has_only(alloc, front(bytes), names)? {
        return Ok(true);
    }
    has_only(alloc, bytes, names)
}

/// If the bytes are JSON, returns whether they are an object with no other members than these. Reads up to the first
/// other member.
pub fn has_only(alloc: Global, bytes: &[u8], names: &[&str]) -> Result<bool, AllocError>
    ensures { IfOk result (λ holds. IfSome (json_of bytes.now)
        (λ d. holds ≡ is_some (only (map (λ name. name.now) names.now) d))) }
{
    let Ok(text) = str::from_utf8(bytes) else {
        return Ok(true);
    };
    let mut scratch = Scratch::new(alloc);
    let mut reader = Reader::new(text, &mut scratch)?;
    Ok(is_object(&mut reader, names))
}

// The first bytes, without a part of a character at their end.
fn front(bytes: &[u8]) -> &[u8]
    ensures few { length result.now ≤ 65536 }
    ensures short { length bytes.now ≤ 65536 → result.now ≡ bytes.now }
{
    if bytes.len() <= FRONT {
        return bytes;
    }
    let mut end = FRONT;
    while end > 0 && bytes[end] & 0xC0 == 0x80 {
        end -= 1;
    }
    &bytes[..end]
}

// Whether the next value is an object with these names only.
fn is_object(reader: &mut Reader<'_>, names: &[&str]) -> bool
    ensures { DecidesOnly (map (λ name. name.now) names.now) reader.old result }
{
    let Some(token) = reader.next() else {
        return false;
    };
    if !opens_object(&token) {
        return false;
    }
    are_among(reader, names)
}

fn opens_object(token: &Token<'_>) -> bool
    ensures { result ≡ opens_object (token_of token.now) }
{
    matches!(token, Token::BeginObject)
}

// Whether all members that follow have these names. Ends with true where the text is not JSON.
fn are_among(reader: &mut Reader<'_>, names: &[&str]) -> bool
    ensures { DecidesRest (map (λ name. name.now) names.now) reader.old result }
{
    'members: while let Ok(found) = reader.next_key() {
        let Some(name) = found else {
            return true;
        };
        if !is_among(name, names) {
            return false;
        }
        if reader.skip_value(MEMBER_DEPTH).is_err() {
            return true;
        }
    }
    true
}

fn is_among(name: &str, names: &[&str]) -> bool
    ensures { result ≡ list_any (bytes_eq name.now) (map (λ name. name.now) names.now) }
{
    for other in names {
        if name == *other {
            return true;
        }
    }
    false
}
