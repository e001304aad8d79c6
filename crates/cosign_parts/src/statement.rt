//! In-toto statements. A member of one is read without holding the other members.
ghost use Rattle.std.specs.Prelude.{◌≡◌, ◌≤◌, ◌==◌, ◌<◌, Some, None, Err, IsTrue, IfOk, IfSome};
ghost use Rattle.std.specs.Prelude.{length, option_map, slice_index};
ghost use Rattle.std.specs.List.{list_all};
ghost use Rattle.json.specs.Find.{get_member};
ghost use Rattle.json.specs.Json.{Members, members, value};
ghost use Rattle.json.specs.Lex.{tokens};
ghost use Rattle.json.specs.Reads.{token_of};
ghost use Rattle.json.specs.Tree.{HasNumbers, depth as nesting};
ghost use Rattle.json.specs.Value.{value_view};
ghost use Rattle.serde_json.specs.Read.{of_json};
ghost use Rattle.cosign_parts.specs.Statement.{is_negative, is_unsigned, is_whole, is_whole_token};
ghost use Rattle.cosign_parts.specs.Statement.{plain_member, predicate_in, predicate_of};

use crate::bundle::Envelope;
use crate::envelope::envelope_in;
use fast_float::Numeral;
use json::{Error, Reader, Scratch, Token, to_vec};
use json_tables::read_plain_json;
use json_values::{Json, Text, read_json};
use std::alloc::{AllocError, Global};

const STATEMENT_TYPE: &str = "application/vnd.in-toto+json";

// How deep a member may nest, so that its object nests as deep as `read_json` allows.
const MEMBER_DEPTH: usize = 126;

/// Returns the type of the predicate of the in-toto statement in a bundle, if the bytes are a bundle with one.
pub fn predicate_type(alloc: Global, content: &[u8]) -> Result<Option<Text>, AllocError>
    ensures { IfOk result (λ found. found ≡ predicate_in content.now) }
{
    let Some(envelope) = envelope_in(alloc, content)? else {
        return Ok(None);
    };
    let found = envelope_predicate(alloc, &envelope)?;
    Ok(found)
}

fn envelope_predicate(alloc: Global, envelope: &Envelope) -> Result<Option<Text>, AllocError>
    ensures { IfOk result (λ found. found ≡ predicate_of envelope.now) }
{
    if envelope.payload_type.as_str() != STATEMENT_TYPE {
        return Ok(None);
    }
    let Some(json) = plain_member(alloc, envelope.payload.as_slice(), "predicateType")? else {
        return Ok(None);
    };
    match json.value().as_str() {
        None => Ok(None),
        Some(text) => Ok(Some(Text::new(alloc, text)?)),
    }
}

/// Returns the member of this name of the object that the bytes encode in JSON without floats. It holds no other member,
/// unless a number is not an integer of 64 bits or the value is no object.
pub(crate) fn plain_member(
    alloc: Global,
    bytes: &[u8],
    name: &str,
) -> Result<Option<Json>, AllocError>
    ensures { IfOk result (λ found. found ≡ plain_member name.now bytes.now) }
{
    let Ok(text) = std::str::from_utf8(bytes) else {
        return Ok(None);
    };
    let whole = has_integers(alloc, text)?;
    if !whole {
        let found = held_member(alloc, bytes, name)?;
        return Ok(found);
    }
    let found = member_in(alloc, text, name)?;
    Ok(found)
}

// The same, by the whole value.
fn held_member(alloc: Global, bytes: &[u8], name: &str) -> Result<Option<Json>, AllocError>
    ensures { IfOk result (λ found. found ≡ plain_member name.now bytes.now) }
{
    let Some(json) = read_plain_json(alloc, bytes)? else {
        return Ok(None);
    };
    match json.value().get(name) {
        None => Ok(None),
        Some(member) => Ok(Some(Json::new(member.clone()?))),
    }
}

// The same, of a text whose numbers are integers.
fn member_in(alloc: Global, text: &str, name: &str) -> Result<Option<Json>, AllocError>
    ensures { IfOk result (λ found. IsTrue (list_all is_whole_token (tokens text.now))
        → found ≡ plain_member name.now text.now) }
{
    let mut scratch = Scratch::new(alloc);
    let mut reader = Reader::new(text, &mut scratch)?;
    let Some(Token::BeginObject) = reader.next() else {
        let found = held_member(alloc, text.as_bytes(), name)?;
        return Ok(found);
    };
    let found = match last_member(alloc, &mut reader, name) {
        Ok(found) => found,
        Err(Error::Invalid) => return Ok(None),
        Err(_) => return Err(AllocError),
    };
    if let Some(_) = reader.next() {
        return Ok(None);
    }
    let Some(member) = found else {
        return Ok(None);
    };
    let owned = owned(alloc, &member)?;
    Ok(owned)
}

// Passes the members of an object, and returns the last one of this name.
fn last_member<'a>(
    alloc: Global,
    reader: &mut Reader<'a>,
    name: &str,
) -> Result<Option<json::Value<'a>>, Error>
    ensures ok { IfOk result (λ found. (ms : Members)
        × (members (value 126) (length reader.old) reader.old ≡ Some (ms, reader.new))
        × (option_map value_view found ≡ get_member name.now ms)) }
    ensures writable { IfOk result (λ found. IfSome found (λ v.
        HasNumbers (value_view v) × (nesting (value_view v) ≤ 126))) }
    ensures invalid { result ≡ Err Error.Invalid → members (value 126) (length reader.old) reader.old ≡ None }
{
    let mut found = None;
    'members: while let Some(key) = reader.next_key()? {
        if key == name {
            found = Some(json::Value::read(alloc, reader, MEMBER_DEPTH)?);
        } else {
            reader.skip_value(MEMBER_DEPTH)?;
        }
    }
    Ok(found)
}

// Returns the value with its own strings, if its numbers are in range.
fn owned(alloc: Global, member: &json::Value<'_>) -> Result<Option<Json>, AllocError>
    requires numbers { HasNumbers (value_view member.now) }
    requires nests { nesting (value_view member.now) ≤ 126 }
    ensures { IfOk result (λ found. found ≡ of_json (value_view member.now)) }
{
    let text = to_vec(alloc, member)?;
    let found = read_json(alloc, text.as_slice())?;
    Ok(found)
}

// Whether each number of the text is an integer of 64 bits.
fn has_integers(alloc: Global, text: &str) -> Result<bool, AllocError>
    ensures { IfOk result (λ b. IsTrue b → IsTrue (list_all is_whole_token (tokens text.now))) }
{
    let mut scratch = Scratch::new(alloc);
    let mut reader = Reader::new(text, &mut scratch)?;
    'tokens: while let Some(token) = reader.next() {
        if !is_whole_token(&token) {
            return Ok(false);
        }
    }
    Ok(true)
}

fn is_whole_token(token: &Token<'_>) -> bool
    ensures { IsTrue result → IsTrue (is_whole_token (token_of token.now)) }
{
    match token {
        Token::Number(text) => is_whole(text),
        _ => true,
    }
}

// Whether the text of a number is that of an integer of 64 bits.
fn is_whole(text: &str) -> bool
    ensures { IsTrue result → IsTrue (is_whole text.now) }
{
    let bytes = text.as_bytes();
    if has_minus(bytes) {
        is_negative(&Numeral::scan(&bytes[1..]))
    } else {
        is_unsigned(&Numeral::scan(bytes))
    }
}

fn has_minus(bytes: &[u8]) -> bool
    ensures value { result ≡ (slice_index bytes.now 0 == 45) }
    ensures len { IsTrue result → 0 < length bytes.now }
{
    !bytes.is_empty() && bytes[0] == b'-'
}

fn is_negative(numeral: &Numeral<'_>) -> bool
    ensures { IsTrue result → IsTrue (is_negative numeral.now) }
{
    match numeral.to_i64(true) {
        None => false,
        Some(number) => number < 0,
    }
}

fn is_unsigned(numeral: &Numeral<'_>) -> bool
    ensures { IsTrue result → IsTrue (is_unsigned numeral.now) }
{
    numeral.to_u64().is_some()
}
