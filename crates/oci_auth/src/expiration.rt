// How long a token is stored.
ghost use Rattle.std.specs.Prelude.{◌≡◌, [], ◌∷◌, IfOk, MatchOption, option_copied};
ghost use Rattle.serde_json.specs.View.{view};
ghost use Rattle.base64.specs.Engines.{url_safe_no_pad};
ghost use Rattle.base64.specs.GeneralPurpose.{decoded_of};
ghost use Rattle.oci_auth.specs.Expiration.{parts_of, payload_in, named_expiration, claimed_expiration, expiration_of};

use base64::DecodeAllocError;
use base64::engine::general_purpose::URL_SAFE_NO_PAD;
use json_tables::read_plain_json;
use json_values::Blob;
use serde_json::Value;
use std::alloc::{AllocError, Global};

/// The greatest life of a token, in seconds: a day.
const LONGEST_LIFE: u64 = 86400;

// Splits at the first dot.
fn cut(text: &str) -> Option<(&str, &str)>
    ensures { MatchOption result
        (parts_of text.now ≡ text.now ∷ [])
        (λ cut. parts_of text.now ≡ cut.0.now ∷ parts_of cut.1.now) }
{
    text.split_once('.')
}

fn payload_in(text: &str) -> Option<&str>
    ensures { option_copied result ≡ payload_in text.now }
{
    let Some((_, rest)) = cut(text) else {
        return None;
    };
    let Some((payload, last)) = cut(rest) else {
        return None;
    };
    match cut(last) {
        Some(_) => None,
        None => Some(payload),
    }
}

#[tactic(auto, unfolding(base64::specs::GeneralPurpose::decoded_of))]
fn decoded(alloc: Global, text: &str) -> Result<Option<Blob>, AllocError>
    ensures { IfOk result (λ bytes. bytes ≡ decoded_of url_safe_no_pad text.now) }
{
    match URL_SAFE_NO_PAD.decode(alloc, text.as_bytes()) {
        Ok(bytes) => Ok(Some(Blob::from_vec(bytes))),
        Err(DecodeAllocError::DecodeError(_)) => Ok(None),
        Err(DecodeAllocError::OutOfMemory) => Err(AllocError),
    }
}

fn named_expiration(value: &Value) -> Option<Option<u64>>
    ensures { result ≡ named_expiration (view value.now) }
{
    value.as_object()?;
    match value.get("exp") {
        None | Some(Value::Null) => Some(None),
        Some(member) => Some(Some(member.as_u64()?)),
    }
}

fn claimed_expiration(alloc: Global, payload: &str) -> Result<Option<Option<u64>>, AllocError>
    ensures { IfOk result (λ named. named ≡ claimed_expiration payload.now) }
{
    let Some(bytes) = decoded(alloc, payload)? else {
        return Ok(None);
    };
    let Some(json) = read_plain_json(alloc, bytes.as_slice())? else {
        return Ok(None);
    };
    Ok(named_expiration(json.value()))
}

/// Returns when a token with this text expires, in seconds since 1970; `moment` is when it was obtained.
///
/// A text of exactly three parts between dots is a JSON web token (RFC 7519). Returns `None` if its middle part is not
/// unpadded URL-safe base64 of a JSON object without floats whose `exp` is missing, null or an integer of 64 bits.
/// It expires at `exp`, or without `exp` after the default life, and in both cases after at most a day.
/// Every other text has the default life.
pub fn bearer_token_cache_expiration(
    alloc: Global,
    text: &str,
    default_expiration_secs: u64,
    moment: u64,
) -> Result<Option<u64>, AllocError>
    ensures { IfOk result (λ until. until ≡ expiration_of text.now default_expiration_secs moment) }
{
    let by_default = moment.saturating_add(default_expiration_secs);
    let Some(payload) = payload_in(text) else {
        return Ok(Some(by_default));
    };
    let Some(named) = claimed_expiration(alloc, payload)? else {
        return Ok(None);
    };
    let until = named.unwrap_or(by_default);
    Ok(Some(until.min(moment.saturating_add(LONGEST_LIFE))))
}
