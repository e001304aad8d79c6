//! Entries of a transparency log.
ghost use Rattle.std.specs.Prelude.{◌≡◌, IfOk, is_some, map, pos};
ghost use Rattle.std.specs.Fmt.{signed_decimal};
ghost use Rattle.hex.specs.Hex.{encode_lower};
ghost use Rattle.serde_json.specs.View.{view};
ghost use Rattle.cosign_parts.specs.LogEntry.{annotated_entry, bundle_entry_of, in_log, log_text, logged, logs};
ghost use Rattle.cosign_parts.specs.LogEntry.{payload_entry_of, short_decimal_of, text_is, whole_of, whole_or_text_of};
ghost use Rattle.json_tables.specs.Bytes.{base64_of};
ghost use Rattle.json_tables.specs.Member.{required};

use json_events::MAX_SAFE_INTEGER;
use json_tables::{decode_base64, read_plain_json, text_at};
use json_values::{Blob, Copied, Text, copied, read_decimal, read_json, write_quoted};
use serde_json::Value;
use sha2::{Digest, Sha256};
use std::alloc::{AllocError, Global};

/// A log's entry for a signature, with the log's promise to keep it.
#[derive(Drop)]
pub struct LogEntryBundle {
    /// The log's signature over the canonical text of the four other fields.
    pub signed_entry_timestamp: Blob,
    pub body: Text,
    /// In seconds since 1970.
    pub integrated_time: i64,
    pub log_index: i64,
    pub log_id: Text,
}

/// Parses the entry in the annotation of a payload.
pub(crate) fn annotated_entry(
    alloc: Global,
    text: &str,
) -> Result<Option<LogEntryBundle>, AllocError>
    ensures { IfOk result (λ found. found ≡ annotated_entry text.now) }
{
    let Some(json) = read_json(alloc, text.as_bytes())? else {
        return Ok(None);
    };
    let entry = payload_entry(alloc, json.value())?;
    Ok(entry)
}

#[tactic(auto, unfolding(crate::specs::LogEntry::payload_entry_of))]
fn payload_entry(alloc: Global, value: &Value) -> Result<Option<LogEntryBundle>, AllocError>
    ensures { IfOk result (λ found. found ≡ payload_entry_of (view value.now)) }
{
    let Some(payload) = value.get("Payload") else {
        return Ok(None);
    };
    let Some(body) = text_at(payload, &["body"]) else {
        return Ok(None);
    };
    let Some(integrated_time) = whole_at(payload, "integratedTime") else {
        return Ok(None);
    };
    let Some(log_index) = whole_at(payload, "logIndex") else {
        return Ok(None);
    };
    let Some(log_id) = text_at(payload, &["logID"]) else {
        return Ok(None);
    };
    let Some(signed_entry_timestamp) = base64_at(alloc, value, "SignedEntryTimestamp")? else {
        return Ok(None);
    };
    let body = Text::new(alloc, body)?;
    let log_id = Text::new(alloc, log_id)?;
    Ok(Some(LogEntryBundle {
        signed_entry_timestamp,
        body,
        integrated_time,
        log_index,
        log_id,
    }))
}

/// Parses the entry in a bundle.
#[tactic(auto, unfolding(crate::specs::LogEntry::bundle_entry_of))]
pub(crate) fn bundle_entry(
    alloc: Global,
    value: &Value,
) -> Result<Option<LogEntryBundle>, AllocError>
    ensures { IfOk result (λ found. found ≡ bundle_entry_of (view value.now)) }
{
    let Some(body) = text_at(value, &["canonicalizedBody"]) else {
        return Ok(None);
    };
    let Some(integrated_time) = whole_or_text_at(value, "integratedTime") else {
        return Ok(None);
    };
    let Some(log_index) = whole_or_text_at(value, "logIndex") else {
        return Ok(None);
    };
    let Some(log) = value.get("logId") else {
        return Ok(None);
    };
    let Some(key_id) = base64_at(alloc, log, "keyId")? else {
        return Ok(None);
    };
    let Some(promise) = value.get("inclusionPromise") else {
        return Ok(None);
    };
    let Some(signed_entry_timestamp) = base64_at(alloc, promise, "signedEntryTimestamp")? else {
        return Ok(None);
    };
    let body = Text::new(alloc, body)?;
    let log_id = hex_text(alloc, key_id.as_slice())?;
    Ok(Some(LogEntryBundle {
        signed_entry_timestamp,
        body,
        integrated_time,
        log_index,
        log_id,
    }))
}

/// Returns the canonical text of what a log signs of an entry (RFC 8785): an object with its body, its time, its log's
/// id and its index.
pub fn log_text(alloc: Global, entry: &LogEntryBundle) -> Result<Text, AllocError>
    ensures { IfOk result (λ text. text ≡ log_text entry.now) }
{
    let mut text = Text::new(alloc, "{\"body\":")?;
    text.push_str(write_quoted(alloc, entry.body.as_str())?.as_str())?;
    text.push_str(",\"integratedTime\":")?;
    text.push_str(decimal_text(alloc, &entry.integrated_time)?.as_str())?;
    text.push_str(",\"logID\":")?;
    text.push_str(write_quoted(alloc, entry.log_id.as_str())?.as_str())?;
    text.push_str(",\"logIndex\":")?;
    text.push_str(decimal_text(alloc, &entry.log_index)?.as_str())?;
    text.push_str("}")?;
    Ok(text)
}

/// Returns whether the body of an entry states that it logs this text with this signature: a `hashedrekord` with the
/// text's SHA-256 in lower-case hexadecimal and the signature in padded standard base64.
pub fn logs(alloc: Global, body: &str, text: &[u8], signature: &[u8]) -> Result<bool, AllocError>
    ensures { IfOk result (λ b. b ≡ logs body.now text.now signature.now) }
{
    let Some(body) = decode_base64(alloc, body)? else {
        return Ok(false);
    };
    let Some(json) = read_plain_json(alloc, body.as_slice())? else {
        return Ok(false);
    };
    let logged = is_logged(alloc, json.value(), text, signature)?;
    Ok(logged)
}

#[tactic(auto, unfolding(crate::specs::LogEntry::logged))]
fn is_logged(
    alloc: Global,
    value: &Value,
    text: &[u8],
    signature: &[u8],
) -> Result<bool, AllocError>
    ensures { IfOk result (λ b. b ≡ is_some (logged text.now signature.now (view value.now))) }
{
    if !has_text(value, &["kind"], "hashedrekord") {
        return Ok(false);
    }
    if !has_text(value, &["spec", "data", "hash", "algorithm"], "sha256") {
        return Ok(false);
    }
    let hash = hex_text(alloc, &Sha256::digest(text))?;
    if !has_text(value, &["spec", "data", "hash", "value"], hash.as_str()) {
        return Ok(false);
    }
    let Some(content) = text_at(value, &["spec", "signature", "content"]) else {
        return Ok(false);
    };
    let Some(content) = decode_base64(alloc, content)? else {
        return Ok(false);
    };
    Ok(content.as_slice() == signature)
}

// Whether this string is at the end of the path.
fn has_text(value: &Value, path: &[&str], text: &str) -> bool
    ensures { result ≡ is_some (text_is (map (λ name. name.now) path.now) text.now (view value.now)) }
{
    match text_at(value, path) {
        None => false,
        Some(found) => found == text,
    }
}

// Returns a member in padded standard base64, decoded.
fn base64_at(alloc: Global, value: &Value, name: &str) -> Result<Option<Blob>, AllocError>
    ensures { IfOk result (λ found. found ≡ required base64_of name.now (view value.now)) }
{
    let Some(text) = text_at(value, &[name]) else {
        return Ok(None);
    };
    let bytes = decode_base64(alloc, text)?;
    Ok(bytes)
}

// Returns a member that is an integer in the log's range.
fn whole_at(value: &Value, name: &str) -> Option<i64>
    ensures { result ≡ required whole_of name.now (view value.now) }
{
    whole(value.get(name)?)
}

fn whole(value: &Value) -> Option<i64>
    ensures { result ≡ whole_of (view value.now) }
{
    let whole = value.as_i64()?;
    if whole < 0 || MAX_SAFE_INTEGER < whole {
        return None;
    }
    Some(whole)
}

// The same, for an integer or a string of decimal digits.
fn whole_or_text_at(value: &Value, name: &str) -> Option<i64>
    ensures { result ≡ required whole_or_text_of name.now (view value.now) }
{
    whole_or_text(value.get(name)?)
}

fn whole_or_text(value: &Value) -> Option<i64>
    ensures { result ≡ whole_or_text_of (view value.now) }
{
    match value {
        Value::String(text) => short_decimal(text.as_str()),
        other => whole(other),
    }
}

// Returns the number that 1 to 16 decimal digits denote, if it is in the log's range.
fn short_decimal(text: &str) -> Option<i64>
    ensures { result ≡ short_decimal_of text.now }
{
    if 16 < text.len() {
        return None;
    }
    in_log(read_decimal(text.as_bytes())?)
}

fn in_log(number: u64) -> Option<i64>
    ensures { result ≡ in_log (pos number) }
{
    if number > MAX_SAFE_INTEGER as u64 {
        return None;
    }
    Some(number as i64)
}

fn decimal_text(alloc: Global, number: &i64) -> Result<Text, AllocError>
    ensures { IfOk result (λ text. text ≡ signed_decimal number.now) }
{
    let number = *number;
    let digits = format!(in alloc; "{number}")?;
    Text::new(alloc, digits.as_str())
}

fn hex_text(alloc: Global, bytes: &[u8]) -> Result<Text, AllocError>
    ensures { IfOk result (λ text. text ≡ encode_lower bytes.now) }
{
    Text::new(alloc, hex::encode(alloc, bytes)?.as_str())
}

impl Copied for LogEntryBundle {
    fn copy(&self, alloc: Global) -> Result<LogEntryBundle, AllocError> {
        copied!(
            alloc,
            self,
            LogEntryBundle {
                signed_entry_timestamp,
                body,
                integrated_time,
                log_index,
                log_id
            }
        )
    }
}
