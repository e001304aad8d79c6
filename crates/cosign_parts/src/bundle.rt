//! The content of a bundle layer (sigstore bundle v0.3, in this project's profile).
ghost use Rattle.std.specs.Prelude.{◌≡◌, Option, IfOk, option_map, is_some};
ghost use Rattle.serde_json.specs.View.{view, items_view};
ghost use Rattle.cosign_parts.specs.Bundle.{certificate_at, certificate_in, entry_at, entry_in, envelope_of};
ghost use Rattle.cosign_parts.specs.Bundle.{first_item, held_by, held_in, material_of, object_only, one_object};
ghost use Rattle.cosign_parts.specs.Bundle.{only_object, promised_entry, signature_at, signature_object, subjects_of};

use crate::log_entry::{LogEntryBundle, bundle_entry};
use crate::shown::{Found, Subject};
use crate::statement::plain_member;
use json_tables::{
    Member, ReadError, Reads, decode_base64, present, read_or_none, read_plain_json, required,
    text_at,
};
use json_values::{Annotations, Blob, List, Text};
use serde_json::Value;
use std::alloc::{AllocError, Global};

/// The media type of a bundle (sigstore bundle v0.3).
pub const BUNDLE_TYPE: &'static str = "application/vnd.dev.sigstore.bundle.v0.3+json";

/// The envelope of a bundle.
#[derive(Drop)]
pub(crate) struct Envelope {
    pub payload_type: Text,
    pub payload: Blob,
}

/// Returns the envelope of a value that has the form of a bundle.
#[tactic(auto, unfolding(crate::specs::Bundle::envelope_of))]
pub(crate) fn read_envelope(alloc: Global, value: &Value) -> Result<Option<Envelope>, AllocError>
    ensures { IfOk result (λ found. found ≡ envelope_of (view value.now)) }
{
    let Some(media_type) = text_at(value, &["mediaType"]) else {
        return Ok(None);
    };
    if media_type != BUNDLE_TYPE {
        return Ok(None);
    }
    let Some(payload_type) = text_at(value, &["dsseEnvelope", "payloadType"]) else {
        return Ok(None);
    };
    let Some(_) = signature_object(value) else {
        return Ok(None);
    };
    let Some(_) = material(value) else {
        return Ok(None);
    };
    let Some(payload) = text_at(value, &["dsseEnvelope", "payload"]) else {
        return Ok(None);
    };
    let Some(payload) = decode_base64(alloc, payload)? else {
        return Ok(None);
    };
    let payload_type = Text::new(alloc, payload_type)?;
    Ok(Some(Envelope {
        payload_type,
        payload,
    }))
}

/// What a bundle holds: the payload of its envelope, in which its statement is, and what is found beside it.
#[derive(Drop)]
pub(crate) struct BundleParts {
    pub payload: Blob,
    pub signature: Option<Text>,
    pub log_entry: Found<LogEntryBundle>,
    pub certificate: Found<Blob>,
}

/// Returns the parts of the bundle that the bytes encode.
pub(crate) fn read_parts(alloc: Global, content: &[u8]) -> Result<Option<BundleParts>, AllocError>
    ensures { IfOk result (λ found. found ≡ held_in content.now) }
{
    let Some(json) = read_plain_json(alloc, content)? else {
        return Ok(None);
    };
    let parts = parts_of(alloc, json.value())?;
    Ok(parts)
}

fn parts_of(alloc: Global, value: &Value) -> Result<Option<BundleParts>, AllocError>
    ensures { IfOk result (λ found. found ≡ held_by (view value.now)) }
{
    let Some(envelope) = read_envelope(alloc, value)? else {
        return Ok(None);
    };
    let Envelope {
        payload_type: _,
        payload,
    } = envelope;
    let log_entry = entry_at(alloc, value)?;
    let certificate = certificate_at(alloc, value)?;
    let signature = copied_text(alloc, signature_at(value))?;
    Ok(Some(BundleParts {
        payload,
        signature,
        log_entry,
        certificate,
    }))
}

fn copied_text(alloc: Global, text: Option<&str>) -> Result<Option<Text>, AllocError>
    ensures { IfOk result (λ found. found ≡ option_map (λ t. t.now) text.entry) }
{
    match text {
        None => Ok(None),
        Some(text) => Ok(Some(Text::new(alloc, text)?)),
    }
}

/// Returns the subjects of the statement that the bytes encode.
pub(crate) fn read_subjects(
    alloc: Global,
    payload: &[u8],
) -> Result<Option<List<Subject>>, AllocError>
    ensures { IfOk result (λ found. found ≡ subjects_of payload.now) }
{
    let Some(subjects) = plain_member(alloc, payload, "subject")? else {
        return Ok(None);
    };
    let subjects = read_or_none::<List<Subject>>(alloc, subjects.value())?;
    Ok(subjects)
}

impl Reads for Subject {
    ghost use Rattle.cosign_parts.specs.Bundle.{subject_of};

    ghost reading = { subject_of };

    fn read_value(alloc: Global, value: &Value) -> Result<Subject, ReadError> {
        let digest = required::<Annotations>(alloc, value, "digest")?;
        Ok(Subject { digest })
    }
}

// Returns the one object of the envelope's signatures.
fn signature_object<'a>(value: &'a Value) -> Option<&'a Value>
    ensures { option_map (λ v. view v.now) result ≡ signature_object (view value.now) }
{
    one_object(value.get("dsseEnvelope")?.get("signatures")?)
}

fn one_object<'a>(value: &'a Value) -> Option<&'a Value>
    ensures { option_map (λ v. view v.now) result ≡ one_object (view value.now) }
{
    only_object(value.as_array()?.as_slice())
}

fn only_object<'a>(items: &'a [Value]) -> Option<&'a Value>
    ensures { option_map (λ v. view v.now) result ≡ only_object (items_view items.now) }
{
    let Some((only, others)) = items.split_first() else {
        return None;
    };
    match others.split_first() {
        Some(_) => None,
        None => object_only(only),
    }
}

fn object_only<'a>(value: &'a Value) -> Option<&'a Value>
    ensures { option_map (λ v. view v.now) result ≡ object_only (view value.now) }
{
    if value.is_object() { Some(value) } else { None }
}

// Returns the verification material, if it has its form.
fn material<'a>(value: &'a Value) -> Option<&'a Value>
    ensures { option_map (λ v. view v.now) result ≡ material_of (view value.now) }
{
    let material = value.get("verificationMaterial")?;
    if !material.is_object() {
        return None;
    }
    match material.get("certificate") {
        None | Some(Value::Null) | Some(Value::Object(_)) => {}
        Some(_) => return None,
    }
    match material.get("tlogEntries") {
        None | Some(Value::Null) | Some(Value::Array(_)) => {}
        Some(_) => return None,
    }
    Some(material)
}

// Returns the string of the one signature of a bundle.
fn signature_at<'a>(value: &'a Value) -> Option<&'a str>
    ensures { option_map (λ text. text.now) result ≡ signature_at (view value.now) }
{
    signature_object(value)?.get("sig")?.as_str()
}

// Returns the bytes of the certificate of a bundle.
fn certificate_at(alloc: Global, value: &Value) -> Result<Found<Blob>, AllocError>
    ensures { IfOk result (λ found. found ≡ certificate_at (view value.now)) }
{
    let Some(material) = value.get("verificationMaterial") else {
        return Ok(Found::Absent);
    };
    let Some(certificate) = material.get("certificate") else {
        return Ok(Found::Absent);
    };
    let found = certificate_in(alloc, certificate)?;
    Ok(found)
}

fn certificate_in(alloc: Global, value: &Value) -> Result<Found<Blob>, AllocError>
    ensures { IfOk result (λ found. found ≡ certificate_in (Some (view value.now))) }
{
    if value.is_null() {
        return Ok(Found::Absent);
    }
    let Some(text) = text_at(value, &["rawBytes"]) else {
        return Ok(Found::Unreadable);
    };
    match decode_base64(alloc, text)? {
        None => Ok(Found::Unreadable),
        Some(bytes) => Ok(Found::Read(bytes)),
    }
}

// Returns the first log entry of a bundle, if it has a promise of the log.
fn entry_at(alloc: Global, value: &Value) -> Result<Found<LogEntryBundle>, AllocError>
    ensures { IfOk result (λ found. found ≡ entry_at (view value.now)) }
{
    let Some(entry) = promised_entry(value) else {
        return Ok(Found::Absent);
    };
    match bundle_entry(alloc, entry)? {
        None => Ok(Found::Unreadable),
        Some(entry) => Ok(Found::Read(entry)),
    }
}

fn promised_entry<'a>(value: &'a Value) -> Option<&'a Value>
    ensures { option_map (λ v. view v.now) result ≡ promised_entry (view value.now) }
{
    let entries = value.get("verificationMaterial")?.get("tlogEntries")?;
    let entry = first_item(entries)?;
    let _promise = entry.get("inclusionPromise")?.get("signedEntryTimestamp")?;
    Some(entry)
}

fn first_item<'a>(value: &'a Value) -> Option<&'a Value>
    ensures { option_map (λ v. view v.now) result ≡ first_item (view value.now) }
{
    value.as_array()?.first()
}
