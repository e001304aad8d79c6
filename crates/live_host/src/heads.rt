// The heads of the frames that are sent.
ghost use Rattle.std.specs.Prelude.{◌≡◌, IfOk, false, length};
ghost use Rattle.serde_json.specs.Data.{number as of_number, unsigned};
ghost use Rattle.serde_json.specs.Written.{has_float};
ghost use Rattle.live_host.specs.Heads.{base64_text, begin_head, verify_head, judge_head};
ghost use Rattle.live_host.specs.Heads.{item_head, pulled_head, refused_head, signature_head};

use base64::engine::general_purpose::STANDARD;
use cosign_parts::Evidence;
use json_tables::{Required, object};
use json_values::{Annotations, Blob, Json, Text};
use serde_json::Value;
use std::alloc::{AllocError, Global};

fn base64_text(alloc: Global, bytes: &[u8]) -> Result<Text, AllocError>
    ensures { IfOk result (λ text. text ≡ base64_text bytes.now) }
{
    let text = STANDARD.encode(alloc, bytes)?;
    Text::new(alloc, text.as_str())
}

fn count(number: usize) -> Json
    ensures { result ≡ of_number (unsigned number) }
{
    Json::new(Value::from(number as u64))
}

/// Returns the head of the first frame, `begin`.
pub fn begin_head(alloc: Global) -> Result<Json, AllocError>
    ensures head { IfOk result (λ head. head ≡ begin_head) }
    ensures plain { IfOk result (λ head. has_float head ≡ false) }
{
    let head = object!(alloc, { "frame": &"begin", "version": &1u8 })?;
    Ok(Json::new(head))
}

/// Returns the question whether this key makes the signature valid for the bytes after the line.
pub fn verify_head(
    alloc: Global,
    key: &Blob,
    signature: &Blob,
    message: &Blob,
) -> Result<Json, AllocError>
    ensures head { IfOk result (λ head. head ≡ verify_head key.now signature.now (length message.now)) }
    ensures plain { IfOk result (λ head. has_float head ≡ false) }
{
    let key = base64_text(alloc, key.as_slice())?;
    let signature = base64_text(alloc, signature.as_slice())?;
    let head = object!(alloc, {
        "frame": &"verify",
        "key": &key,
        "signature": &signature,
        "bytes": &count(message.as_slice().len()),
    })?;
    Ok(Json::new(head))
}

/// Returns the question what is vouched for a certificate at a time, in seconds since 1970.
pub fn judge_head(alloc: Global, evidence: &Evidence) -> Result<Json, AllocError>
    ensures head { IfOk result (λ head.
        head ≡ judge_head evidence.now.certificate evidence.now.integrated_time) }
    ensures plain { IfOk result (λ head. has_float head ≡ false) }
{
    let certificate = base64_text(alloc, evidence.certificate.as_slice())?;
    let head = object!(alloc, {
        "frame": &"judge",
        "certificate": &certificate,
        "integrated_time": &evidence.integrated_time,
    })?;
    Ok(Json::new(head))
}

/// Returns the line before bytes of an image.
pub fn item_head(
    alloc: Global,
    frame: &str,
    kind: &str,
    media_type: &Text,
    digest: &Text,
    bytes: &Blob,
) -> Result<Json, AllocError>
    ensures head { IfOk result (λ head.
        head ≡ item_head frame.now kind.now media_type.now digest.now (length bytes.now)) }
    ensures plain { IfOk result (λ head. has_float head ≡ false) }
{
    let head = object!(alloc, {
        "frame": &frame,
        "kind": &kind,
        "media_type": media_type,
        "digest": digest,
        "bytes": &count(bytes.as_slice().len()),
    })?;
    Ok(Json::new(head))
}

/// Returns the line before the content of a signature layer: its form, its digest and its annotations.
#[tactic(auto, using(crate::proofs::FramesOut::signature_plain))]
pub fn signature_head(
    alloc: Global,
    kind: &str,
    digest: &Text,
    annotations: &Annotations,
    content: &Blob,
) -> Result<Json, AllocError>
    ensures head { IfOk result (λ head.
        head ≡ signature_head kind.now digest.now annotations.now (length content.now)) }
    ensures plain { IfOk result (λ head. has_float head ≡ false) }
{
    let head = object!(alloc, {
        "frame": &"signature",
        "kind": &kind,
        "digest": digest,
        "annotations": &Required(annotations),
        "bytes": &count(content.as_slice().len()),
    })?;
    Ok(Json::new(head))
}

/// Returns the line that says that the image was pulled.
pub fn pulled_head(
    alloc: Global,
    digest: &Text,
    manifest: &Text,
    signature: &Text,
) -> Result<Json, AllocError>
    ensures head { IfOk result (λ head. head ≡ pulled_head digest.now manifest.now signature.now) }
    ensures plain { IfOk result (λ head. has_float head ≡ false) }
{
    let head = object!(alloc, {
        "frame": &"pulled",
        "digest": digest,
        "manifest": manifest,
        "signature": signature,
    })?;
    Ok(Json::new(head))
}

/// Returns the line that says why it was not.
pub fn refused_head(alloc: Global, report: &str) -> Result<Json, AllocError>
    ensures head { IfOk result (λ head. head ≡ refused_head report.now) }
    ensures plain { IfOk result (λ head. has_float head ≡ false) }
{
    let head = object!(alloc, { "frame": &"refused", "report": &report })?;
    Ok(Json::new(head))
}
