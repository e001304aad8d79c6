// Questions to the host, and its answers.
ghost use Rattle.std.specs.Prelude.{◌≡◌, All, IfOk, IfErr, OnOk, length, []};
ghost use Rattle.serde_json.specs.View.{view};
ghost use Rattle.json_tables.specs.Outcomes.{ReadsTo};
ghost use Rattle.cosign_parts.specs.LogEntry.{log_text};
ghost use Rattle.live_host.specs.Heads.{verify_head, judge_head};
ghost use Rattle.live_host.specs.Questions.{verified_of, vouched_of, answer_of, AsksMore, WereAsked};
ghost use Rattle.live_host.specs.Questions.{evidence_at, CertificateAsked, KeyAsked, LayerAsked, LogAsked};
ghost use Rattle.live_host.specs.HostErrors.{AskCause, AsksCause, about_certificate, about_key};
ghost use Rattle.live_host.specs.Wire.{wire, SendsAndReceives};

use crate::answers::{Answers, CertificateAnswer, HostAnswer, SignatureAnswer};
use crate::heads::{judge_head, verify_head};
use crate::names::is_frame;
use crate::streams::{HostError, Streams, hear, tell};
use byte_streams::{Sink, Source};
use cosign_parts::{
    Evidence, LogEntryBundle, LogKeys, SignatureLayer, Vouched, log_text, signed_text,
};
use json_tables::{ReadError, decode_base64, only, optional, required, required_base64};
use json_values::{Blob, Copied, List, Text};
use serde_json::Value;
use std::alloc::{AllocError, Global};

// The frame `verified`.
#[tactic(auto, unfolding(crate::specs::Questions::verified_of))]
fn read_verified(alloc: Global, value: &Value) -> Result<bool, ReadError>
    ensures { ReadsTo result (verified_of (view value.now)) }
{
    only(value, &["frame", "valid"])?;
    if !is_frame(value, "verified") {
        return Err(ReadError::Shape);
    }
    required(alloc, value, "valid")
}

// What is vouched for a certificate.
#[tactic(auto, unfolding(crate::specs::Questions::vouched_of))]
fn read_vouched(alloc: Global, value: &Value) -> Result<Vouched, ReadError>
    ensures { ReadsTo result (vouched_of (view value.now)) }
{
    only(value, &["key", "email", "url", "issuer"])?;
    let key = required_base64(alloc, value, "key")?;
    let email: Option<Text> = optional(alloc, value, "email")?;
    let url: Option<Text> = optional(alloc, value, "url")?;
    let issuer: Option<Text> = optional(alloc, value, "issuer")?;
    Ok(Vouched {
        key,
        email,
        url,
        issuer,
    })
}

// The frame `vouched`.
#[tactic(auto, unfolding(crate::specs::Questions::answer_of))]
fn read_answer(alloc: Global, value: &Value) -> Result<Option<Vouched>, ReadError>
    ensures { ReadsTo result (answer_of (view value.now)) }
{
    only(value, &["frame", "vouched"])?;
    if !is_frame(value, "vouched") {
        return Err(ReadError::Shape);
    }
    match value.get("vouched") {
        None | Some(Value::Null) => Ok(None),
        Some(vouched) => Ok(Some(read_vouched(alloc, vouched)?)),
    }
}

// Asks whether a key makes a signature of a message valid.
fn ask_signature<S: Source, K: Sink>(
    alloc: Global,
    streams: &mut Streams<S, K>,
    key: &Blob,
    message: &Blob,
    signature: &Blob,
) -> Result<bool, HostError>
    ensures asked { IfOk result
        (λ valid. SendsAndReceives (verify_head key.now signature.now (length message.now)) message.now
        verified_of valid (wire S.state K.state streams.old) (wire S.state K.state streams.new)) }
    ensures cause { IfErr result (λ e. AskCause (about_key key.now message.now signature.now) e
        (wire S.state K.state streams.old) (wire S.state K.state streams.new)) }
{
    let head = verify_head(alloc, key, signature, message)?;
    tell(alloc, streams, &head, message.as_slice())?;
    let answer = hear(alloc, streams)?;
    let valid = read_verified(alloc, answer.value())?;
    Ok(valid)
}

// Asks what is vouched for a certificate.
fn ask_certificate<S: Source, K: Sink>(
    alloc: Global,
    streams: &mut Streams<S, K>,
    evidence: &Evidence,
) -> Result<Option<Vouched>, HostError>
    ensures asked { IfOk result (λ vouched. SendsAndReceives
        (judge_head evidence.now.certificate evidence.now.integrated_time) [] answer_of vouched
        (wire S.state K.state streams.old) (wire S.state K.state streams.new)) }
    ensures cause { IfErr result (λ e. AskCause (about_certificate evidence.now) e
        (wire S.state K.state streams.old) (wire S.state K.state streams.new)) }
{
    let head = judge_head(alloc, evidence)?;
    tell(alloc, streams, &head, &[])?;
    let answer = hear(alloc, streams)?;
    let vouched = read_answer(alloc, answer.value())?;
    Ok(vouched)
}

// A question about a signature, with its answer.
fn signature_answer(
    alloc: Global,
    key: &Blob,
    message: &Blob,
    signature: &Blob,
    valid: bool,
) -> Result<HostAnswer, AllocError>
    ensures { IfOk result (λ answer. answer ≡ HostAnswer.Signature (record {
      key = key.now;
      message = message.now;
      signature = signature.now;
      valid = valid;
    })) }
{
    let key = key.copy(alloc)?;
    let message = message.copy(alloc)?;
    let signature = signature.copy(alloc)?;
    Ok(HostAnswer::Signature(SignatureAnswer {
        key,
        message,
        signature,
        valid,
    }))
}

// A question about a certificate, with its answer.
fn certificate_answer(
    alloc: Global,
    evidence: &Evidence,
    vouched: &Option<Vouched>,
) -> Result<HostAnswer, AllocError>
    ensures { IfOk result (λ answer.
        answer ≡ HostAnswer.Certificate (record { evidence = evidence.now; vouched = vouched.now })) }
{
    let evidence = evidence.copy(alloc)?;
    let vouched = vouched.copy(alloc)?;
    Ok(HostAnswer::Certificate(CertificateAnswer { evidence, vouched }))
}

// Asks about one signature, and records the answer.
fn ask_key<S: Source, K: Sink>(
    alloc: Global,
    streams: &mut Streams<S, K>,
    key: &Blob,
    message: &Blob,
    signature: &Blob,
    answers: &mut List<HostAnswer>,
) -> Result<(), HostError>
    ensures asked { OnOk result (AsksMore answers.old answers.new
        (wire S.state K.state streams.old) (wire S.state K.state streams.new)) }
    ensures about { OnOk result (KeyAsked answers.new message.now signature.now key.now) }
    ensures cause { IfErr result (λ e. AsksCause e
        (wire S.state K.state streams.old) (wire S.state K.state streams.new)) }
{
    let valid = ask_signature(alloc, streams, key, message, signature)?;
    let answer = signature_answer(alloc, key, message, signature, valid)?;
    answers.push(answer)?;
    Ok(())
}

// Asks about one signature under each of these keys.
fn ask_keys<S: Source, K: Sink>(
    alloc: Global,
    streams: &mut Streams<S, K>,
    keys: &[Blob],
    message: &Blob,
    signature: &Blob,
    answers: &mut List<HostAnswer>,
) -> Result<(), HostError>
    ensures asked { OnOk result
        (AsksMore answers.old answers.new (wire S.state K.state streams.old) (wire S.state K.state streams.new)) }
    ensures about { OnOk result (All (KeyAsked answers.new message.now signature.now) keys.now) }
    ensures cause { IfErr result (λ e. AsksCause e
        (wire S.state K.state streams.old) (wire S.state K.state streams.new)) }
{
    for key in keys {
        ask_key(alloc, streams, key, message, signature, answers)?;
    }
    Ok(())
}

// Asks about a certificate at the time of its log entry, and about the signature under the key vouched for it.
fn ask_vouched<S: Source, K: Sink>(
    alloc: Global,
    streams: &mut Streams<S, K>,
    evidence: &Evidence,
    message: &Blob,
    signature: &Blob,
    answers: &mut List<HostAnswer>,
) -> Result<(), HostError>
    ensures asked { OnOk result
        (AsksMore answers.old answers.new (wire S.state K.state streams.old) (wire S.state K.state streams.new)) }
    ensures about { OnOk result (CertificateAsked answers.new message.now signature.now evidence.now) }
    ensures cause { IfErr result (λ e. AsksCause e
        (wire S.state K.state streams.old) (wire S.state K.state streams.new)) }
{
    let vouched = ask_certificate(alloc, streams, evidence)?;
    let answer = certificate_answer(alloc, evidence, &vouched)?;
    answers.push(answer)?;
    let Some(vouched) = vouched else {
        return Ok(());
    };
    ask_key(alloc, streams, &vouched.key, message, signature, answers)?;
    Ok(())
}

// Asks whether the log signed the layer's entry, if it has one and the log's key is known.
fn ask_log<S: Source, K: Sink>(
    alloc: Global,
    streams: &mut Streams<S, K>,
    log_keys: &LogKeys,
    layer: &SignatureLayer,
    answers: &mut List<HostAnswer>,
) -> Result<(), HostError>
    ensures asked { OnOk result (AsksMore answers.old answers.new
        (wire S.state K.state streams.old) (wire S.state K.state streams.new)) }
    ensures about { OnOk result (LogAsked answers.new log_keys.now layer.now.bundle) }
    ensures cause { IfErr result (λ e. AsksCause e
        (wire S.state K.state streams.old) (wire S.state K.state streams.new)) }
{
    let Some(entry) = &layer.bundle else {
        return Ok(());
    };
    let Some(key) = log_keys.get(entry.log_id.as_str()) else {
        return Ok(());
    };
    let message = log_message(alloc, entry)?;
    ask_key(
        alloc,
        streams,
        key,
        &message,
        &entry.signed_entry_timestamp,
        answers,
    )?;
    Ok(())
}

fn log_message(alloc: Global, entry: &LogEntryBundle) -> Result<Blob, AllocError>
    ensures { IfOk result (λ message. message ≡ log_text entry.now) }
{
    let text = log_text(alloc, entry)?;
    Blob::new(alloc, text.as_str().as_bytes())
}

// A layer's certificate at the time of its log entry.
fn evidence_of(alloc: Global, layer: &SignatureLayer) -> Result<Option<Evidence>, AllocError>
    ensures { IfOk result (λ found. found ≡ evidence_at layer.now.bundle layer.now.certificate_signature) }
{
    let Some(entry) = &layer.bundle else {
        return Ok(None);
    };
    let Some(certificate) = &layer.certificate_signature else {
        return Ok(None);
    };
    let certificate = certificate.certificate.copy(alloc)?;
    Ok(Some(Evidence {
        certificate,
        integrated_time: entry.integrated_time,
    }))
}

// Asks about a layer: whether its log signed its entry, what is vouched for its
// certificate, and whether its signature is valid under the certificate's key, or else under which policy keys.
fn ask_layer<S: Source, K: Sink>(
    alloc: Global,
    streams: &mut Streams<S, K>,
    keys: &[Blob],
    log_keys: &LogKeys,
    layer: &SignatureLayer,
    answers: &mut List<HostAnswer>,
) -> Result<(), HostError>
    ensures asked { OnOk result (AsksMore answers.old answers.new
        (wire S.state K.state streams.old) (wire S.state K.state streams.new)) }
    ensures about { OnOk result (LayerAsked answers.new keys.now log_keys.now layer.now) }
    ensures cause { IfErr result (λ e. AsksCause e
        (wire S.state K.state streams.old) (wire S.state K.state streams.new)) }
{
    let Some(signature) = decode_base64(alloc, layer.signature.as_str())? else {
        return Ok(());
    };
    let message = signed_text(alloc, layer)?;
    let evidence = evidence_of(alloc, layer)?;
    ask_log(alloc, streams, log_keys, layer, answers)?;
    let Some(evidence) = evidence else {
        ask_keys(alloc, streams, keys, &message, &signature, answers)?;
        return Ok(());
    };
    ask_vouched(alloc, streams, &evidence, &message, &signature, answers)?;
    Ok(())
}

/// Asks the host about these layers: whether the log of each signed its entry, what is vouched for its certificate, and
/// under which keys its signature is valid. Returns the answers, each to a question that was sent.
pub fn ask_layers<S: Source, K: Sink>(
    alloc: Global,
    streams: &mut Streams<S, K>,
    keys: &[Blob],
    log_keys: &LogKeys,
    layers: &[SignatureLayer],
) -> Result<Answers, HostError>
    ensures asked { IfOk result (λ answers. WereAsked answers.list (wire S.state K.state streams.old)
        (wire S.state K.state streams.new)) }
    ensures about { IfOk result (λ answers. All (LayerAsked answers.list keys.now log_keys.now) layers.now) }
    ensures cause { IfErr result (λ e. AsksCause e
        (wire S.state K.state streams.old) (wire S.state K.state streams.new)) }
{
    let mut list = List::new(alloc);
    for layer in layers {
        ask_layer(alloc, streams, keys, log_keys, layer, &mut list)?;
    }
    Ok(Answers { list })
}
