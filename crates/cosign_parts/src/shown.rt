//! Finds the parts of a layer in its content and annotations, before any signature is verified.
ghost use Rattle.std.specs.Prelude.{◌≡◌, IfOk, codes};
ghost use Rattle.std.specs.FinMap.{get};
ghost use Rattle.std.specs.List.{list_any};
ghost use Rattle.cosign_parts.specs.Bundle.{has_digest, read_or_not};
ghost use Rattle.cosign_parts.specs.LogEntry.{annotated_entry};
ghost use Rattle.cosign_parts.specs.Shown.{is_about, noted_certificate, noted_entry, payload_shown, shown};
ghost use Rattle.cosign_parts.specs.Shown.{shown_in_bundle, shown_with};

use crate::bundle::{BundleParts, read_parts, read_subjects};
use crate::layer::{LayerKind, SimpleSigning};
use crate::log_entry::{LogEntryBundle, annotated_entry};
use crate::payload::read_payload;
use json_values::{Annotations, Blob, Copied, List, Text};
use oci_digests::Digest;
use std::alloc::{AllocError, Global};

/// What is found of a part that may be absent.
#[derive(Drop)]
pub enum Found<T> {
    Absent,
    Unreadable,
    Read(T),
}

/// A subject of an in-toto statement.
#[derive(Drop)]
pub struct Subject {
    /// The digits, by algorithm.
    pub digest: Annotations,
}

/// What is found in a layer.
#[derive(Drop)]
pub struct Shown {
    /// The contents of a payload; `None` for a bundle.
    pub signing: Option<SimpleSigning>,
    /// The subjects of a bundle's statement; empty for a payload.
    pub subjects: List<Subject>,
    pub signature: Option<Text>,
    pub log_entry: Found<LogEntryBundle>,
    pub certificate: Found<Blob>,
}

/// Returns what is found in a layer, if its content has the form of its kind.
pub fn show(
    alloc: Global,
    kind: LayerKind,
    content: &[u8],
    annotations: &Annotations,
) -> Result<Option<Shown>, AllocError>
    ensures { IfOk result (λ found. found ≡ shown kind content.now annotations.now) }
{
    match kind {
        LayerKind::Payload => {
            let found = show_payload(alloc, content, annotations)?;
            Ok(found)
        }
        LayerKind::Bundle => {
            let found = show_bundle(alloc, content)?;
            Ok(found)
        }
    }
}

#[tactic(auto, using(crate::proofs::Shows::payload_is, crate::proofs::Shows::no_payload))]
fn show_payload(
    alloc: Global,
    content: &[u8],
    annotations: &Annotations,
) -> Result<Option<Shown>, AllocError>
    ensures { IfOk result (λ found. found ≡ shown LayerKind.Payload content.now annotations.now) }
{
    let Some(signing) = read_payload(alloc, content)? else {
        return Ok(None);
    };
    let shown = payload_shown(alloc, signing, annotations)?;
    Ok(Some(shown))
}

fn payload_shown(
    alloc: Global,
    signing: SimpleSigning,
    annotations: &Annotations,
) -> Result<Shown, AllocError>
    ensures { IfOk result (λ found. found ≡ payload_shown annotations.now signing) }
{
    let log_entry = noted_entry(alloc, annotations)?;
    let certificate = noted_certificate(alloc, annotations)?;
    let signature = noted_signature(alloc, annotations)?;
    Ok(Shown {
        signing: Some(signing),
        subjects: List::new(alloc),
        signature,
        log_entry,
        certificate,
    })
}

// Returns the signature in the annotations of a payload.
fn noted_signature(alloc: Global, annotations: &Annotations) -> Result<Option<Text>, AllocError>
    ensures { IfOk result (λ found. found ≡ get annotations.now (codes "dev.cosignproject.cosign/signature")) }
{
    match annotations.get("dev.cosignproject.cosign/signature") {
        None => Ok(None),
        Some(text) => Ok(Some(text.copy(alloc)?)),
    }
}

// Returns the log entry in the annotations of a payload.
fn noted_entry(
    alloc: Global,
    annotations: &Annotations,
) -> Result<Found<LogEntryBundle>, AllocError>
    ensures { IfOk result (λ found. found ≡ noted_entry
        (get annotations.now (codes "dev.sigstore.cosign/bundle"))) }
{
    match annotations.get("dev.sigstore.cosign/bundle") {
        None => Ok(Found::Absent),
        Some(text) => {
            let found = read_entry(alloc, text.as_str())?;
            Ok(found)
        }
    }
}

fn read_entry(alloc: Global, text: &str) -> Result<Found<LogEntryBundle>, AllocError>
    ensures { IfOk result (λ found. found ≡ read_or_not (annotated_entry text.now)) }
{
    match annotated_entry(alloc, text)? {
        None => Ok(Found::Unreadable),
        Some(entry) => Ok(Found::Read(entry)),
    }
}

// Returns the certificate in the annotations of a payload.
fn noted_certificate(alloc: Global, annotations: &Annotations) -> Result<Found<Blob>, AllocError>
    ensures { IfOk result (λ found. found ≡ noted_certificate
        (get annotations.now (codes "dev.sigstore.cosign/certificate"))) }
{
    match annotations.get("dev.sigstore.cosign/certificate") {
        None => Ok(Found::Absent),
        Some(text) => Ok(Found::Read(Blob::new(alloc, text.as_str().as_bytes())?)),
    }
}

// The bundle's document is let go before its statement is parsed.
#[tactic(auto, using(crate::proofs::Shows::bundle, crate::proofs::Shows::no_bundle, crate::proofs::Shows::no_subject))]
fn show_bundle(alloc: Global, content: &[u8]) -> Result<Option<Shown>, AllocError>
    ensures { IfOk result (λ found. found ≡ shown_in_bundle content.now) }
{
    let Some(parts) = read_parts(alloc, content)? else {
        return Ok(None);
    };
    let Some(subjects) = read_subjects(alloc, parts.payload.as_slice())? else {
        return Ok(None);
    };
    Ok(Some(shown_with(parts, subjects)))
}

fn shown_with(parts: BundleParts, subjects: List<Subject>) -> Shown
    ensures { result ≡ shown_with parts subjects }
{
    let BundleParts {
        payload: _,
        signature,
        log_entry,
        certificate,
    } = parts;
    Shown {
        signing: None,
        subjects,
        signature,
        log_entry,
        certificate,
    }
}

/// Returns whether the layer with these findings is about the image of this digest.
pub fn is_about(shown: &Shown, source_digest: &str) -> bool
    ensures { result ≡ is_about source_digest.now shown.now }
{
    match &shown.signing {
        Some(signing) => signing.docker_manifest_digest.as_str() == source_digest,
        None => some_has(shown.subjects.as_slice(), source_digest),
    }
}

fn some_has(subjects: &[Subject], digest: &str) -> bool
    ensures { result ≡ list_any (has_digest digest.now) subjects.now }
{
    subjects.iter().any(|subject| has_digest(subject, digest))
}

fn has_digest(subject: &Subject, digest: &str) -> bool
    ensures { result ≡ has_digest digest.now subject.now }
{
    let Ok(parts) = Digest::new(digest) else {
        return false;
    };
    match subject.digest.get(parts.algorithm) {
        None => false,
        Some(digits) => digits.as_str() == parts.digest,
    }
}
