// The entry of an image, and of its documents alone.
ghost use Rattle.std.specs.Prelude.{◌≡◌, IfOk};
ghost use Rattle.oci_names.specs.Reference.{whole_text};
ghost use Rattle.pull_lock.specs.Entries.{GivesText, entry_by, GivesTexts};
ghost use Rattle.pull_lock.specs.Locked.{ChainsAreLocked, entry_with, is_text, NotTextOnly};
ghost use Rattle.pull_lock.specs.LockedDocuments.{are_text, documents_entry, DocumentsAreLocked};

use crate::error::LockError;
use crate::lock::{LockEntry, LockedSignature};
use cosign_chain::{VerifiedDocuments, VerifiedImage};
use cosign_layers::PullPolicy;
use cosign_parts::SignatureLayer;
use json_values::{Blob, Copied, List, Text, copy_all, row};
use oci_names::Reference;
use std::alloc::{AllocError, Global};

// The text that the bytes are; `NotText` if they are not UTF-8.
fn text_in(alloc: Global, bytes: &Blob) -> Result<Text, LockError>
    ensures { GivesText bytes.now result }
{
    match std::str::from_utf8(bytes.as_slice()) {
        Ok(text) => Ok(Text::new(alloc, text)?),
        Err(_) => Err(LockError::NotText),
    }
}

// The documents of an image and its signature layer, as texts.
#[derive(Drop)]
struct Texts {
    first: Text,
    manifest: Text,
    content: Text,
}

fn texts_of(
    alloc: Global,
    first: &Blob,
    manifest: &Blob,
    content: &Blob,
) -> Result<Texts, LockError>
    ensures { GivesTexts first.now manifest.now content.now result }
{
    let first = text_in(alloc, first)?;
    let manifest = text_in(alloc, manifest)?;
    let content = text_in(alloc, content)?;
    Ok(Texts {
        first,
        manifest,
        content,
    })
}

fn copied_list(alloc: Global, texts: &[Text]) -> Result<List<Text>, AllocError>
    ensures { IfOk result (λ list. list ≡ texts.now) }
{
    let mut copies = List::new(alloc);
    for text in texts {
        copies.push(text.copy(alloc)?)?;
    }
    Ok(copies)
}

// The entry with these digests, this signature layer, and these texts.
fn entry_by(
    alloc: Global,
    image: &Reference,
    accepted: &[Text],
    digest: &Text,
    manifest_digest: &Text,
    layer: &SignatureLayer,
    texts: Texts,
) -> Result<LockEntry, AllocError>
    ensures { IfOk result (λ e. e ≡ entry_by (whole_text image.now) accepted.now digest.now manifest_digest.now
        layer.now texts) }
{
    let image = image.whole(alloc)?;
    let accepted = copied_list(alloc, accepted)?;
    let row![digest, manifest_digest, kind, oci_digest, annotations] = copy_all(
        alloc,
        row![
            digest,
            manifest_digest,
            &layer.kind,
            &layer.oci_digest,
            &layer.annotations
        ],
    )?;
    Ok(LockEntry {
        image,
        accepted,
        digest,
        first: texts.first,
        manifest_digest,
        manifest: texts.manifest,
        signature: LockedSignature {
            kind,
            oci_digest,
            content: texts.content,
            annotations,
        },
    })
}

/// Returns the entry of an image that was pulled by this reference, with these accepted media types of layers. If its
/// chain holds and the reference reads back, the entry is `Locked` (`chains_are_locked`).
///
/// Returns `NotText` if and only if a document of the image, or its signature layer, is not UTF-8, and `WantOfMemory`
/// if memory runs out.
pub fn lock_entry(
    alloc: Global,
    image: &Reference,
    accepted: &[Text],
    found: &VerifiedImage,
) -> Result<LockEntry, LockError>
    ensures entry { IfOk result (λ e. e ≡ entry_with (whole_text image.now) accepted.now found.now) }
    ensures not_text { NotTextOnly (is_text found.now) result }
{
    let layer = &found.signature;
    let texts = texts_of(alloc, &found.first, &found.manifest_bytes, &layer.content)?;
    let (digest, manifest) = (&found.digest, &found.manifest_digest);
    let entry = entry_by(alloc, image, accepted, digest, manifest, layer, texts)?;
    Ok(entry)
}

/// Returns the entry of the documents of an image that were pulled by this reference, with these accepted media types of
/// layers. If the documents hold, the reference reads back, and the manifest has layers, each of an accepted type, the
/// entry is `Locked` (`documents_are_locked`). No blob of the image is needed.
///
/// Returns `NotText` if and only if a document, or the signature layer, is not UTF-8, and `WantOfMemory` if memory runs
/// out.
pub fn lock_documents(
    alloc: Global,
    image: &Reference,
    accepted: &[Text],
    documents: &VerifiedDocuments,
) -> Result<LockEntry, LockError>
    ensures entry { IfOk result (λ e. e ≡ documents_entry (whole_text image.now) accepted.now documents.now) }
    ensures not_text { NotTextOnly (are_text documents.now) result }
{
    let layer = &documents.signature;
    let texts = texts_of(
        alloc,
        &documents.first,
        &documents.manifest_bytes,
        &layer.content,
    )?;
    let (digest, manifest) = (&documents.digest, &documents.manifest_digest);
    let entry = entry_by(alloc, image, accepted, digest, manifest, layer, texts)?;
    Ok(entry)
}

/// A law, as the contract of a function without effect: the entry of an image whose chain holds under the policy, by a
/// reference that reads back, is locked, whatever is trusted and promised.
pub fn chains_are_locked(policy: &PullPolicy)
    ensures { ChainsAreLocked policy.now }
{}

/// A law, as the contract of a function without effect: the entry of documents that hold under the policy, by a reference
/// that reads back, is locked if the manifest has layers, each of an accepted type, whatever is trusted and promised.
pub fn documents_are_locked(policy: &PullPolicy)
    ensures { DocumentsAreLocked policy.now }
{}
