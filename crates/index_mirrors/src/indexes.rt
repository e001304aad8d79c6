// A copy of an index with all of its images.
ghost use Rattle.std.specs.Prelude.{◌≡◌, IfOk, map};
ghost use Rattle.std.specs.Option.{option_copied};
ghost use Rattle.oci_transport.specs.Link.{Link};
ghost use Rattle.registry_calls.specs.Direct.{reference_in};
ghost use Rattle.index_mirrors.specs.Courses.{stage, target_of};
ghost use Rattle.index_mirrors.specs.Indexes.{AreEntries, IndexEnds, Mirrored, digest_in, entries_in, entries_of};
ghost use Rattle.index_mirrors.specs.Indexes.{has_digest, index_refusal};
ghost use Rattle.index_mirrors.specs.Terms.{meaning_of, source_of};

use crate::entries::mirror_entries;
use crate::refusals::IndexRefusal;
use crate::terms::EntryTerms;
use cosign_chain::{VerifiedDocuments, document_in};
use cosign_parts::{Offline, SignatureVerifier};
use json_values::{Blob, Copied, List, Text};
use oci_engine::Client;
use oci_manifests::{ImageIndexEntry, OciManifest};
use oci_transport::Transport;
use pull_mirror::{CopyTarget, DocumentsRefusal, PushReport, push_documents};
use registry_calls::OciReference;
use std::alloc::{AllocError, Global};

fn digests_of(alloc: Global, entries: &[ImageIndexEntry]) -> Result<List<Text>, AllocError>
    ensures { IfOk result (λ digests. digests ≡ map digest_in entries.now) }
{
    let mut digests = List::new(alloc);
    for entry in entries {
        let digest = entry.digest.copy(alloc)?;
        digests.push(digest)?;
    }
    Ok(digests)
}

fn entries_of(alloc: Global, document: &OciManifest) -> Result<Option<List<Text>>, AllocError>
    ensures { IfOk result (λ entries. entries ≡ entries_of document.now) }
{
    match document {
        OciManifest::Image(_) => Ok(None),
        OciManifest::ImageIndex(index) => {
            let digests = digests_of(alloc, index.manifests.as_slice())?;
            Ok(Some(digests))
        }
    }
}

// The entries of the index that these bytes are, if they are one.
fn entries_in(alloc: Global, bytes: &Blob) -> Result<Option<List<Text>>, AllocError>
    ensures { IfOk result (λ entries. entries ≡ entries_in bytes.now) }
{
    let Some(document) = document_in(alloc, bytes)? else {
        return Ok(None);
    };
    let entries = entries_of(alloc, &document)?;
    Ok(entries)
}

fn has_digest(digest: Option<&str>, own: &Text) -> bool
    ensures { result ≡ has_digest (option_copied digest.entry) own.now }
{
    match digest {
        Some(digest) => digest == own.as_str(),
        None => false,
    }
}

// The entries of the index that was signed, if the reference has its digest.
fn index_entries(
    alloc: Global,
    index: &OciReference,
    documents: &VerifiedDocuments,
) -> Result<Option<List<Text>>, AllocError>
    ensures { IfOk result (AreEntries (reference_in index.now) documents.now) }
{
    if !has_digest(index.reference().digest(), &documents.digest) {
        return Ok(None);
    }
    let entries = entries_in(alloc, &documents.first)?;
    Ok(entries)
}

fn index_refusal(refusal: DocumentsRefusal) -> IndexRefusal
    ensures { result ≡ index_refusal refusal }
{
    match refusal {
        DocumentsRefusal::Missing { digest } => {
            IndexRefusal::Index(DocumentsRefusal::Missing { digest })
        }
        DocumentsRefusal::Refused { digest, error } => {
            IndexRefusal::Index(DocumentsRefusal::Refused { digest, error })
        }
        DocumentsRefusal::WantOfMemory => IndexRefusal::WantOfMemory,
    }
}

// Pushes the index and its signature.
fn push_index<B: Transport>(
    alloc: Global,
    client: &mut Client,
    transport: &mut B,
    moment: u64,
    to: &CopyTarget,
    documents: &VerifiedDocuments,
) -> Result<PushReport, IndexRefusal>
    ensures ends { (source : Link) → IndexEnds (target_of client.old moment to.now) to.now.tag documents.now
        (stage source (B.state transport.old) client.old) (stage source (B.state transport.new) client.new) result }
    ensures settings { client.new.settings ≡ client.old.settings }
{
    match push_documents(alloc, client, transport, moment, to, documents) {
        Ok(report) => Ok(report),
        Err(refusal) => Err(index_refusal(refusal)),
    }
}

/// Copies an index with all of its images, after its documents were verified (`Client::verified_documents`): the image
/// of each entry, in order, is pulled by the index's digest as `Client::verified_pull` does, by a new client that selects
/// this entry; its blobs and its manifest are pushed as `push_entry` does; and it is dropped before the next. Then the
/// index is pushed with its signature, as `push_documents` does: so the index is
/// pushed only after each of its images was. Of the images one is held at a time.
///
/// Returns `NotIndex` if the document that was signed is not an index, or if the reference does not have its digest,
/// without a request; `Pull` with the first entry that was not pulled; `Other` with one whose image is not the entry's;
/// `Push` with one that was not pushed; `Index` if the index was not pushed. Nothing was sent after a refusal.
pub fn mirror_index<'a, A: Transport, B: Transport, V: SignatureVerifier, O: Offline>(
    alloc: Global,
    transport: &mut A,
    terms: &EntryTerms<'a, V, O>,
    client: &mut Client,
    target_transport: &mut B,
    to: &CopyTarget,
    documents: &VerifiedDocuments,
) -> Result<PushReport, IndexRefusal>
    ensures course { Mirrored (meaning_of V.valid O.vouched (λ b. accepts (b.vtable, b.value)) terms.now)
        (source_of terms.now) (target_of client.old terms.now.moment to.now) to.now.tag documents.now
        (stage (A.state transport.old) (B.state target_transport.old) client.old)
        (stage (A.state transport.new) (B.state target_transport.new) client.new) result }
    ensures settings { client.new.settings ≡ client.old.settings }
{
    let Some(entries) = index_entries(alloc, &terms.index, documents)? else {
        return Err(IndexRefusal::NotIndex);
    };
    let entries = entries.as_slice();
    mirror_entries(
        alloc,
        transport,
        terms,
        client,
        target_transport,
        to,
        entries,
    )?;
    push_index(alloc, client, target_transport, terms.moment, to, documents)
}
