// What is asked and pushed for documents, planned before the first request.
ghost use Rattle.std.specs.Prelude.{◌≡◌, IfOk, OnOk};
ghost use Rattle.std.specs.Option.{option_copied};
ghost use Rattle.pull_mirror.specs.DocumentPlans.{AddsDigest, AreAsked, IsDocumentPlan, parts_planned};
ghost use Rattle.pull_mirror.specs.DocumentPushes.{blobs_named, layer_digests, manifest_parts};
ghost use Rattle.pull_mirror.specs.DocumentPushes.{parts_of, tagged_parts};
ghost use Rattle.pull_mirror.specs.Plans.{pushes_of};
ghost use Rattle.pull_mirror.specs.Signatures.{signature_text};

use crate::planning::{Planned, add_entry, bytes_pushes, manifest_push, signature_push, tag_push};
use cosign_chain::VerifiedDocuments;
use json_values::{Blob, Copied, List, Text, TextSet};
use oci_manifests::{OciDescriptor, OciImageManifest};
use oci_names::Reference;
use std::alloc::{AllocError, Global};

// The requested digests, also as a set.
#[derive(Drop)]
struct AskedBlobs {
    digests: List<Text>,
    seen: TextSet,
}

/// The pushes of documents: those before a document, in order, the document whose URL is returned, and those after it.
#[derive(Drop)]
pub(crate) struct PartsPlan<'a> {
    pub first: List<Planned<'a>>,
    pub document: Planned<'a>,
    pub after: List<Planned<'a>>,
}

/// The digests about which the target is asked, and the pushes.
#[derive(Drop)]
pub(crate) struct DocumentPlan<'a> {
    pub asked: List<Text>,
    pub parts: PartsPlan<'a>,
}

// Plans the question about a digest, unless it was planned before.
fn add_digest(alloc: Global, asked: &mut AskedBlobs, digest: &Text) -> Result<(), AllocError>
    ensures { OnOk result (AddsDigest digest.now asked.old asked.new) }
{
    if asked.seen.contains(digest.as_str()) {
        return Ok(());
    }
    let name = digest.copy(alloc)?;
    let digest = digest.copy(alloc)?;
    asked.seen.insert(name)?;
    asked.digests.push(digest)?;
    Ok(())
}

fn ask_layers(alloc: Global, layers: &[OciDescriptor]) -> Result<AskedBlobs, AllocError>
    ensures { IfOk result (AreAsked (layer_digests layers.now)) }
{
    let mut asked = AskedBlobs {
        digests: List::new(alloc),
        seen: TextSet::new(alloc),
    };
    for layer in layers {
        add_digest(alloc, &mut asked, &layer.digest)?;
    }
    Ok(asked)
}

// Plans the questions about the blobs of a manifest, each once.
fn ask_blobs(alloc: Global, manifest: &OciImageManifest) -> Result<List<Text>, AllocError>
    ensures { IfOk result (λ digests. digests ≡ blobs_named manifest.now) }
{
    let mut asked = ask_layers(alloc, manifest.layers.as_slice())?;
    add_digest(alloc, &mut asked, &manifest.config.digest)?;
    Ok(asked.digests)
}

fn tagged_plan<'a>(
    alloc: Global,
    target: &Reference,
    found: &'a VerifiedDocuments,
    text: &'a Blob,
) -> Result<PartsPlan<'a>, AllocError>
    ensures { text.now ≡ signature_text found.now.signature found.now.digest found.now.first
        → IfOk result (λ plan. parts_planned plan ≡ tagged_parts found.now target.now) }
{
    let mut first = bytes_pushes(alloc, found.signature.content.as_slice(), b"{}")?;
    let led = &found.list_digest;
    let manifest = &found.manifest_bytes;
    add_entry(
        alloc,
        &mut first,
        target,
        led,
        &found.manifest_digest,
        manifest,
    )?;
    let document = tag_push(alloc, target, &found.digest, &found.first)?;
    let kind = found.signature.kind;
    let signature = signature_push(alloc, target, kind, &found.digest, text.as_slice())?;
    let mut after = List::new(alloc);
    after.push(signature)?;
    Ok(PartsPlan {
        first,
        document,
        after,
    })
}

fn manifest_plan<'a>(
    alloc: Global,
    target: &Reference,
    found: &'a VerifiedDocuments,
) -> Result<PartsPlan<'a>, AllocError>
    ensures { IfOk result (λ plan. parts_planned plan ≡ manifest_parts found.now target.now) }
{
    let manifest = &found.manifest_bytes;
    let document = manifest_push(alloc, target, &found.manifest_digest, manifest)?;
    Ok(PartsPlan {
        first: List::new(alloc),
        document,
        after: List::new(alloc),
    })
}

// Plans the pushes of documents whose signature's manifest has this text, or of the manifest alone.
fn parts_plan<'a>(
    alloc: Global,
    target: &Reference,
    found: &'a VerifiedDocuments,
    text: &'a Blob,
    tag: bool,
) -> Result<PartsPlan<'a>, AllocError>
    ensures { text.now ≡ signature_text found.now.signature found.now.digest found.now.first
        → IfOk result (λ plan. parts_planned plan ≡ parts_of tag found.now target.now) }
{
    if tag {
        return tagged_plan(alloc, target, found, text);
    }
    manifest_plan(alloc, target, found)
}

/// Plans what is asked and pushed for documents whose signature's manifest has this text, with the tag or without.
pub(crate) fn plan_documents<'a>(
    alloc: Global,
    target: &Reference,
    found: &'a VerifiedDocuments,
    text: &'a Blob,
    tag: bool,
) -> Result<DocumentPlan<'a>, AllocError>
    ensures { text.now ≡ signature_text found.now.signature found.now.digest found.now.first
        → IfOk result (IsDocumentPlan tag found.now target.now) }
{
    let asked = ask_blobs(alloc, &found.manifest)?;
    let parts = parts_plan(alloc, target, found, text, tag)?;
    Ok(DocumentPlan { asked, parts })
}
