// What is pushed for an image, planned before the first request.
ghost use Rattle.std.specs.Prelude.{◌≡◌, [], ◌∷◌, ◌++◌, IfOk, OnOk, codes};
ghost use Rattle.std.specs.Option.{option_copied};
ghost use Rattle.pull_mirror.specs.EntryPushes.{entry_pushes};
ghost use Rattle.pull_mirror.specs.Plans.{AddsBlob, Holds, IsPlan, push_of, pushes_of};
ghost use Rattle.pull_mirror.specs.Pushes.{Push, blobs_of, layer_blobs, without_repeats, sha256_blob};
ghost use Rattle.pull_mirror.specs.Pushes.{entry_by, manifest_push, signature_place, signature_push, tag_push};
ghost use Rattle.pull_mirror.specs.Signatures.{signature_text};

use crate::signatures::document_type;
use cosign_chain::VerifiedImage;
use cosign_parts::LayerKind;
use cosign_rows::{digest_reference, tag_reference};
use json_values::{Blob, Copied, List, Text, TextSet};
use oci_digests::sha256_digest;
use oci_manifests::{ImageLayer, OCI_IMAGE_MEDIA_TYPE, OciDescriptor};
use oci_names::Reference;
use std::alloc::{AllocError, Global};

/// One push: a blob, or a document under a reference in the target's repository.
#[derive(Drop)]
pub(crate) enum Planned<'a> {
    Blob {
        digest: Text,
        bytes: &'a [u8],
    },
    Manifest {
        reference: Reference,
        digest: Text,
        bytes: &'a [u8],
        content_type: Text,
    },
}

/// The pushes of an image: those before the document that was signed, in order, that document, and its signature.
#[derive(Drop)]
pub(crate) struct Plan<'a> {
    pub first: List<Planned<'a>>,
    pub document: Planned<'a>,
    pub signature: Planned<'a>,
}

// The blobs that are planned, and their digests.
#[derive(Drop)]
struct Blobs<'a> {
    pushes: List<Planned<'a>>,
    seen: TextSet,
}

// Plans a blob, unless one of its digest was planned before.
fn add_blob<'a>(
    alloc: Global,
    blobs: &mut Blobs<'a>,
    digest: &Text,
    bytes: &'a [u8],
) -> Result<(), AllocError>
    ensures { OnOk result (AddsBlob digest.now bytes.now blobs.old blobs.new) }
{
    if blobs.seen.contains(digest.as_str()) {
        return Ok(());
    }
    let name = digest.copy(alloc)?;
    let digest = digest.copy(alloc)?;
    blobs.seen.insert(name)?;
    blobs.pushes.push(Planned::Blob { digest, bytes })?;
    Ok(())
}

// Plans bytes under their SHA-256 digest.
fn add_bytes<'a>(alloc: Global, blobs: &mut Blobs<'a>, bytes: &'a [u8]) -> Result<(), AllocError>
    ensures { OnOk result ((before : List Push) → Holds before blobs.old
        → Holds (before ++ sha256_blob bytes.now ∷ []) blobs.new) }
{
    let digest = sha256_digest(alloc, bytes)?;
    add_blob(alloc, blobs, &digest, bytes)
}

// Plans each layer under the digest of its descriptor.
fn layer_blobs<'a>(
    alloc: Global,
    entries: &[OciDescriptor],
    layers: &'a [ImageLayer],
) -> Result<Blobs<'a>, AllocError>
    ensures { IfOk result (Holds (layer_blobs entries.now layers.now)) }
{
    let mut blobs = Blobs {
        pushes: List::new(alloc),
        seen: TextSet::new(alloc),
    };
    let mut named = entries;
    let mut left = layers;
    while let (Some((entry, more)), Some((layer, others))) = (
        named.split_first(),
        left.split_first(),
    ) {
        add_blob(alloc, &mut blobs, &entry.digest, layer.content.as_slice())?;
        named = more;
        left = others;
    }
    Ok(blobs)
}

/// Plans the blobs of an image, each once, and its manifest by its digest.
pub(crate) fn entry_pushes<'a>(
    alloc: Global,
    target: &Reference,
    found: &'a VerifiedImage,
) -> Result<List<Planned<'a>>, AllocError>
    ensures { IfOk result (λ pushes. pushes_of pushes ≡ entry_pushes found.now target.now) }
{
    let manifest = &found.manifest;
    let mut blobs = layer_blobs(alloc, manifest.layers.as_slice(), found.layers.as_slice())?;
    let config = found.config.content.as_slice();
    add_blob(alloc, &mut blobs, &manifest.config.digest, config)?;
    let document = manifest_push(alloc, target, &found.manifest_digest, &found.manifest_bytes)?;
    let mut pushes = blobs.pushes;
    pushes.push(document)?;
    Ok(pushes)
}

// Plans the blobs of an image, each once.
fn blob_pushes<'a>(alloc: Global, found: &'a VerifiedImage) -> Result<List<Planned<'a>>, AllocError>
    ensures { IfOk result (λ pushes. pushes_of pushes ≡ without_repeats (blobs_of found.now)) }
{
    let manifest = &found.manifest;
    let mut blobs = layer_blobs(alloc, manifest.layers.as_slice(), found.layers.as_slice())?;
    let config = found.config.content.as_slice();
    add_blob(alloc, &mut blobs, &manifest.config.digest, config)?;
    add_bytes(alloc, &mut blobs, found.signature.content.as_slice())?;
    add_bytes(alloc, &mut blobs, b"{}")?;
    Ok(blobs.pushes)
}

/// Plans two blobs, each once.
pub(crate) fn bytes_pushes<'a>(
    alloc: Global,
    one: &'a [u8],
    other: &'a [u8],
) -> Result<List<Planned<'a>>, AllocError>
    ensures { IfOk result (λ pushes. pushes_of pushes
        ≡ without_repeats (sha256_blob one.now ∷ sha256_blob other.now ∷ [])) }
{
    let mut blobs = Blobs {
        pushes: List::new(alloc),
        seen: TextSet::new(alloc),
    };
    add_bytes(alloc, &mut blobs, one)?;
    add_bytes(alloc, &mut blobs, other)?;
    Ok(blobs.pushes)
}

/// Plans a manifest by its digest.
pub(crate) fn manifest_push<'a>(
    alloc: Global,
    target: &Reference,
    digest: &Text,
    bytes: &'a Blob,
) -> Result<Planned<'a>, AllocError>
    ensures { IfOk result (λ push. push_of push ≡ manifest_push digest.now bytes.now target.now) }
{
    let content_type = document_type(alloc, bytes)?;
    let reference = digest_reference(alloc, target, digest.as_str())?;
    let digest = digest.copy(alloc)?;
    Ok(Planned::Manifest {
        reference,
        digest,
        bytes: bytes.as_slice(),
        content_type,
    })
}

/// Plans the manifest of this digest, if an index led to it.
pub(crate) fn add_entry<'a>(
    alloc: Global,
    pushes: &mut List<Planned<'a>>,
    target: &Reference,
    list_digest: &Option<Text>,
    digest: &Text,
    bytes: &'a Blob,
) -> Result<(), AllocError>
    ensures { OnOk result (pushes_of pushes.new
        ≡ pushes_of pushes.old ++ entry_by list_digest.now (manifest_push digest.now bytes.now target.now)) }
{
    if list_digest.is_none() {
        return Ok(());
    }
    let push = manifest_push(alloc, target, digest, bytes)?;
    pushes.push(push)?;
    Ok(())
}

/// Plans a document under the target's tag.
pub(crate) fn tag_push<'a>(
    alloc: Global,
    target: &Reference,
    digest: &Text,
    bytes: &'a Blob,
) -> Result<Planned<'a>, AllocError>
    ensures { IfOk result (λ push. push_of push ≡ tag_push digest.now bytes.now target.now) }
{
    let content_type = document_type(alloc, bytes)?;
    let reference = target.copy(alloc)?;
    let digest = digest.copy(alloc)?;
    Ok(Planned::Manifest {
        reference,
        digest,
        bytes: bytes.as_slice(),
        content_type,
    })
}

fn signature_place(
    alloc: Global,
    target: &Reference,
    kind: LayerKind,
    signed: &Text,
    own: &Text,
) -> Result<Reference, AllocError>
    ensures { IfOk result (λ reference. reference ≡ signature_place kind signed.now own.now target.now) }
{
    match kind {
        LayerKind::Payload => tag_reference(alloc, target, signed.as_str()),
        LayerKind::Bundle => digest_reference(alloc, target, own.as_str()),
    }
}

/// Plans the manifest, of this text, of a signature of the document of this digest.
pub(crate) fn signature_push<'a>(
    alloc: Global,
    target: &Reference,
    kind: LayerKind,
    signed: &Text,
    text: &'a [u8],
) -> Result<Planned<'a>, AllocError>
    ensures { IfOk result (λ push. push_of push ≡ signature_push kind signed.now text.now target.now) }
{
    let digest = sha256_digest(alloc, text)?;
    let reference = signature_place(alloc, target, kind, signed, &digest)?;
    let content_type = Text::new(alloc, OCI_IMAGE_MEDIA_TYPE)?;
    Ok(Planned::Manifest {
        reference,
        digest,
        bytes: text,
        content_type,
    })
}

/// Plans the pushes of an image whose signature's manifest has this text.
pub(crate) fn plan_for<'a>(
    alloc: Global,
    target: &Reference,
    found: &'a VerifiedImage,
    text: &'a Blob,
) -> Result<Plan<'a>, AllocError>
    ensures { text.now ≡ signature_text found.now.signature found.now.digest found.now.first
        → IfOk result (IsPlan found.now target.now) }
{
    let mut first = blob_pushes(alloc, found)?;
    let led = &found.list_digest;
    let manifest = &found.manifest_bytes;
    add_entry(
        alloc,
        &mut first,
        target,
        led,
        &found.manifest_digest,
        manifest,
    )?;
    let document = tag_push(alloc, target, &found.digest, &found.first)?;
    let kind = found.signature.kind;
    let signature = signature_push(alloc, target, kind, &found.digest, text.as_slice())?;
    Ok(Plan {
        first,
        document,
        signature,
    })
}
