// The registry in memory that has the generated image.
ghost use Rattle.std.specs.Prelude.{◌≡◌, ◌++◌, IfOk, OnOk, codes};
ghost use Rattle.std.specs.FinMap as map;
ghost use Rattle.hex.specs.Hex.{encode_lower};
ghost use Rattle.sha2.specs.Sha256.{sha256};
ghost use Rattle.pull_generated.specs.Shelf.{tag_for, manifest_document, shelf_with, payload_of};
ghost use Rattle.pull_generated.specs.Shelf.{generated_shelf, HasTwoDigests};
ghost use Rattle.pull_generated.specs.Texts.{sha256_text, config_content};

use crate::layers::{Layers, first_layers};
use crate::texts::{payload_text, plain_manifest, signatures_text};
use json_values::{Annotations, Blob, Copied, Text, TextMap};
use oci_digests::sha256_digest;
use oci_link::{Shelf, ShelfBlobs, ShelfDocument, ShelfDocuments};
use sha2::{Digest, Sha256};
use std::alloc::{AllocError, Global};

// The tag of the signatures of these bytes.
fn tag_for(alloc: Global, bytes: &[u8]) -> Result<Text, AllocError>
    ensures { IfOk result (λ tag. tag ≡ tag_for bytes.now) }
{
    let digits = hex::encode(alloc, &Sha256::digest(bytes))?;
    let mut tag = Text::new(alloc, "sha256-")?;
    tag.push_str(digits.as_str())?;
    tag.push_str(".sig")?;
    Ok(tag)
}

// `v1` for the image, and the tag of its signatures.
fn tags(
    alloc: Global,
    image: &[u8],
    digest: &Text,
    signatures: Text,
) -> Result<Annotations, AllocError>
    ensures { IfOk result (λ tags. tags ≡ map.insert (map.insert map.empty (tag_for image.now) signatures)
        (codes "v1") digest.now) }
{
    let mut tags = TextMap::new(alloc);
    tags.insert(tag_for(alloc, image)?, signatures)?;
    tags.insert(Text::new(alloc, "v1")?, digest.copy(alloc)?)?;
    Ok(tags)
}

fn manifest_document(alloc: Global, content: &Text) -> Result<ShelfDocument, AllocError>
    ensures { IfOk result (λ document. document ≡ manifest_document content.now) }
{
    let media_type = Text::new(alloc, "application/vnd.oci.image.manifest.v1+json")?;
    let content = Blob::new(alloc, content.as_str().as_bytes())?;
    Ok(ShelfDocument {
        media_type,
        content,
    })
}

// Adds bytes under their digest.
fn insert_blob(alloc: Global, blobs: &mut ShelfBlobs, bytes: &[u8]) -> Result<(), AllocError>
    ensures { OnOk result (blobs.new ≡ map.insert blobs.old (sha256_text bytes.now) bytes.now) }
{
    let digest = sha256_digest(alloc, bytes)?;
    let content = Blob::new(alloc, bytes)?;
    blobs.insert(digest, content)?;
    Ok(())
}

// Both manifests under their digests.
fn documents(
    alloc: Global,
    image: &Text,
    digest: &Text,
    signatures: &Text,
    signed: &Text,
) -> Result<ShelfDocuments, AllocError>
    ensures { IfOk result (λ documents. documents
        ≡ map.insert (map.insert map.empty signed.now (manifest_document signatures.now))
        digest.now (manifest_document image.now)) }
{
    let mut documents = TextMap::new(alloc);
    documents.insert(signed.copy(alloc)?, manifest_document(alloc, signatures)?)?;
    documents.insert(digest.copy(alloc)?, manifest_document(alloc, image)?)?;
    Ok(documents)
}

// The shelf of these documents, with the layers and the payload.
fn shelf_with(
    alloc: Global,
    image: &Text,
    payload: &Text,
    signatures: &Text,
    layers: ShelfBlobs,
) -> Result<Shelf, AllocError>
    ensures exact { IfOk result (λ shelf. shelf ≡ shelf_with image.now payload.now signatures.now layers) }
    ensures apart { OnOk result (sha256_text image.now ≡ sha256_text signatures.now → ⊥) }
{
    let digest = sha256_digest(alloc, image.as_str().as_bytes())?;
    let signed = sha256_digest(alloc, signatures.as_str().as_bytes())?;
    if digest == signed {
        return Err(AllocError);
    }
    let documents = documents(alloc, image, &digest, signatures, &signed)?;
    let tags = tags(alloc, image.as_str().as_bytes(), &digest, signed)?;
    let mut blobs = layers;
    insert_blob(alloc, &mut blobs, "{}".as_bytes())?;
    insert_blob(alloc, &mut blobs, payload.as_str().as_bytes())?;
    Ok(Shelf {
        repository: Text::new(alloc, "gen")?,
        tags,
        documents,
        blobs,
        referrers: TextMap::new(alloc),
        redirects: TextMap::new(alloc),
    })
}

/// Returns a shelf with the image of `layers` layers, its configuration and a signature of it, in its own repository.
///
/// Its two manifests have two digests: if SHA-256 gave them the same one, this would return `AllocError`.
#[tactic(auto, unfolding(crate::specs::Shelf::generated_shelf, crate::specs::Texts::image_text))]
pub fn generated_shelf(alloc: Global, layers: u32) -> Result<Shelf, AllocError>
    ensures exact { IfOk result (λ shelf. shelf ≡ generated_shelf layers) }
    ensures apart { OnOk result (HasTwoDigests layers) }
{
    let Layers { blobs, descriptors } = first_layers(alloc, layers)?;
    let image = plain_manifest(alloc, descriptors.as_slice())?;
    let digest = sha256_digest(alloc, image.as_str().as_bytes())?;
    let payload = payload_text(alloc, digest.as_str())?;
    let signatures = signatures_text(alloc, payload.as_str())?;
    shelf_with(alloc, &image, &payload, &signatures, blobs)
}

/// Returns the digest of the payload that the signature of the image with `layers` layers signs.
pub fn payload_digest(alloc: Global, layers: u32) -> Result<Text, AllocError>
    ensures { IfOk result (λ digest. digest ≡ sha256_text (payload_of layers)) }
{
    let Layers { descriptors, .. } = first_layers(alloc, layers)?;
    let image = plain_manifest(alloc, descriptors.as_slice())?;
    let digest = sha256_digest(alloc, image.as_str().as_bytes())?;
    let payload = payload_text(alloc, digest.as_str())?;
    sha256_digest(alloc, payload.as_str().as_bytes())
}
