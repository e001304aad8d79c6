//! The references that the search and the pull request, in the image's repository.
ghost use Rattle.std.specs.Prelude.{◌≡◌, IfOk, string_bytes};
ghost use Rattle.registry_calls.specs.Direct.{reference_in};
ghost use Rattle.json_values.specs.Refusals.{Matches};
ghost use Rattle.registry_calls.specs.Error.{is_memory};
ghost use Rattle.cosign_rows.specs.References.{with_dashes, signature_tag, tag_reference};
ghost use Rattle.cosign_rows.specs.References.{digest_reference, reading_back};

use json_values::Text;
use oci_names::Reference;
use registry_calls::{OciReference, SigstoreError};
use std::alloc::{AllocError, Global};

// A tag cannot contain a colon, so a dash replaces it.
fn with_dashes(alloc: Global, text: &str) -> Result<String, AllocError>
    ensures { IfOk result (λ dashes. string_bytes dashes ≡ with_dashes text.now) }
{
    text.chars()
        .map(|c| if c == ':' { '-' } else { c })
        .collect(alloc)
}

// The tag of a digest's signatures.
fn signature_tag(alloc: Global, digest: &str) -> Result<Text, AllocError>
    ensures { IfOk result (λ tag. tag ≡ signature_tag digest.now) }
{
    let dashes = with_dashes(alloc, digest)?;
    let mut tag = Text::new(alloc, dashes.as_str())?;
    tag.push_str(".sig")?;
    Ok(tag)
}

/// Returns the reference of the digest's signature tag, in the image's repository.
pub fn tag_reference(
    alloc: Global,
    image: &Reference,
    digest: &str,
) -> Result<Reference, AllocError>
    ensures { IfOk result (λ tag. tag ≡ tag_reference image.now digest.now) }
{
    let tag = signature_tag(alloc, digest)?;
    let registry = Text::new(alloc, image.registry())?;
    let repository = Text::new(alloc, image.repository())?;
    Ok(Reference::with_tag(registry, repository, tag))
}

/// Returns the same as an `OciReference`.
#[tactic(auto, using(crate::proofs::Exits::tag_same))]
pub fn oci_tag_reference(
    alloc: Global,
    image: &OciReference,
    digest: &str,
) -> Result<OciReference, AllocError>
    ensures { IfOk result (λ tag. reference_in tag ≡ tag_reference (reference_in image.now) digest.now) }
{
    let tag = signature_tag(alloc, digest)?;
    let registry = Text::new(alloc, image.registry())?;
    let repository = Text::new(alloc, image.repository())?;
    let reference = OciReference::with_tag(registry, repository, tag);
    Ok(reference)
}

/// Returns the reference of a digest in the image's repository.
pub fn digest_reference(
    alloc: Global,
    image: &Reference,
    digest: &str,
) -> Result<Reference, AllocError>
    ensures { IfOk result (λ source. source ≡ digest_reference image.now digest.now) }
{
    let digest = Text::new(alloc, digest)?;
    let registry = Text::new(alloc, image.registry())?;
    let repository = Text::new(alloc, image.repository())?;
    Ok(Reference::with_digest(registry, repository, digest))
}

/// Succeeds if the reference round-trips. Returns `OciReferenceNotValidError` with its text if it does not.
pub fn reading_back(alloc: Global, image: &Reference) -> Result<(), SigstoreError>
    ensures { Matches is_memory result (reading_back image.now) }
{
    let reads_back = image.reads_back(alloc)?;
    if reads_back {
        return Ok(());
    }
    let reference = image.whole(alloc)?;
    Err(SigstoreError::OciReferenceNotValidError { reference })
}
