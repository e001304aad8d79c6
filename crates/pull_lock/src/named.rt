// Whether the text of an entry names its first document.
ghost use Rattle.std.specs.Prelude.{◌≡◌, ◌↔◌, ◌&&◌, IfOk, IsTrue, bytes_eq, option_copied};
ghost use Rattle.oci_names.specs.Reference.{whole_text};
ghost use Rattle.cosign_chain.specs.Links.{named_by};
ghost use Rattle.pull_lock.specs.Tests.{IsNamed, names_first, parsed};

use crate::lock::LockEntry;
use oci_digests::names_digest;
use oci_names::{ParseError, Reference};
use std::alloc::{AllocError, Global};

// The reference that the text parses as; `None` if it does not parse.
fn parsed(alloc: Global, text: &str) -> Result<Option<Reference>, AllocError>
    ensures { IfOk result (λ found. found ≡ parsed text.now) }
{
    match Reference::parse(alloc, text) {
        Ok(image) => Ok(Some(image)),
        Err(ParseError::WantOfMemory) => Err(AllocError),
        Err(_) => Ok(None),
    }
}

// A digest, if there is one, names the bytes.
fn named_by(digest: Option<&str>, bytes: &[u8]) -> bool
    ensures { result ≡ named_by (option_copied digest.entry) bytes.now }
{
    match digest {
        Some(digest) => names_digest(digest, bytes),
        None => true,
    }
}

// Whether the digests of the reference and of the entry name the first document.
fn names_first(image: &Reference, entry: &LockEntry) -> bool
    ensures { result ≡ names_first image.now entry.now }
{
    let first = entry.first.as_str().as_bytes();
    names_digest(entry.digest.as_str(), first) && named_by(image.digest(), first)
}

// Whether the entry's image is the whole text of this reference, and the digests name the first document.
fn is_image(alloc: Global, image: &Reference, entry: &LockEntry) -> Result<bool, AllocError>
    ensures { IfOk result (λ b.
        b ≡ (bytes_eq (whole_text image.now) entry.now.image && names_first image.now entry.now)) }
{
    let whole = image.whole(alloc)?;
    Ok(whole.as_str() == entry.image.as_str() && names_first(image, entry))
}

/// Returns whether the image of an entry is the whole text of a reference that reads back, whose digest, if it has one,
/// names the first document, as the entry's digest does.
pub(crate) fn is_named(alloc: Global, entry: &LockEntry) -> Result<bool, AllocError>
    ensures { IfOk result (λ b. IsTrue b ↔ IsNamed entry.now) }
{
    let Some(image) = parsed(alloc, entry.image.as_str())? else {
        return Ok(false);
    };
    let named = is_image(alloc, &image, entry)?;
    Ok(named)
}
