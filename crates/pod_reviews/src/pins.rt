// The patch that pins images to their digests.
ghost use Rattle.std.specs.Prelude.{◌≡◌, ◌++◌, IfOk, OnOk, IsTrue, Some, Ok};
ghost use Rattle.std.specs.Option.{option_copied};
ghost use Rattle.oci_names.specs.Reference.{reference_of};
ghost use Rattle.pod_reviews.specs.Pins.{EachPins, IsPinned, PatchOf, Pins, PinsBy, pin_by, pin_of, pinned_text, pins};

use crate::places::PlacedImage;
use crate::verdict::Verdict;
use base64::engine::general_purpose::STANDARD;
use json_canon::to_string;
use json_tables::object;
use json_values::{Copied, List, Text, ToValue};
use oci_names::{ParseError, Reference};
use serde_json::Value;
use std::alloc::{AllocError, Global};

/// The new text of an image.
#[derive(Drop)]
pub struct Pin {
    /// The place of the image's text, as a JSON Pointer (RFC 6901).
    pub place: Text,
    /// A reference with a digest.
    pub text: Text,
}

impl ToValue for Pin {
    ghost use Rattle.pod_reviews.specs.Pins.{operation};

    ghost written = { operation };

    fn to_value(&self, alloc: Global) -> Result<Value, AllocError> {
        let value = object!(alloc, {
            "op": &"replace",
            "path": &self.place,
            "value": &self.text,
        })?;
        Ok(value)
    }
}

fn pinned_text(alloc: Global, image: &Reference, digest: &str) -> Result<Text, AllocError>
    ensures { IfOk result (λ text. text ≡ pinned_text image.now digest.now) }
{
    let mut text = image.whole(alloc)?;
    text.push_str("@")?;
    text.push_str(digest)?;
    Ok(text)
}

fn is_same(one: Option<&str>, other: Option<&str>) -> bool
    ensures { IsTrue result → option_copied one.entry ≡ option_copied other.entry }
{
    match (one, other) {
        (Some(one), Some(other)) => one == other,
        (None, None) => true,
        _ => false,
    }
}

// Whether a reference is another one with this digest.
fn is_with_digest(found: &Reference, image: &Reference, digest: &str) -> bool
    ensures registry { IsTrue result → found.now.registry ≡ image.now.registry }
    ensures repository { IsTrue result → found.now.repository ≡ image.now.repository }
    ensures tag { IsTrue result → found.now.tag ≡ image.now.tag }
    ensures digest { IsTrue result → found.now.digest ≡ Some digest.now }
{
    found.registry() == image.registry()
        && found.repository() == image.repository()
        && is_same(found.tag(), image.tag())
        && is_same(found.digest(), Some(digest))
}

// Whether the text parses to the same image with this digest.
fn is_pinned(alloc: Global, image: &Reference, digest: &str, text: &str) -> Result<bool, AllocError>
    ensures { IfOk result (λ b. IsTrue b → IsPinned image.now digest.now text.now) }
{
    match Reference::parse(alloc, text) {
        Ok(found) => Ok(is_with_digest(&found, image, digest)),
        Err(ParseError::WantOfMemory) => Err(AllocError),
        Err(_) => Ok(false),
    }
}

// The text of an image with this digest. It always parses to that image; if it did not, this would return an error, so
// that nothing is allowed.
fn pinned(alloc: Global, image: &Reference, digest: &str) -> Result<Text, AllocError>
    ensures text { IfOk result (λ text. text ≡ pinned_text image.now digest.now) }
    ensures means { OnOk result (IsPinned image.now digest.now (pinned_text image.now digest.now)) }
{
    let text = pinned_text(alloc, image, digest)?;
    let means = is_pinned(alloc, image, digest, text.as_str())?;
    if !means {
        return Err(AllocError);
    }
    Ok(text)
}

// Adds the new text of an image that is a reference.
fn push_new(
    alloc: Global,
    pins: &mut List<Pin>,
    place: &Text,
    image: &Reference,
    digest: &str,
) -> Result<(), AllocError>
    ensures added { OnOk result (pins.new ≡ pins.old ++ pin_by place.now (Ok image.now) digest.now) }
    ensures means { OnOk result (PinsBy (Ok image.now) digest.now) }
{
    if image.digest().is_some() {
        return Ok(());
    }
    let text = pinned(alloc, image, digest)?;
    let place = place.copy(alloc)?;
    pins.push(Pin { place, text })?;
    Ok(())
}

// Adds the new text of an image that is allowed.
fn push_allowed(
    alloc: Global,
    pins: &mut List<Pin>,
    image: &PlacedImage,
    digest: &str,
) -> Result<(), AllocError>
    ensures added { OnOk result (pins.new
        ≡ pins.old ++ pin_by image.now.place (reference_of image.now.image) digest.now) }
    ensures means { OnOk result (PinsBy (reference_of image.now.image) digest.now) }
{
    match Reference::parse(alloc, image.image.as_str()) {
        Ok(found) => push_new(alloc, pins, &image.place, &found, digest),
        Err(ParseError::WantOfMemory) => Err(AllocError),
        Err(ParseError::NameEmpty) => Ok(()),
        Err(ParseError::ReferenceInvalidFormat) => Ok(()),
        Err(ParseError::NameTooLong) => Ok(()),
        Err(ParseError::DigestUnsupported) => Ok(()),
        Err(ParseError::DigestInvalidLength) => Ok(()),
    }
}

fn push_pin(
    alloc: Global,
    pins: &mut List<Pin>,
    image: &PlacedImage,
    verdict: &Verdict,
) -> Result<(), AllocError>
    ensures added { OnOk result (pins.new ≡ pins.old ++ pin_of image.now verdict.now) }
    ensures means { OnOk result (Pins image.now verdict.now) }
{
    match verdict {
        Verdict::Allowed(digest) => push_allowed(alloc, pins, image, digest.as_str()),
        Verdict::Denied(_) => Ok(()),
    }
}

/// Returns the new text of each allowed image without a digest.
pub(crate) fn pins(
    alloc: Global,
    images: &[PlacedImage],
    verdicts: &[Verdict],
) -> Result<List<Pin>, AllocError>
    ensures pins { IfOk result (λ list. list ≡ pins images.now verdicts.now) }
    ensures means { OnOk result (EachPins images.now verdicts.now) }
{
    let mut list = List::new(alloc);
    let mut named = images;
    let mut rest = verdicts;
    while let (Some((image, more)), Some((verdict, others))) = (
        named.split_first(),
        rest.split_first(),
    ) {
        push_pin(alloc, &mut list, image, verdict)?;
        named = more;
        rest = others;
    }
    Ok(list)
}

/// Returns the JSON Patch (RFC 6902) of these new texts in base64, or `None` if there are none.
pub(crate) fn patch_of(alloc: Global, pins: &List<Pin>) -> Result<Option<Text>, AllocError>
    ensures { IfOk result (λ patch. PatchOf pins.now patch) }
{
    if pins.as_slice().is_empty() {
        return Ok(None);
    }
    // It holds no number, so that only memory may be wanting.
    let Ok(text) = to_string(alloc, pins) else {
        return Err(AllocError);
    };
    let encoded = STANDARD.encode(alloc, text.as_str().as_bytes())?;
    let patch = Text::new(alloc, encoded.as_str())?;
    Ok(Some(patch))
}
