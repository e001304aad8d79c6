// The message of a response: which images are denied, and why.
ghost use Rattle.std.specs.Prelude.{◌≡◌, ◌++◌, IfOk, OnOk, codes, flat_map};
ghost use Rattle.pod_reviews.specs.Verdicts.{denial, denials, joined, message};

use crate::places::PlacedImage;
use crate::verdict::{Verdict, denial_text};
use json_values::{Copied, List, Text};
use std::alloc::{AllocError, Global};

// Adds the text of a denial.
fn push_denial(
    alloc: Global,
    texts: &mut List<Text>,
    image: &PlacedImage,
    verdict: &Verdict,
) -> Result<(), AllocError>
    ensures { OnOk result (texts.new ≡ texts.old ++ denial image.now verdict.now) }
{
    let Verdict::Denied(cause) = verdict else {
        return Ok(());
    };
    let mut text = image.name.copy(alloc)?;
    text.push_str(": ")?;
    let print = denial_text(alloc, cause)?;
    text.push_str(print.as_str())?;
    texts.push(text)?;
    Ok(())
}

// The text of each denied image, in order.
fn denials(
    alloc: Global,
    images: &[PlacedImage],
    verdicts: &[Verdict],
) -> Result<List<Text>, AllocError>
    ensures { IfOk result (λ texts. texts ≡ denials images.now verdicts.now) }
{
    let mut texts = List::new(alloc);
    let mut named = images;
    let mut rest = verdicts;
    while let (Some((image, more)), Some((verdict, others))) = (
        named.split_first(),
        rest.split_first(),
    ) {
        push_denial(alloc, &mut texts, image, verdict)?;
        named = more;
        rest = others;
    }
    Ok(texts)
}

fn push_one(text: &mut Text, one: &Text) -> Result<(), AllocError>
    ensures { OnOk result (text.new ≡ text.old ++ (codes "; " ++ one.now)) }
{
    text.push_str("; ")?;
    text.push_str(one.as_str())?;
    Ok(())
}

// Appends each text after a separator.
fn push_others(text: &mut Text, others: &[Text]) -> Result<(), AllocError>
    ensures { OnOk result (text.new ≡ text.old ++ flat_map (λ one. codes "; " ++ one) others.now) }
{
    for one in others {
        push_one(text, one)?;
    }
    Ok(())
}

fn joined(alloc: Global, texts: &[Text]) -> Result<Text, AllocError>
    ensures { IfOk result (λ text. text ≡ joined texts.now) }
{
    let Some((first, others)) = texts.split_first() else {
        return Text::new(alloc, "");
    };
    let mut text = first.copy(alloc)?;
    push_others(&mut text, others)?;
    Ok(text)
}

/// Returns the text of each denied image, in order, separated by `; `.
pub(crate) fn message(
    alloc: Global,
    images: &[PlacedImage],
    verdicts: &[Verdict],
) -> Result<Text, AllocError>
    ensures { IfOk result (λ text. text ≡ message images.now verdicts.now) }
{
    let texts = denials(alloc, images, verdicts)?;
    joined(alloc, texts.as_slice())
}
