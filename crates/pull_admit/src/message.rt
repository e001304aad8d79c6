// The message of a response: which images are denied, and why.
ghost use Rattle.std.specs.Prelude.{◌≡◌, ◌++◌, IfOk, OnOk, IsTrue, ◌↔◌, codes, flat_map};
ghost use Rattle.std.specs.List.{All};
ghost use Rattle.pull_admit.specs.Responses.{all_allowed, cause_print, denial, denials, is_allowed, joined};
ghost use Rattle.pull_admit.specs.Responses.{message, IsAllowed};

use crate::decision::{Decision, DenyCause};
use json_values::{Blob, Copied, List, Text};
use pod_reviews::ReviewImage;
use pull_report::Printed;
use std::alloc::{AllocError, Global};

fn is_allowed(decision: &Decision) -> bool
    ensures { result ≡ is_allowed decision.now }
{
    matches!(decision, Decision::Allow(_))
}

fn every_allowed(decisions: &[Decision]) -> bool
    ensures { result ≡ all_allowed decisions.now }
{
    for decision in decisions {
        if !is_allowed(decision) {
            return false;
        }
    }
    true
}

/// Returns whether every decision is `Allow`.
pub fn all_allowed(decisions: &[Decision]) -> bool
    ensures value { result ≡ all_allowed decisions.now }
    ensures each { IsTrue result ↔ All IsAllowed decisions.now }
{
    every_allowed(decisions)
}

// The print of a cause. Every print is UTF-8; if one were not, this would return `AllocError`, so that nothing is
// allowed.
fn cause_text(alloc: Global, cause: &DenyCause) -> Result<Text, AllocError>
    ensures { IfOk result (λ text. text ≡ cause_print cause.now) }
{
    let mut print = Blob::empty(alloc);
    cause.write_print(alloc, &mut print)?;
    match std::str::from_utf8(print.as_slice()) {
        Ok(text) => Text::new(alloc, text),
        Err(_) => Err(AllocError),
    }
}

// Adds the text of a denial.
fn push_denial(
    alloc: Global,
    texts: &mut List<Text>,
    image: &ReviewImage,
    decision: &Decision,
) -> Result<(), AllocError>
    ensures { OnOk result (texts.new ≡ texts.old ++ denial image.now decision.now) }
{
    let Decision::Deny(cause) = decision else {
        return Ok(());
    };
    let mut text = image.name.copy(alloc)?;
    text.push_str(": ")?;
    let print = cause_text(alloc, cause)?;
    text.push_str(print.as_str())?;
    texts.push(text)?;
    Ok(())
}

// The text of each denied image, in order.
fn denials(
    alloc: Global,
    images: &[ReviewImage],
    decisions: &[Decision],
) -> Result<List<Text>, AllocError>
    ensures { IfOk result (λ texts. texts ≡ denials images.now decisions.now) }
{
    let mut texts = List::new(alloc);
    let mut named = images;
    let mut rest = decisions;
    while let (Some((image, more)), Some((decision, others))) = (
        named.split_first(),
        rest.split_first(),
    ) {
        push_denial(alloc, &mut texts, image, decision)?;
        named = more;
        rest = others;
    }
    Ok(texts)
}

fn push_one(text: &mut Text, one: &Text) -> Result<(), AllocError>
    ensures { OnOk result (text.new ≡ text.old ++ (codes "; " ++ one.now)) }
{
    text.push_str("; ")?;
    text.push_str(one.as_str())?;
    Ok(())
}

// Appends each text after a separator.
fn push_others(text: &mut Text, others: &[Text]) -> Result<(), AllocError>
    ensures { OnOk result (text.new ≡ text.old ++ flat_map (λ one. codes "; " ++ one) others.now) }
{
    for one in others {
        push_one(text, one)?;
    }
    Ok(())
}

fn joined(alloc: Global, texts: &[Text]) -> Result<Text, AllocError>
    ensures { IfOk result (λ text. text ≡ joined texts.now) }
{
    let Some((first, others)) = texts.split_first() else {
        return Text::new(alloc, "");
    };
    let mut text = first.copy(alloc)?;
    push_others(&mut text, others)?;
    Ok(text)
}

/// Returns the text of each denied image, in order, separated by `; `.
pub(crate) fn message(
    alloc: Global,
    images: &[ReviewImage],
    decisions: &[Decision],
) -> Result<Text, AllocError>
    ensures { IfOk result (λ text. text ≡ message images.now decisions.now) }
{
    let texts = denials(alloc, images, decisions)?;
    joined(alloc, texts.as_slice())
}
