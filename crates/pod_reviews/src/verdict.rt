// The verdict about an image.
ghost use Rattle.std.specs.Prelude.{◌≡◌, ◌↔◌, IfOk, IsTrue, All};
ghost use Rattle.pod_reviews.specs.Verdicts.{IsAllowed, all_allowed, denial_print, is_allowed};

use json_values::{Copied, Text, write_quoted};
use std::alloc::{AllocError, Global};

/// Whether an image may run, without the image.
#[derive(Drop)]
pub enum Verdict {
    /// The image may run: its digest.
    Allowed(Text),
    Denied(Denial),
}

/// Why an image may not run.
#[derive(Drop)]
pub enum Denial {
    /// This text is not a reference.
    NotAReference(Text),
    /// No rule covers the image.
    NoRule,
    /// The image was refused, with the cause on one line.
    Refused(Text),
}

/// Returns the cause on one line.
pub(crate) fn denial_text(alloc: Global, cause: &Denial) -> Result<Text, AllocError>
    ensures { IfOk result (λ text. text ≡ denial_print cause.now) }
{
    match cause {
        Denial::NotAReference(text) => {
            let mut print = Text::new(alloc, "NotAReference ")?;
            print.push_str(write_quoted(alloc, text.as_str())?.as_str())?;
            Ok(print)
        }
        Denial::NoRule => Text::new(alloc, "NoRule"),
        Denial::Refused(print) => print.copy(alloc),
    }
}

fn is_allowed(verdict: &Verdict) -> bool
    ensures { result ≡ is_allowed verdict.now }
{
    matches!(verdict, Verdict::Allowed(_))
}

fn every_allowed(verdicts: &[Verdict]) -> bool
    ensures { result ≡ all_allowed verdicts.now }
{
    for verdict in verdicts {
        if !is_allowed(verdict) {
            return false;
        }
    }
    true
}

/// Returns whether every verdict is `Allowed`.
pub fn all_allowed(verdicts: &[Verdict]) -> bool
    ensures value { result ≡ all_allowed verdicts.now }
    ensures each { IsTrue result ↔ All IsAllowed verdicts.now }
{
    every_allowed(verdicts)
}
