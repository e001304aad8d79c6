// The rule that covers an image.
ghost use Rattle.std.specs.Prelude.{◌≡◌, IfOk, MatchOption, None};
ghost use Rattle.std.specs.Option.{option_copied};
ghost use Rattle.live_admit.specs.Covering.{place_of};
ghost use Rattle.live_admit.specs.Rules.{first_for, rule_for, IsFirstAt};

use crate::place::{covers, place_of};
use crate::rule::Rule;
use oci_names::Reference;
use std::alloc::{AllocError, Global};

// The first rule whose images have this place.
fn first_for<'a, T>(rules: &'a [Rule<T>], place: &str) -> Option<&'a Rule<T>>
    ensures { option_copied result ≡ first_for rules.now place.now }
{
    for rule in rules {
        if covers(rule.images.as_str(), place) {
            return Some(rule);
        }
    }
    None
}

/// Returns the first rule that covers the image, or `None` if none does.
pub fn rule_for<'a, T>(
    alloc: Global,
    rules: &'a [Rule<T>],
    image: &Reference,
) -> Result<Option<&'a Rule<T>>, AllocError>
    ensures { IfOk result (λ found. option_copied found ≡ rule_for rules.now image.now) }
{
    let place = place_of(alloc, image)?;
    let found = first_for(rules, place.as_str());
    Ok(found)
}

// The index of the first rule whose images have this place.
fn first_at<T>(rules: &[Rule<T>], place: &str) -> Option<usize>
    ensures { MatchOption result (first_for rules.now place.now ≡ None) (λ at. IsFirstAt rules.now place.now at) }
{
    for at in 0..rules.len() {
        if covers(rules[at].images.as_str(), place) {
            return Some(at);
        }
    }
    None
}

/// Returns the index of the first rule that covers the image, or `None` if none does.
pub fn index_for<T>(
    alloc: Global,
    rules: &[Rule<T>],
    image: &Reference,
) -> Result<Option<usize>, AllocError>
    ensures { IfOk result (λ found. MatchOption found (rule_for rules.now image.now ≡ None)
        (λ at. IsFirstAt rules.now (place_of image.now) at)) }
{
    let place = place_of(alloc, image)?;
    let found = first_at(rules, place.as_str());
    Ok(found)
}
