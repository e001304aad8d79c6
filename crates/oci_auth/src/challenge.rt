// Challenges.
ghost use Rattle.std.specs.Prelude.{◌≡◌, ◌++◌, ◌∷◌, [], List, IfOk, if◌then◌else◌};
ghost use Rattle.oci_auth.specs.Element.{challenges_of, whole};
ghost use Rattle.oci_auth.specs.Words.{AreChallenges};
ghost use Rattle.oci_auth.specs.declared.challenge.Challenge.{Challenge as OneChallenge};
ghost use Rattle.oci_auth.specs.declared.element.Element.{Element as OneElement};

use crate::element::{Element, read_element};
use crate::split::cut_element;
use json_values::{Copied, List, Text, copied};
use std::alloc::{AllocError, Global};

/// A challenge: its scheme, and its parameters in order.
#[derive(Drop)]
pub struct Challenge {
    /// The scheme verbatim.
    pub scheme: Text,
    /// Names and values, the values unquoted.
    pub params: List<(Text, Text)>,
}

impl Copied for Challenge {
    fn copy(&self, alloc: Global) -> Result<Challenge, AllocError> {
        copied!(alloc, self, Challenge { scheme, params })
    }
}

// Takes an element, and returns whether parsing continues.
fn take(
    found: &mut List<Challenge>,
    last: &mut Option<Challenge>,
    element: Element,
) -> Result<bool, AllocError>
    ensures { IfOk result (λ more. (elements : List OneElement)
        → found.old ++ whole last.old (element ∷ elements)
        ≡ (if more then found.new ++ whole last.new elements else found.new)) }
{
    match element {
        Element::Empty => Ok(true),
        Element::Parameter(parameter) => match last {
            Some(challenge) => {
                challenge.params.push(parameter)?;
                Ok(true)
            }
            None => Ok(false),
        },
        Element::Begins(challenge) => {
            if let Some(whole) = last.replace(challenge) {
                found.push(whole)?;
            }
            Ok(true)
        }
        Element::BreaksOff => {
            if let Some(whole) = last.take() {
                found.push(whole)?;
            }
            Ok(false)
        }
        Element::Unreadable => Ok(false),
    }
}

// Parses the challenges of a text, element by element.
#[tactic(auto, unfolding(crate::specs::Element::challenges_of))]
fn listed(alloc: Global, text: &str) -> Result<List<Challenge>, AllocError>
    ensures { IfOk result (λ found. found ≡ challenges_of text.now) }
{
    let mut found = List::new(alloc);
    let mut last = None;
    let mut left = Some(text);
    while let Some(rest) = left {
        let (element, behind) = cut_element(rest);
        let element = read_element(alloc, element)?;
        if !take(&mut found, &mut last, element)? {
            return Ok(found);
        }
        left = behind;
    }
    if let Some(whole) = last {
        found.push(whole)?;
    }
    Ok(found)
}

/// Parses a list of challenges (RFC 9110, section 11.6.1) up to the first malformed element. A challenge is complete
/// if the next one begins or the text ends.
pub fn challenges(alloc: Global, text: &str) -> Result<List<Challenge>, AllocError>
    ensures ok { IfOk result (λ found. found ≡ challenges_of text.now) }
    ensures grammar { IfOk result (λ found. AreChallenges text.now found) }
    ensures only { IfOk result (λ found.
        (others : List OneChallenge) → AreChallenges text.now others → others ≡ found) }
{
    let found = listed(alloc, text)?;
    Ok(found)
}
