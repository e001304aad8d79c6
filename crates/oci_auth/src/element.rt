// The elements of a list of challenges.
ghost use Rattle.std.specs.Prelude.{◌≡◌, IfOk};
ghost use Rattle.oci_auth.specs.Element as list;

use crate::challenge::Challenge;
use crate::grammar::{after_byte, assigned, cut_token, parameter_in, past_blanks};
use json_values::{List, Text};
use std::alloc::{AllocError, Global};

/// The text between two commas.
#[derive(Drop)]
pub enum Element {
    Empty,
    Parameter((Text, Text)),
    /// A challenge, with its first parameter if it has one.
    Begins(Challenge),
    /// A challenge that is malformed after its scheme.
    BreaksOff,
    Unreadable,
}

fn begun(
    alloc: Global,
    scheme: &str,
    parameter: Option<(Text, Text)>,
) -> Result<Element, AllocError>
    ensures { IfOk result (λ element. element ≡ list.begun scheme.now parameter) }
{
    match parameter {
        Some(parameter) => {
            let scheme = Text::new(alloc, scheme)?;
            let mut params = List::new(alloc);
            params.push(parameter)?;
            Ok(Element::Begins(Challenge { scheme, params }))
        }
        None => Ok(Element::BreaksOff),
    }
}

fn added(parameter: Option<(Text, Text)>) -> Element
    ensures { result ≡ list.added parameter }
{
    match parameter {
        Some(parameter) => Element::Parameter(parameter),
        None => Element::Unreadable,
    }
}

fn after_token(alloc: Global, token: &str, text: &str) -> Result<Element, AllocError>
    ensures { IfOk result (λ element. element ≡ list.after_token token.now text.now) }
{
    if text.is_empty() {
        let scheme = Text::new(alloc, token)?;
        let params = List::new(alloc);
        return Ok(Element::Begins(Challenge { scheme, params }));
    }
    match after_byte(b'=', text) {
        Some(value) => {
            let parameter = assigned(alloc, token, value)?;
            Ok(added(parameter))
        }
        None => {
            let parameter = parameter_in(alloc, text)?;
            let element = begun(alloc, token, parameter)?;
            Ok(element)
        }
    }
}

/// Parses one element.
#[tactic(auto, unfolding(crate::specs::Element::element_of))]
pub fn read_element(alloc: Global, text: &str) -> Result<Element, AllocError>
    ensures { IfOk result (λ element. element ≡ list.element_of text.now) }
{
    let text = past_blanks(text);
    if text.is_empty() {
        return Ok(Element::Empty);
    }
    let (token, rest) = cut_token(text);
    if token.is_empty() {
        return Ok(Element::Unreadable);
    }
    let element = after_token(alloc, token, past_blanks(rest))?;
    Ok(element)
}
