// Members of a case with rules of their own.
ghost use Rattle.std.specs.Prelude.{◌≡◌, IfOk, Some, is_ok, option_map};
ghost use Rattle.json_tables.specs.Member.{present};
ghost use Rattle.oci_names.specs.Reference.{reference_of};
ghost use Rattle.engine_terms.specs.declared.settings.ClientProtocol.TheVariants.{Https};
ghost use Rattle.recorded_case.specs.Case.{reference_text_of, protocol_of, moments_of};
ghost use Rattle.recorded_case.specs.Members.{protocol_named};
ghost use Rattle.recorded_case.specs.Members.{number_of};

use crate::entries::{Entry, Usual};
use engine_terms::ClientProtocol;
use json_tables::{Member, ReadError, Reads, present};
use json_values::{List, Text};
use oci_names::{ParseError, Reference};
use serde_json::Value;
use std::alloc::{AllocError, Global};
use std::marker::Model;

/// A string that parses as a reference. A contract sees the string.
#[derive(Drop)]
pub struct ReferenceText {
    pub text: Text,
}

impl Model for ReferenceText {
    ghost use Rattle.std.specs.Prelude.{ℕ, List};

    ghost Value = { List ℕ };

    ghost view = { λ reference. reference.text };
}

impl Member for ReferenceText {
    ghost found = { present reference_text_of };

    #[tactic(auto, unfolding(crate::specs::Case::reference_text_of))]
    fn read_member(alloc: Global, member: Option<&Value>) -> Result<ReferenceText, ReadError> {
        let text: Text = present(alloc, member)?;
        let parses = is_reference(alloc, text.as_str())?;
        if !parses {
            return Err(ReadError::Shape);
        }
        Ok(ReferenceText { text })
    }
}

// Whether the string parses as a reference.
fn is_reference(alloc: Global, text: &str) -> Result<bool, AllocError>
    ensures { IfOk result (λ b. b ≡ is_ok (reference_of text.now)) }
{
    match Reference::parse(alloc, text) {
        Ok(_) => Ok(true),
        Err(ParseError::WantOfMemory) => Err(AllocError),
        Err(ParseError::NameEmpty) => Ok(false),
        Err(ParseError::ReferenceInvalidFormat) => Ok(false),
        Err(ParseError::NameTooLong) => Ok(false),
        Err(ParseError::DigestUnsupported) => Ok(false),
        Err(ParseError::DigestInvalidLength) => Ok(false),
    }
}

impl Entry for ClientProtocol {
    ghost entry = { protocol_of };

    #[tactic(auto, unfolding(crate::specs::Case::protocol_of))]
    fn read_entry(_alloc: Global, value: &Value) -> Result<ClientProtocol, ReadError> {
        let Some(text) = value.as_str() else {
            return Err(ReadError::Shape);
        };
        protocol_named(text).ok_or(ReadError::Shape)
    }
}

impl Usual for ClientProtocol {
    ghost usual = { Https };

    fn usual(_alloc: Global) -> ClientProtocol {
        ClientProtocol::Https
    }
}

fn protocol_named(text: &str) -> Option<ClientProtocol>
    ensures { result ≡ protocol_named text.now }
{
    match text {
        "http" => Some(ClientProtocol::Http),
        "https" => Some(ClientProtocol::Https),
        _ => None,
    }
}

// An integer, if present.
impl Entry for Option<u64> {
    ghost entry = { number_of };

    fn read_entry(alloc: Global, value: &Value) -> Result<Option<u64>, ReadError> {
        let number = Reads::read_value(alloc, value)?;
        Ok(Some(number))
    }
}

impl Usual for Option<u64> {
    ghost use Rattle.std.specs.Prelude.{None};

    ghost usual = { None };

    fn usual(_alloc: Global) -> Option<u64> {
        None
    }
}

impl Entry for bool {
    ghost use Rattle.json_tables.specs.Reading.{bool_of};

    ghost entry = { bool_of };

    fn read_entry(alloc: Global, value: &Value) -> Result<bool, ReadError> {
        Reads::read_value(alloc, value)
    }
}

impl Usual for bool {
    ghost use Rattle.std.specs.Prelude.{false};

    ghost usual = { false };

    fn usual(_alloc: Global) -> bool {
        false
    }
}

/// At least one moment, in seconds since 1970. A contract sees the list of them.
#[derive(Drop)]
pub struct Moments {
    pub list: List<u64>,
}

impl Model for Moments {
    ghost use Rattle.std.specs.Prelude.{ℕ, List};

    ghost Value = { List ℕ };

    ghost view = { λ moments. moments.list };
}

impl Member for Moments {
    ghost found = { present moments_of };

    #[tactic(auto, unfolding(crate::specs::Case::moments_of))]
    fn read_member(alloc: Global, member: Option<&Value>) -> Result<Moments, ReadError> {
        let list: List<u64> = present(alloc, member)?;
        if list.as_slice().is_empty() {
            return Err(ReadError::Shape);
        }
        Ok(Moments { list })
    }
}
