// The inputs of `lock` and `lockcheck`.
ghost use Rattle.std.specs.Prelude.{◌≡◌, IfOk, IfSome, map};
ghost use Rattle.std.specs.List.{list_all, zip};
ghost use Rattle.std.specs.Ordering.{is_lt};
ghost use Rattle.json_values.specs.Places.{by_bytes};
ghost use Rattle.recorded_case.specs.Case.{IsReady};
ghost use Rattle.locked_cases.specs.Input.{ascending, can_be_locked, cases_in, check_in, has_one_moment, whole_of, AreReady};

use crate::queue::Queue;
use json_tables::{ReadError, Reads, only, read_plain, required};
use json_values::{List, Text};
use oci_names::{ParseError, Reference};
use recorded_case::Case;
use serde_json::Value;
use std::alloc::{AllocError, Global};
use std::cmp::Ordering;

/// Cases whose images are locked together: a JSON list of at least one case, each with one moment. The whole texts of
/// their references (`registry/repository`, then `:tag` and `@digest` if present) increase strictly by their bytes.
#[derive(Drop)]
pub struct LockInput {
    /// In order.
    pub cases: Queue<Case>,
}

/// A case and a lock file that is checked under its policy: `{"case": case, "lock": text}`. Of the case, its `platform`,
/// `keys`, `constraints`, `log_keys`, `signatures` and `vouched` count.
#[derive(Drop)]
pub struct CheckInput {
    pub case: Case,
    /// The whole file.
    pub lock: Text,
}

// The whole text of the case's reference.
pub(crate) fn whole_of(alloc: Global, case: &Case) -> Result<Text, AllocError>
    ensures { IfOk result (λ text. text ≡ whole_of case.now) }
{
    match Reference::parse(alloc, case.reference.as_str()) {
        Ok(image) => image.whole(alloc),
        Err(ParseError::WantOfMemory) => Err(AllocError),
        Err(ParseError::NameEmpty) => Text::new(alloc, ""),
        Err(ParseError::ReferenceInvalidFormat) => Text::new(alloc, ""),
        Err(ParseError::NameTooLong) => Text::new(alloc, ""),
        Err(ParseError::DigestUnsupported) => Text::new(alloc, ""),
        Err(ParseError::DigestInvalidLength) => Text::new(alloc, ""),
    }
}

fn wholes_of(alloc: Global, cases: &[Case]) -> Result<List<Text>, AllocError>
    ensures { IfOk result (λ texts. texts ≡ map whole_of cases.now) }
{
    let mut texts = List::new(alloc);
    for case in cases {
        let text = whole_of(alloc, case)?;
        texts.push(text)?;
    }
    Ok(texts)
}

// Whether each text is less than the next one.
fn is_ascending(texts: &[Text]) -> bool
    ensures { result ≡ ascending texts.now }
{
    match texts.split_first() {
        Some((_, others)) => are_less(texts, others),
        None => true,
    }
}

fn are_less(texts: &[Text], others: &[Text]) -> bool
    ensures { result ≡ list_all (λ p. is_lt (by_bytes p.0 p.1)) (zip texts.now others.now) }
{
    texts
        .iter()
        .zip(others)
        .all(|(text, next)| is_less(text, next))
}

fn is_less(text: &Text, next: &Text) -> bool
    ensures { result ≡ is_lt (by_bytes text.now next.now) }
{
    text.as_str().cmp(next.as_str()) == Ordering::Less
}

fn has_one_moment(case: &Case) -> bool
    ensures { result ≡ has_one_moment case.now }
{
    case.moments.as_slice().len() == 1
}

fn all_have_one_moment(cases: &[Case]) -> bool
    ensures { result ≡ list_all has_one_moment cases.now }
{
    cases.iter().all(has_one_moment)
}

fn can_be_locked(alloc: Global, cases: &[Case]) -> Result<bool, AllocError>
    ensures { IfOk result (λ b. b ≡ can_be_locked cases.now) }
{
    let texts = wholes_of(alloc, cases)?;
    Ok(0 < cases.len() && all_have_one_moment(cases) && is_ascending(texts.as_slice()))
}

impl Reads for LockInput {
    ghost use Rattle.locked_cases.specs.Input.{cases_of};

    ghost reading = { cases_of };

    #[tactic(auto, unfolding(crate::specs::Input::cases_of))]
    fn read_value(alloc: Global, value: &Value) -> Result<LockInput, ReadError> {
        let cases: Queue<Case> = Reads::read_value(alloc, value)?;
        let fit = can_be_locked(alloc, cases.as_slice())?;
        if !fit {
            return Err(ReadError::Shape);
        }
        Ok(LockInput { cases })
    }
}

impl Reads for CheckInput {
    ghost use Rattle.locked_cases.specs.Input.{check_of};

    ghost reading = { check_of };

    #[tactic(auto, unfolding(crate::specs::Input::check_of))]
    fn read_value(alloc: Global, value: &Value) -> Result<CheckInput, ReadError> {
        only(value, &["case", "lock"])?;
        let lock: Text = required(alloc, value, "lock")?;
        let case: Case = required(alloc, value, "case")?;
        Ok(CheckInput { case, lock })
    }
}

/// Parses the input of `lock`. Returns `None` if and only if the bytes are not a JSON text (RFC 8259) with at most 127
/// levels of nesting, contain a float, or are not a list of cases as `LockInput` describes.
pub fn read_lock_input(alloc: Global, bytes: &[u8]) -> Result<Option<LockInput>, AllocError>
    ensures exact { IfOk result (λ found. found ≡ cases_in bytes.now) }
    ensures ready { IfOk result (λ found. IfSome found AreReady) }
{
    let input = read_plain(alloc, bytes)?;
    Ok(input)
}

/// Parses the input of `lockcheck`. Returns `None` if and only if the bytes are not a JSON text (RFC 8259) with at most
/// 127 levels of nesting, contain a float, or are not an object of a case and a text.
pub fn read_check_input(alloc: Global, bytes: &[u8]) -> Result<Option<CheckInput>, AllocError>
    ensures exact { IfOk result (λ found. found ≡ check_in bytes.now) }
    ensures ready { IfOk result (λ found. IfSome found (λ input. IsReady input.case)) }
{
    let input = read_plain(alloc, bytes)?;
    Ok(input)
}
