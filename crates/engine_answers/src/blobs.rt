// Decides how the response to a blob's request is read.
ghost use Rattle.std.specs.Prelude.{◌≡◌, List, ℕ, IfOk, []};
ghost use Rattle.json_values.specs.Refusals.{Matches};
ghost use Rattle.oci_digests.specs.Error.{is_memory as digest_is_memory};
ghost use Rattle.oci_digests.specs.Names.{digest_text};
ghost use Rattle.oci_digests.specs.Both.{BothHold, given_text, texts_of};
ghost use Rattle.engine_terms.specs.Error.{is_memory};
ghost use Rattle.engine_answers.specs.Blobs.{digest_expected, given_expected, pouring, plan_by};
ghost use Rattle.engine_answers.specs.Blobs.{plan_in, plan_of, compared, given_compared};
ghost use Rattle.engine_answers.specs.Blobs.{both_compared, given_algorithm};

use crate::answers::{header_in, is_success};
use engine_terms::OciDistributionError;
use json_values::{Copied, Text};
use oci_digests::{Algorithm, DigestError, Digesters, named_algorithm};
use oci_transport::AnswerHead;
use std::alloc::{AllocError, Global};

/// A digest text that must name the bytes, with its algorithm.
#[derive(Drop)]
pub struct Expected {
    pub text: Text,
    pub algorithm: Algorithm,
}

/// How a blob's response is read.
#[derive(Drop)]
pub enum Plan {
    /// Not at all, for this cause.
    Refuse(DigestError),
    /// Whole, for the refusal of its status.
    Judge,
    /// Piece by piece, against the digest of the header, if it names one, and against the descriptor's.
    Pour(Option<Expected>, Expected),
}

/// Returns a digest text with its algorithm, or an error if it is malformed or its algorithm is unknown.
pub fn digest_expected(alloc: Global, text: &str) -> Result<Expected, DigestError>
    ensures { Matches digest_is_memory result (digest_expected text.now) }
{
    let algorithm = named_algorithm(alloc, text)?;
    let text = Text::new(alloc, text)?;
    Ok(Expected { text, algorithm })
}

fn given_expected(alloc: Global, header: &Option<Text>) -> Result<Option<Expected>, DigestError>
    ensures { Matches digest_is_memory result (given_expected header.now) }
{
    match header {
        Some(text) => {
            let given = digest_expected(alloc, text.as_str())?;
            Ok(Some(given))
        }
        None => Ok(None),
    }
}

fn pouring(good: bool, given: Option<Expected>, own: Expected) -> Plan
    ensures { result ≡ pouring good given own }
{
    if good {
        return Plan::Pour(given, own);
    }
    Plan::Judge
}

fn plan_by(
    alloc: Global,
    good: bool,
    digest: &str,
    header: &Option<Text>,
) -> Result<Plan, DigestError>
    ensures { Matches digest_is_memory result (plan_by good digest.now header.now) }
{
    let given = given_expected(alloc, header)?;
    let own = digest_expected(alloc, digest)?;
    Ok(pouring(good, given, own))
}

fn plan_in(alloc: Global, digest: &str, head: &AnswerHead) -> Result<Plan, DigestError>
    ensures { Matches digest_is_memory result (plan_in digest.now head.now) }
{
    let header = header_in(alloc, &head.headers)?;
    let plan = plan_by(alloc, is_success(head.status), digest, &header)?;
    Ok(plan)
}

/// Returns how the response to a blob's request is read: the header's digest is checked, then the descriptor's, then
/// the status.
#[tactic(auto, unfolding(crate::specs::Blobs::plan_of))]
pub fn plan_of(alloc: Global, digest: &str, head: &AnswerHead) -> Result<Plan, AllocError>
    ensures { IfOk result (λ plan. plan ≡ plan_of digest.now head.now) }
{
    match plan_in(alloc, digest, head) {
        Ok(plan) => Ok(plan),
        Err(error) => {
            if error.is_memory() {
                return Err(AllocError);
            }
            Ok(Plan::Refuse(error))
        }
    }
}

fn given_algorithm(given: &Option<Expected>) -> Option<Algorithm>
    ensures { result ≡ given_algorithm given.now }
{
    match given {
        Some(given) => Some(given.algorithm),
        None => None,
    }
}

/// Returns digesters of the expected algorithms, with no input yet.
pub fn digesters(given: &Option<Expected>, own: &Expected) -> Digesters
    ensures { BothHold result (given_algorithm given.now) own.now.algorithm [] }
{
    Digesters::of(given_algorithm(given), own.algorithm)
}

// Checks that the digest of the bytes is the expected one.
fn compared(alloc: Global, actual: Text, expected: &Expected) -> Result<(), OciDistributionError>
    ensures { (m : List ℕ) → actual ≡ digest_text expected.now.algorithm m
        → Matches is_memory result (compared expected.now m) }
{
    if expected.text.as_str() == actual.as_str() {
        return Ok(());
    }
    let expected = expected.text.copy(alloc)?;
    Err(OciDistributionError::DigestError(DigestError::VerificationError { expected, actual }))
}

fn given_compared(
    alloc: Global,
    actual: Option<Text>,
    given: &Option<Expected>,
) -> Result<(), OciDistributionError>
    ensures { (m : List ℕ) → actual ≡ given_text (given_algorithm given.now) m
        → Matches is_memory result (given_compared given.now m) }
{
    match given {
        Some(given) => match actual {
            Some(actual) => {
                compared(alloc, actual, given)?;
                Ok(())
            }
            None => Ok(()),
        },
        None => Ok(()),
    }
}

/// Checks that the input of the digesters has both digests.
pub fn both_compared(
    alloc: Global,
    digesters: &mut Digesters,
    given: &Option<Expected>,
    own: &Expected,
) -> Result<(), OciDistributionError>
    ensures { (m : List ℕ) → BothHold digesters.old (given_algorithm given.now) own.now.algorithm m
        → Matches is_memory result (both_compared given.now own.now m) }
{
    let texts = digesters.texts(alloc)?;
    given_compared(alloc, texts.given, given)?;
    compared(alloc, texts.own, own)?;
    Ok(())
}
