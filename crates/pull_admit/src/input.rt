// The input of `review`.
ghost use Rattle.std.specs.Prelude.{◌≡◌, IfOk, IfSome};
ghost use Rattle.serde_json.specs.View.{view};
ghost use Rattle.json_tables.specs.Outcomes.{ReadsTo};
ghost use Rattle.pull_admit.specs.Input.{IsForReview, has_one, is_settings, only_settings};
ghost use Rattle.pull_admit.specs.Input.{review_input_in, settings_of, with_reference};

use crate::Review;
use json_tables::{ReadError, Reads, only, read_plain, required};
use json_values::Json;
use recorded_case::Case;
use serde_json::{Value, put};
use std::alloc::{AllocError, Global};

/// A review, and how its images are pulled: `{"settings": settings, "review": object}`. The settings are a case without
/// `reference`, with one moment, and without `caching` true; the review is an `AdmissionReview` of a Pod.
#[derive(Drop)]
pub struct ReviewInput {
    /// The reference of this case is `a`, and is ignored.
    pub settings: Case,
    pub review: Review,
}

// The object with a reference, if it has none.
fn with_reference(alloc: Global, value: &Value) -> Result<Json, ReadError>
    ensures { ReadsTo result (with_reference (view value.now)) }
{
    if value.get("reference").is_some() {
        return Err(ReadError::Shape);
    }
    let Value::Object(mut members) = value.clone()? else {
        return Err(ReadError::Shape);
    };
    let reference = Value::String(String::from_str(alloc, "a")?);
    put(&mut members, alloc, "reference", reference)?;
    Ok(Json::new(Value::Object(members)))
}

fn has_one(moments: &[u64]) -> bool
    ensures { result ≡ has_one moments.now }
{
    matches!(moments, [_])
}

fn is_settings(case: &Case) -> bool
    ensures { result ≡ is_settings case.now }
{
    !case.caching && has_one(case.moments.as_slice())
}

// Accepts a case with one moment whose client does not cache.
fn only_settings(case: Case) -> Result<Case, ReadError>
    ensures { ReadsTo result (only_settings case) }
{
    if !is_settings(&case) {
        return Err(ReadError::Shape);
    }
    Ok(case)
}

#[tactic(auto, unfolding(crate::specs::Input::settings_of))]
fn read_settings(alloc: Global, value: &Value) -> Result<Case, ReadError>
    ensures { ReadsTo result (settings_of (view value.now)) }
{
    let asked = with_reference(alloc, value)?;
    let case = Reads::read_value(alloc, asked.value())?;
    only_settings(case)
}

impl Reads for ReviewInput {
    ghost use Rattle.pull_admit.specs.Input.{review_input_of};

    ghost reading = { review_input_of };

    #[tactic(auto, unfolding(crate::specs::Input::review_input_of))]
    fn read_value(alloc: Global, value: &Value) -> Result<ReviewInput, ReadError> {
        only(value, &["settings", "review"])?;
        let review: Review = required(alloc, value, "review")?;
        let Some(settings) = value.get("settings") else {
            return Err(ReadError::Shape);
        };
        let settings = read_settings(alloc, settings)?;
        Ok(ReviewInput { settings, review })
    }
}

/// Parses a review with its settings. Returns `None` if and only if the bytes are not a JSON text (RFC 8259) with at
/// most 127 levels of nesting, contain a float, or are not an object of settings and a review.
pub fn read_review_input(alloc: Global, bytes: &[u8]) -> Result<Option<ReviewInput>, AllocError>
    ensures exact { IfOk result (λ found. found ≡ review_input_in bytes.now) }
    ensures ready { IfOk result (λ found. IfSome found IsForReview) }
{
    let input = read_plain(alloc, bytes)?;
    Ok(input)
}
