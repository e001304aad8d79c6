// The response to a review.
ghost use Rattle.std.specs.Prelude.{◌≡◌, ◌↔◌, length, true, All, IfOk, IsTrue, ⊤};
ghost use Rattle.serde_json.specs.View.{view};
ghost use Rattle.json_events.specs.Canonical.{Canonical};
ghost use Rattle.pull_admit.specs.Responses.{all_allowed, message, response_data, outcome_data, status_if, IsAllowed};

use crate::decision::Decision;
use crate::message::{all_allowed, message};
use json_canon::to_string;
use json_tables::{Field, Required, object};
use json_values::{Json, List, Text};
use pod_reviews::Review;
use serde_json::{Map, Value, put};
use std::alloc::{AllocError, Global};

// The member `status`, which is absent if everything is allowed.
#[derive(Drop)]
struct Status<'a> {
    allowed: bool,
    message: &'a Text,
}

impl<'a> Field for Status<'a> {
    ghost field = { λ status. status_if status.allowed status.message.now };

    ghost Known = { λ _. ⊤ };

    fn put_in(
        &self,
        alloc: Global,
        members: &mut Map<String, Value>,
        name: &str,
    ) -> Result<(), AllocError> {
        if self.allowed {
            return Ok(());
        }
        let value = object!(alloc, { "message": self.message })?;
        put(members, alloc, name, value)
    }
}

// The member `response`.
fn outcome(alloc: Global, review: &Review, decisions: &[Decision]) -> Result<Json, AllocError>
    ensures { IfOk result (λ json. json ≡ outcome_data (all_allowed decisions.now)
        (message review.now.images decisions.now) review.now.uid) }
{
    let allowed = all_allowed(decisions);
    let message = message(alloc, review.images.as_slice(), decisions)?;
    let value = object!(alloc, {
        "allowed": &Required(&allowed),
        "status": &Status { allowed, message: &message },
        "uid": &review.uid,
    })?;
    Ok(Json::new(value))
}

fn response_json(alloc: Global, review: &Review, decisions: &[Decision]) -> Result<Json, AllocError>
    ensures { IfOk result (λ json. json ≡ response_data review.now decisions.now) }
{
    let outcome = outcome(alloc, review, decisions)?;
    let value = object!(alloc, {
        "apiVersion": &"admission.k8s.io/v1",
        "kind": &"AdmissionReview",
        "response": &outcome,
    })?;
    Ok(Json::new(value))
}

/// Returns the response to a review, an `AdmissionReview` as canonical JSON (RFC 8785): `response.allowed` is true if
/// and only if every decision is `Allow`; otherwise `response.status.message` has, for each denied image, its name,
/// `: ` and the cause on one line, separated by `; `. There is one decision for each image, in order.
pub fn response(
    alloc: Global,
    review: &Review,
    decisions: &List<Decision>,
) -> Result<Text, AllocError>
    requires { length decisions.now ≡ length review.now.images }
    ensures text { IfOk result (λ text. Canonical (response_data review.now decisions.now) text) }
    ensures allowed { (all_allowed decisions.now ≡ true) ↔ All IsAllowed decisions.now }
{
    let json = response_json(alloc, review, decisions.as_slice())?;
    // It holds no number, so that only memory may be wanting.
    match to_string(alloc, &json) {
        Ok(text) => Ok(text),
        Err(_) => Err(AllocError),
    }
}
