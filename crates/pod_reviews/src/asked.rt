// Which images a review asks for.
ghost use Rattle.std.specs.Prelude.{◌≡◌};
ghost use Rattle.serde_json.specs.View.{view};
ghost use Rattle.json_tables.specs.Outcomes.{ReadsTo};
ghost use Rattle.json_tables.specs.Member.{required};
ghost use Rattle.pod_reviews.specs.Asked.{the, review_of, plain_review_of, ReadsReview};

use crate::images::{ReviewImage, read_images};
use json_tables::{ReadError, Reads, read_document, required};
use json_values::{List, Text};
use serde_json::Value;
use std::alloc::Global;
use thiserror::Error;

/// What an admission review asks for: whether the containers of a Pod may run these images.
#[derive(Drop)]
pub struct Review {
    /// The id of the request, which the response repeats.
    pub uid: Text,
    /// In the order of `initContainers`, `containers` and `ephemeralContainers`.
    pub images: List<ReviewImage>,
}

/// Why a value is not a review.
#[derive(Debug, Drop, Error)]
pub enum ReviewError {
    /// The value is not an `AdmissionReview` of a Pod, or contains a float.
    #[error("the value is not an admission review of a Pod: send the request of an API server (admission.k8s.io/v1)")]
    Unreadable,
    #[error("out of memory: free some and try again")]
    WantOfMemory,
}

/// Accepts a member that is this string.
pub(crate) fn the(value: &Value, name: &str, text: &str) -> Result<(), ReadError>
    ensures { ReadsTo result (required (the text.now) name.now (view value.now)) }
{
    match value.get(name) {
        Some(Value::String(found)) if found.as_str() == text => Ok(()),
        _ => Err(ReadError::Shape),
    }
}

impl Reads for Review {
    ghost reading = { review_of };

    #[tactic(auto, unfolding(crate::specs::Asked::review_of))]
    fn read_value(alloc: Global, value: &Value) -> Result<Review, ReadError> {
        the(value, "apiVersion", "admission.k8s.io/v1")?;
        the(value, "kind", "AdmissionReview")?;
        let Some(request) = value.get("request") else {
            return Err(ReadError::Shape);
        };
        let Some(object) = request.get("object") else {
            return Err(ReadError::Shape);
        };
        let Some(spec) = object.get("spec") else {
            return Err(ReadError::Shape);
        };
        let images = read_images(alloc, spec)?;
        let uid = required(alloc, request, "uid")?;
        Ok(Review { uid, images })
    }
}

/// Reads an `AdmissionReview` of a Pod (Kubernetes, `admission.k8s.io/v1`): the images of its `initContainers`,
/// `containers` and `ephemeralContainers`, of which the first and the last may be absent. Other members are ignored.
///
/// Returns `Unreadable` if the value contains a float, a member that is read has another type, one other than
/// `initContainers` and `ephemeralContainers` is absent, or `containers` is empty.
pub fn read_review(alloc: Global, value: &Value) -> Result<Review, ReviewError>
    ensures exact { ReadsReview result (plain_review_of (view value.now)) }
{
    match read_document(alloc, value) {
        Ok(review) => Ok(review),
        Err(ReadError::WantOfMemory) => Err(ReviewError::WantOfMemory),
        Err(_) => Err(ReviewError::Unreadable),
    }
}
