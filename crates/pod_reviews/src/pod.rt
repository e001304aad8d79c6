// Which images a review of a Pod asks for, volumes included.
ghost use Rattle.std.specs.Prelude.{◌≡◌, IfOk};
ghost use Rattle.json_tables.specs.Plain.{read_plain};
ghost use Rattle.pod_reviews.specs.Places.{pod_review_of};

use crate::asked::the;
use crate::places::{PlacedImage, read_pod_images};
use json_tables::{ReadError, Reads, read_plain, required};
use json_values::{List, Text};
use serde_json::Value;
use std::alloc::{AllocError, Global};

/// What an admission review of a Pod asks for: whether it may run these images.
#[derive(Drop)]
pub struct PodReview {
    /// The id of the request, which the response repeats.
    pub uid: Text,
    /// In the order of `initContainers`, `containers`, `ephemeralContainers` and `volumes`.
    pub images: List<PlacedImage>,
}

impl Reads for PodReview {
    ghost use Rattle.pod_reviews.specs.Places.{pod_review_of};

    ghost reading = { pod_review_of };

    #[tactic(auto, unfolding(crate::specs::Places::pod_review_of))]
    fn read_value(alloc: Global, value: &Value) -> Result<PodReview, ReadError> {
        the(value, "apiVersion", "admission.k8s.io/v1")?;
        the(value, "kind", "AdmissionReview")?;
        let Some(request) = value.get("request") else {
            return Err(ReadError::Shape);
        };
        let Some(object) = request.get("object") else {
            return Err(ReadError::Shape);
        };
        let Some(spec) = object.get("spec") else {
            return Err(ReadError::Shape);
        };
        let images = read_pod_images(alloc, spec)?;
        let uid = required(alloc, request, "uid")?;
        Ok(PodReview { uid, images })
    }
}

/// Parses an `AdmissionReview` of a Pod (Kubernetes, `admission.k8s.io/v1`): the images of its containers and of its
/// image volumes. Returns `None` if and only if the bytes are not a JSON text (RFC 8259) or contain a float, a member that
/// is read has another type, one other than `initContainers`, `ephemeralContainers` and `volumes` is absent, or
/// `containers` is empty.
pub fn read_pod_review(alloc: Global, bytes: &[u8]) -> Result<Option<PodReview>, AllocError>
    ensures exact { IfOk result (λ found. found ≡ read_plain pod_review_of bytes.now) }
{
    let review = read_plain(alloc, bytes)?;
    Ok(review)
}
