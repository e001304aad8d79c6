// The frames of a review.
ghost use Rattle.std.specs.Prelude.{◌≡◌, IfOk, false};
ghost use Rattle.serde_json.specs.View.{view};
ghost use Rattle.serde_json.specs.Written.{has_float};
ghost use Rattle.json_tables.specs.Outcomes.{ReadsTo};
ghost use Rattle.live_admit.specs.Frames.{image_head, response_head, review_frame_of, unreadable_head};

use json_tables::{ReadError, Reads, object, only, read_row};
use json_values::{Json, Text, row};
use live_host::is_frame;
use serde_json::Value;
use std::alloc::{AllocError, Global};

/// The frame `review`.
#[derive(Drop)]
pub struct ReviewFrame {
    /// When the review came, in seconds since 1970.
    pub moment: u64,
    /// Whether the response has a patch that pins the images.
    pub mutate: bool,
    /// The JSON text of the review, as it came.
    pub review: Text,
}

const NAMES: &[&str] = &["moment", "mutate", "review", "frame"];

impl Reads for ReviewFrame {
    ghost use Rattle.live_admit.specs.Frames.{review_frame_of};

    ghost reading = { review_frame_of };

    #[tactic(auto, unfolding(crate::specs::Frames::review_frame_of))]
    fn read_value(alloc: Global, value: &Value) -> Result<ReviewFrame, ReadError> {
        only(value, NAMES)?;
        if !is_frame(value, "review") {
            return Err(ReadError::Shape);
        }
        let row![moment, mutate, review]: (u64, (bool, (Text, ()))) = read_row::<ReviewFrame, _>(
            alloc, value, NAMES,
        )?;
        Ok(ReviewFrame {
            moment,
            mutate,
            review,
        })
    }
}

/// Reads the frame `review`. Returns `Shape` if and only if the value is not such a frame.
pub(crate) fn read_review_frame(alloc: Global, value: &Value) -> Result<ReviewFrame, ReadError>
    ensures { ReadsTo result (review_frame_of (view value.now)) }
{
    ReviewFrame::read_value(alloc, value)
}

/// Returns the frame that says which image is decided next, and under which rule.
pub(crate) fn image_head(alloc: Global, image: &Text, rule: &Text) -> Result<Json, AllocError>
    ensures head { IfOk result (λ head. head ≡ image_head image.now rule.now) }
    ensures plain { IfOk result (λ head. has_float head ≡ false) }
{
    let head = object!(alloc, { "frame": &"image", "image": image, "rule": rule })?;
    Ok(Json::new(head))
}

/// Returns the frame of a response.
pub(crate) fn response_head(alloc: Global, response: &Text) -> Result<Json, AllocError>
    ensures head { IfOk result (λ head. head ≡ response_head response.now) }
    ensures plain { IfOk result (λ head. has_float head ≡ false) }
{
    let head = object!(alloc, { "frame": &"response", "response": response })?;
    Ok(Json::new(head))
}

/// Returns the frame that says that a text is not a review of a Pod.
pub(crate) fn unreadable_head(alloc: Global) -> Result<Json, AllocError>
    ensures head { IfOk result (λ head. head ≡ unreadable_head) }
    ensures plain { IfOk result (λ head. has_float head ≡ false) }
{
    let head = object!(alloc, { "frame": &"unreadable" })?;
    Ok(Json::new(head))
}
