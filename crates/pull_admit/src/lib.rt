//! Admission reviews of Kubernetes: the images that a review asks for, a decision about each, and the response; what
//! the subcommand `review` reads and writes.
#![tactic(auto)]

mod decision;
mod decisions;
mod input;
mod message;
mod respond;
mod responses;
mod verdicts;

pub use decision::{Decision, DenyCause};
pub use decisions::review;
pub use input::{ReviewInput, read_review_input};
pub use message::all_allowed;
pub use pod_reviews::{Review, ReviewError, ReviewImage, read_review};
pub use respond::response;
pub use responses::review_case;
pub use verdicts::responses_agree;
