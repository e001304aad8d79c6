//! Admission reviews of Kubernetes: the images that a Pod asks for, a verdict about each, the response and its patch.
#![tactic(auto)]

mod asked;
mod images;
mod message;
mod pins;
mod places;
mod pod;
mod respond;
mod verdict;

pub use asked::{Review, ReviewError, read_review};
pub use images::ReviewImage;
pub use pins::Pin;
pub use places::PlacedImage;
pub use pod::{PodReview, read_pod_review};
pub use respond::respond_verdicts;
pub use verdict::{Denial, Verdict, all_allowed};
