//! Admission reviews with a host: each image of a review is decided under the rule that covers it, and the response to
//! the review is sent.
#![tactic(auto)]

mod clients;
mod decision;
mod frames;
mod image;
mod images;
mod outcome;
mod place;
mod review;
mod rule;
mod rules;
mod serve;
mod settings;

pub use frames::ReviewFrame;
pub use rule::Rule;
pub use rules::{index_for, rule_for};
pub use serve::serve_admit;
pub use settings::{AdmitSettings, read_admit_settings};
