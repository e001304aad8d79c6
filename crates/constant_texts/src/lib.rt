//! The text or the value of each public constant of the library.
#![tactic(auto)]

mod texts;

pub use texts::{defaults_are_these, media_types_are_these, names_are_these, numbers_are_these};
