//! The pulls of a recorded case, with their report.
#![tactic(auto)]

mod once;
mod opening;
mod pulls;
mod report;

pub use once::{OnePull, pull_once};
pub use opening::{Opened, Terms, open_case};
pub use pulls::{pull_case, pull_over};
pub use report::Report;
