//! The printed output of a pull: its report, and each refusal in one line.
#![tactic(auto)]

mod lines;
mod printed;
mod refusal;
mod registry;
mod report;
mod search;
mod values;

pub use lines::{Line, print_line, text_line, write_lines};
pub use printed::Printed;
pub use report::{drop_outcome, write_outcome, write_refusal, write_report};
