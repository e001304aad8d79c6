//! The subcommands of the program: pulls of a recorded case with their report, canonical texts of JSON, whether a
//! recorded chain holds, lock files, responses to admission reviews, and mirrors.
#![tactic(auto)]

mod canon;
mod check;
mod command;
mod generated;
mod input;
mod lock;
mod mirror;
mod mirror_input;
mod mirror_output;
mod mirrors;
mod output;
mod prints;
mod program;
mod pull;
mod review;
mod status;
mod target;
mod task;
mod word;

pub use canon::canon_line;
pub use check::check_chain;
pub use command::{Command, command_of};
pub use mirror_input::{MirrorInput, Target, read_mirror_input};
pub use mirrors::mirror_case;
pub use program::run;
pub use status::Status;
pub use task::Task;
pub use word::{Word, word_of};
