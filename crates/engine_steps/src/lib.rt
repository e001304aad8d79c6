//! The steps that calls of the registry client share: ways to send a request, and the token step.
#![tactic(auto)]

mod asking;
mod given;
mod tokens;

pub use asking::{named_after, whole};
pub use given::token_given;
pub use tokens::{Target, authorized, prepared};
