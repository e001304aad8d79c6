//! References to images, the algorithms of digests, and the names of platforms.
#![tactic(auto)]

mod algorithm;
mod grammar;
mod parse_error;
mod parts;
mod platform;
mod reference;

pub use algorithm::Algorithm;
pub use parse_error::ParseError;
pub use platform::{Arch, Os};
pub use reference::Reference;
