//! A generated image in a registry in memory, with its signature, and its verified pull.
#![tactic(auto)]

mod call;
mod layers;
mod shelf;
mod terms;
mod texts;

pub use call::pull_generated;
pub use shelf::{generated_shelf, payload_digest};
