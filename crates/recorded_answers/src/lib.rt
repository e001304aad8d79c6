//! What the tests share: results as `bool`, and a recorded registry.
#![tactic(auto)]

mod answers;
mod locations;
mod recorded;

pub use answers::{holds, is_written, json};
pub use locations::{Asked, is_asked, located};
pub use recorded::{CONFIG_DIGEST, LAYER_DIGEST, LAYER_TYPE, MANIFEST, MANIFEST_DIGEST, script};
