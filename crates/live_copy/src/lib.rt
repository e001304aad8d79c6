//! A copy of an image's documents with a host: they are decided on at the source, the target is asked what its tags
//! name, the host carries the blobs, and the target is asked whether it has each blob before the documents are pushed.
#![tactic(auto)]

mod delivery;
mod heads;
mod live;
mod opening;
mod pushes;
mod questions;
mod refusals;
mod settings;
mod tags;
mod targets;

pub use live::serve_copy;
pub use refusals::TargetRefusal;
pub use settings::{CopySettings, read_copy_settings};
pub use targets::free_target;
