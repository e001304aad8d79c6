//! Recorded cases: what to pull, under which policy, and what the registry responds with, read from JSON by a table.
#![tactic(auto)]

mod answer;
mod case;
mod constraint;
mod credentials;
mod entries;
mod faultless_shelf;
mod headers;
mod members;
mod moved;
mod platform;
mod policy;
mod registry;
mod replay;
mod shelf;
mod trust;

pub use case::{Case, read_case};
pub use constraint::WrittenConstraint;
pub use entries::{Entries, Entry, OrUsual, Usual};
pub use members::{Moments, ReferenceText};
pub use platform::Platform;
pub use policy::constraints_from;
pub use registry::{Registry, read_registry};
pub use replay::Replay;
