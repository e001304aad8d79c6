//! The calls that the search for signatures and the pull need of a registry's client, whichever client it is.
#![tactic(auto)]

mod capabilities;
mod error;
mod error_context;
mod reference;

pub use capabilities::ClientCapabilities;
pub use error::SigstoreError;
pub use error_context::{Called, with_error_context};
pub use reference::OciReference;
