//! The protocol as trees of requests: their runs over a transport, and the laws of these runs.
#![tactic(auto)]

mod followed;
mod piped;
mod sender;

pub use followed::{Reached, reach};
pub use piped::{StreamBodyError, stream_body};
