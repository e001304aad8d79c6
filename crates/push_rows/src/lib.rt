//! The rows of the calls that push: what each requests, why it is refused, and what its requests contain, as
//! definitions, with the types that they are about. The code that meets them, and the laws of all their runs, depend on
//! these alone.
#![tactic(auto)]

mod content;
mod responses;

pub use content::Content;
pub use responses::{PushBlobStreamChunkedResponse, PushResponse};
