//! The rows of the registry client: what each call requests, in which order, and how it interprets the responses, as
//! definitions. The code that meets them, and the laws of all their runs, depend on these alone.
#![tactic(auto)]

mod image;
mod named;
mod reached;

pub use image::{ImageData, config_of, image_manifest, layer_of, layers_accepted};
pub use named::NamedAnswer;
pub use reached::got_of;
