//! An image's blobs as they are received: each by its digest, cut at its size, into a sink that the caller opens for
//! it; and bytes from a source, checked against a descriptor.
#![tactic(auto)]

mod attempts;
mod blobs;
mod bodies;
mod checked;
mod laws;
mod pulls;
mod sinks;

pub use checked::{check_blob, digester_of};
pub use laws::documents_with_blobs_are_images;
pub use pulls::{BlobRange, descriptor_at, pull_blobs};
pub use sinks::Sinks;
