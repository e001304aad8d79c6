//! Streams of blobs: the body of a blob's response, returned piece by piece on request.
#![tactic(auto)]

mod asking;
mod blobs;
mod head;
mod laws;
mod range;
mod stream;

pub use blobs::{BlobResponse, pull_blob_stream, pull_blob_stream_partial};
pub use laws::pieces_are_the_body;
pub use range::ByteRange;
pub use stream::SizedStream;
