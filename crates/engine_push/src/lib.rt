//! Pushes of blobs, of manifests, of indexes and of whole images: uploads in chunks or whole, of bytes in memory or
//! from a source that gives them piece by piece; and the request of any push.
#![tactic(auto)]

mod bytes;
mod content;
mod images;
mod locations;
mod manifests;
mod memory_pieces;
mod mounting;
mod piece_source;
mod pieces;
mod stream;
mod uploads;
mod written;

pub use bytes::push_blob;
pub use images::{PushedImage, push};
pub use manifests::{push_manifest, push_manifest_list, push_manifest_raw};
pub use memory_pieces::MemoryPieces;
pub use mounting::mount_blob;
pub use piece_source::PieceSource;
pub use push_rows::{Content, PushBlobStreamChunkedResponse, PushResponse};
pub use stream::{push_blob_stream, push_blob_stream_chunked};
pub use uploads::sent;
