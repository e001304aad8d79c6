// What a request of a push contains.
use json_values::{Blob, Text};

/// What a request of a push contains: no bytes, a whole blob, a chunk of one with the offset of its first byte, or a
/// document with its media type.
#[derive(Drop)]
pub enum Content {
    Nothing,
    Whole(Blob),
    Chunk { start: u64, bytes: Blob },
    Document { media_type: Text, bytes: Blob },
}
