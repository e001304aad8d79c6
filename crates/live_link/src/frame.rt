use json_values::{Blob, Json};

/// A frame that was read: the object of its line, and the bytes after it.
#[derive(Drop)]
pub struct Frame {
    pub head: Json,
    pub bytes: Blob,
}
