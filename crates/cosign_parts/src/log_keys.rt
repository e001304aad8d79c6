//! Keys of transparency logs.
use json_values::{Blob, TextMap};

/// The keys of transparency logs, by their log ids.
pub type LogKeys = TextMap<Blob>;
