ghost use Rattle.std.specs.Prelude.{◌≡◌, Some, []};

use crate::sink::{Sink, SinkError};
use json_values::Blob;
use std::alloc::Global;

/// Collects all bytes in memory, and never fails.
#[derive(Drop)]
pub struct PlainSink {
    bytes: Vec<u8>,
}

impl PlainSink {
    ghost use Rattle.byte_streams.specs.Sinks.{plain_sink_state};

    /// Creates an empty sink.
    pub fn new(alloc: Global) -> PlainSink
        ensures { (plain_sink_state result).taken ≡ Some [] }
    {
        PlainSink {
            bytes: Vec::new(alloc),
        }
    }

    /// Returns the bytes without copying them.
    pub fn into_blob(self) -> Blob
        ensures { (plain_sink_state self).taken ≡ Some result }
    {
        Blob::from_vec(self.bytes)
    }

    /// Returns the bytes so far.
    pub fn taken(&self) -> &[u8]
        ensures { (plain_sink_state self.now).taken ≡ Some result.now }
    {
        self.bytes.as_slice()
    }
}

impl Sink for PlainSink {
    ghost use Rattle.byte_streams.specs.Sinks.{plain_sink_state};

    ghost state = { plain_sink_state };

    fn put(&mut self, piece: &[u8]) -> Result<usize, SinkError> {
        match self.bytes.extend_from_slice(piece) {
            Ok(()) => Ok(piece.len()),
            Err(_) => Err(SinkError::WantOfMemory),
        }
    }

    fn faults(&self) -> u64 {
        0
    }
}
