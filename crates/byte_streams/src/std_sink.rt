ghost use Rattle.std.specs.Prelude.{◌≡◌};

use crate::sink::{Sink, SinkError};
use std::io::Write;

/// Writes bytes to a `std` writer, for example standard output, and does not expose them. Each error of the writer
/// is a fault, and so is a write of length 0 of a non-empty piece; nothing else is.
#[derive(Drop)]
pub struct StdSink<W> {
    writer: W,
    faults: u64,
}

impl<W: Write> StdSink<W> {
    ghost use Rattle.byte_streams.specs.StdSink.{sink_state};

    /// Creates a sink without faults.
    pub fn new(writer: W) -> StdSink<W>
        ensures { (sink_state result).faults ≡ 0 }
    {
        StdSink { writer, faults: 0 }
    }
}

impl<W: Write> Sink for StdSink<W> {
    ghost use Rattle.byte_streams.specs.StdSink.{sink_state};

    ghost state = { sink_state };

    fn put(&mut self, piece: &[u8]) -> Result<usize, SinkError> {
        match self.writer.write(piece) {
            Ok(count) if count > 0 || piece.is_empty() => Ok(count),
            _ => {
                self.faults = self.faults.saturating_add(1);
                Err(SinkError::Failed)
            }
        }
    }

    fn faults(&self) -> u64 {
        self.faults
    }
}
