ghost use Rattle.std.specs.Prelude.{◌≡◌};

use crate::source::{Failed, Source};
use std::io::Read;

/// Reads bytes from a `std` reader, for example standard input. Each error of the reader is a fault, nothing else is.
#[derive(Drop)]
pub struct StdSource<R> {
    reader: R,
    faults: u64,
}

impl<R: Read> StdSource<R> {
    ghost use Rattle.byte_streams.specs.StdSource.{source_state};

    /// Creates a source without faults.
    pub fn new(reader: R) -> StdSource<R>
        ensures left { (source_state R.remaining result).left ≡ R.remaining reader }
        ensures faults { (source_state R.remaining result).faults ≡ 0 }
    {
        StdSource { reader, faults: 0 }
    }
}

impl<R: Read> Source for StdSource<R> {
    ghost use Rattle.byte_streams.specs.StdSource.{source_state};

    ghost state = { source_state R.remaining };

    fn take(&mut self, room: &mut [u8]) -> Result<usize, Failed> {
        match self.reader.read(room) {
            Ok(count) => Ok(count),
            Err(_) => {
                self.faults = self.faults.saturating_add(1);
                Err(Failed)
            }
        }
    }

    fn faults(&self) -> u64 {
        self.faults
    }
}
