ghost use Rattle.std.specs.Prelude.{◌≡◌, ◌≤◌, length, Some};

use crate::give::give;
use crate::source::{Failed, Source};
use json_values::Blob;

/// Returns bytes in memory, and never fails.
#[derive(Drop)]
pub struct PlainSource {
    content: Blob,
    at: usize,
    ghost within: { at ≤ length content },
}

impl PlainSource {
    ghost use Rattle.byte_streams.specs.PlainSource.{source_state};

    /// Creates a source with all of the content left.
    pub fn new(content: Blob) -> PlainSource
        ensures { (source_state result).left ≡ Some content }
    {
        PlainSource { content, at: 0 }
    }
}

impl Source for PlainSource {
    ghost use Rattle.byte_streams.specs.PlainSource.{source_state};

    ghost state = { source_state };

    fn take(&mut self, room: &mut [u8]) -> Result<usize, Failed> {
        let count = give(self.content.as_slice(), self.at, room);
        self.at += count;
        Ok(count)
    }

    fn faults(&self) -> u64 {
        0
    }
}
