// Sinks that drop their bytes.
ghost use Rattle.std.specs.Prelude.{◌≡◌, ◌≤◌, ◌+◌, map, if◌then◌else◌};
ghost use Rattle.live_blobs.specs.Discarded.{closed_by, stood_among};

use byte_streams::{Sink, SinkError};
use http_server::Log;
use image_blobs::Sinks;
use std::alloc::Global;

/// A sink that drops its bytes.
#[derive(Drop)]
pub(crate) struct Discard;

impl Sink for Discard {
    ghost use Rattle.live_blobs.specs.Discarded.{discarded};

    ghost state = { λ _. discarded };

    fn put(&mut self, piece: &[u8]) -> Result<usize, SinkError> {
        Ok(piece.len())
    }

    fn faults(&self) -> u64 {
        0
    }
}

/// Notes the bytes of a text, for proofs only.
pub fn noted(text: &str) -> Log<u8, ()>
    ensures { map (λ byte. byte.0) result.items ≡ text.now }
{
    let mut log = Log::new();
    for byte in text.as_bytes() {
        log = log.and(byte, &());
    }
    log
}

// Counts one more, if it stood.
fn with_one(count: usize, stood: bool) -> usize
    ensures { result ≤ (if stood then 1 else 0) + count }
{
    if stood {
        return count.saturating_add(1);
    }
    count
}

/// Opens a sink that drops its bytes for each blob, and counts those that were told that they have it.
#[derive(Drop)]
pub(crate) struct DiscardSinks {
    stood: usize,
    // For proofs only: each sink that was closed, by its digest and by what it was told.
    closed: Log<Log<u8, ()>, bool>,
    ghost counted: { stood ≤ stood_among (map closed_by closed.items) },
}

impl DiscardSinks {
    ghost use Rattle.std.specs.Prelude.{Some, []};
    ghost use Rattle.live_blobs.specs.DiscardState.{closed_of, discard_state};

    /// No sink was closed yet.
    pub fn new() -> DiscardSinks
        ensures { (discard_state result).closed ≡ Some [] }
    {
        DiscardSinks {
            stood: 0,
            closed: Log::new(),
        }
    }

    /// Returns how many sinks were told that they have their blob.
    pub fn count(&self) -> usize
        ensures { result ≤ stood_among (closed_of self.now) }
    {
        self.stood
    }
}

impl Sinks for DiscardSinks {
    ghost use Rattle.live_blobs.specs.DiscardState.{discard_state};
    ghost use Rattle.live_blobs.specs.Discarded.{discarded};

    type Sink = Discard;

    ghost state = { discard_state };

    ghost fresh = { discarded };

    fn open(&mut self, _alloc: Global, _digest: &str) -> Result<Discard, SinkError> {
        Ok(Discard)
    }

    fn close(
        &mut self,
        _alloc: Global,
        digest: &str,
        _sink: Discard,
        stood: bool,
    ) -> Result<(), SinkError> {
        let entry = noted(digest);
        self.closed = self.closed.and(&entry, &stood);
        let count = with_one(self.stood, stood);
        self.stood = count;
        Ok(())
    }

    fn faults(&self) -> u64 {
        0
    }
}
