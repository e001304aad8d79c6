// Cached responses, each under the key of its call.
ghost use Rattle.std.specs.Prelude.{◌≡◌, [], OnOk, OnErr, IfOk};
ghost use Rattle.registry_cache.specs.Answers.{is_of, is_fresh, fresh, keep};
ghost use Rattle.registry_cache.specs.Weights.{entry_weight};

use crate::answer::{Answer, Kind};
use crate::entries::Entries;
use crate::weights::Weighs;
use json_values::{Blob, Copied, row};
use std::alloc::{AllocError, Global};

/// A response, the key text of its call, and when the call was made, in seconds since 1970.
#[derive(Drop)]
pub struct Entry {
    pub key: Blob,
    pub moment: u64,
    pub answer: Answer,
}

/// The maximum size of a cache.
#[derive(Drop)]
pub struct Bounds {
    /// The maximum number of responses.
    pub answers: u64,
    /// The maximum number of bytes that they hold.
    pub bytes: u64,
}

/// Cached responses, each returned for less than 60 seconds, the latest last.
#[derive(Drop)]
pub struct Answers {
    bounds: Option<Bounds>,
    entries: Entries,
}

impl Entry {
    pub(crate) fn is_of(&self, kind: Kind, key: &[u8]) -> bool
        ensures { result ≡ is_of kind key.now self.now }
    {
        self.answer.kind().is(kind) && self.key.as_slice() == key
    }
}

impl Weighs for Entry {
    ghost weight = { entry_weight };

    fn weight(&self) -> u128 {
        row![&self.key, &self.answer].weight()
    }
}

// Whether a response that was cached at `since` is still returned at `now`.
fn is_fresh(now: u64, since: u64) -> bool
    ensures { result ≡ is_fresh now since }
{
    since <= now && now - since < 60
}

impl Answers {
    /// Returns an empty cache. Without bounds an entry is only removed when one with the same key replaces it.
    pub fn new(alloc: Global, bounds: Option<Bounds>) -> Answers
        ensures { result ≡ record { bounds = bounds; entries = [] } }
    {
        Answers {
            bounds,
            entries: Entries::new(alloc),
        }
    }

    /// Returns a copy of the response that is cached under this key, if it was cached not after this moment and less
    /// than 60 seconds before it.
    pub fn fresh(
        &self,
        alloc: Global,
        kind: Kind,
        key: &[u8],
        moment: u64,
    ) -> Result<Option<Answer>, AllocError>
        ensures { IfOk result (λ answer. answer ≡ fresh kind key.now moment self.now) }
    {
        match self.entries.find(kind, key) {
            Some(entry) if is_fresh(moment, entry.moment) => {
                let answer = entry.answer.copy(alloc)?;
                Ok(Some(answer))
            }
            _ => Ok(None),
        }
    }

    /// Caches a response; it replaces the one under its key. Evicts the oldest entries until the others are within the
    /// bounds.
    pub fn keep(&mut self, _alloc: Global, entry: Entry) -> Result<(), AllocError>
        ensures ok { OnOk result (self.new ≡ keep entry self.old) }
        ensures err { OnErr result (self.new ≡ self.old) }
    {
        self.entries.put(entry)?;
        if let Some(bounds) = &self.bounds {
            self.entries.cut(bounds);
        }
        Ok(())
    }
}
