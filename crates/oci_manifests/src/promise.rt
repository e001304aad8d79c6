//! What a platform resolver promises.
ghost use Rattle.std.specs.Prelude.{◌≡◌, ◌↔◌, IsTrue};
ghost use Rattle.oci_manifests.specs.Promise.{Picks, lists, picks};

use crate::index_entry::ImageIndexEntry;
use crate::resolvers::first_entry;
use json_values::{Copied, Text};
use oci_names::{Arch, Os};
use std::alloc::{AllocError, Global};

/// What a resolver returns for the entries of an index (OCI image specification, image-index.md).
#[derive(Debug, Drop)]
pub enum ResolverPromise {
    /// The digest of the first entry whose platform has this operating system and architecture, `None` without such an
    /// entry.
    FirstMatch { os: Os, architecture: Arch },
    /// This digest, for any entries.
    Fixed { digest: Text },
    /// Any result.
    Any,
}

impl ResolverPromise {
    /// Returns whether the promise allows this digest, and an entry has it.
    pub fn picks(&self, manifests: &[ImageIndexEntry], digest: &str) -> bool
        ensures same { result ≡ picks self.now manifests.now digest.now }
        ensures exact { IsTrue result ↔ Picks self.now manifests.now digest.now }
    {
        is_picked(self, manifests, digest)
    }
}

fn is_picked(promise: &ResolverPromise, manifests: &[ImageIndexEntry], digest: &str) -> bool
    ensures { result ≡ picks promise.now manifests.now digest.now }
{
    match promise {
        ResolverPromise::FirstMatch { os, architecture } => {
            match first_entry(os.as_str(), architecture.as_str(), manifests) {
                Some(entry) => entry.digest.as_str() == digest,
                None => false,
            }
        }
        ResolverPromise::Fixed { digest: fixed } => {
            fixed.as_str() == digest && lists(digest, manifests)
        }
        ResolverPromise::Any => lists(digest, manifests),
    }
}

fn lists(digest: &str, manifests: &[ImageIndexEntry]) -> bool
    ensures { result ≡ lists digest.now manifests.now }
{
    manifests
        .iter()
        .any(|entry| entry.digest.as_str() == digest)
}

impl Copied for ResolverPromise {
    fn copy(&self, alloc: Global) -> Result<ResolverPromise, AllocError> {
        match self {
            ResolverPromise::FirstMatch { os, architecture } => {
                let os = os.copy(alloc)?;
                let architecture = architecture.copy(alloc)?;
                Ok(ResolverPromise::FirstMatch { os, architecture })
            }
            ResolverPromise::Fixed { digest } => {
                let digest = digest.copy(alloc)?;
                Ok(ResolverPromise::Fixed { digest })
            }
            ResolverPromise::Any => Ok(ResolverPromise::Any),
        }
    }
}
