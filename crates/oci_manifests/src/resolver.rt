//! A platform resolver.
ghost use Rattle.std.specs.Prelude.{◌≡◌, IfOk};
ghost use Rattle.oci_manifests.specs.Promise.{Promised, resolved};
ghost use Rattle.oci_manifests.specs.declared.promise.ResolverPromise.TheVariants.{FirstMatch, Fixed};

use crate::index_entry::ImageIndexEntry;
use crate::promise::ResolverPromise;
use crate::resolvers::current_platform_resolver;
use json_values::{Copied, Text};
use oci_names::{Arch, Os};
use std::alloc::{AllocError, Global};
use std::marker::Model;

/// Selects an image of an index by the digest of its entry. A contract sees what it promises.
#[derive(Debug, Drop)]
pub struct PlatformResolver {
    promise: ResolverPromise,
}

impl Model for PlatformResolver {
    ghost use Rattle.oci_manifests.specs.declared.promise.ResolverPromise.{ResolverPromise};

    ghost Value = { ResolverPromise };

    ghost view = { λ resolver. resolver.promise };
}

impl PlatformResolver {
    /// Creates a resolver that selects the first entry for this operating system and architecture.
    pub fn first_match(os: Os, architecture: Arch) -> PlatformResolver
        ensures { result ≡ FirstMatch os architecture }
    {
        PlatformResolver {
            promise: ResolverPromise::FirstMatch { os, architecture },
        }
    }

    /// Creates a resolver that selects this digest for any entries.
    pub fn fixed(digest: Text) -> PlatformResolver
        ensures { result ≡ Fixed digest }
    {
        PlatformResolver {
            promise: ResolverPromise::Fixed { digest },
        }
    }

    /// Returns what it promises.
    pub fn promise(&self) -> &ResolverPromise
        ensures { result.now ≡ self.now }
    {
        &self.promise
    }

    /// Returns the selected digest as promised, and `None` if any result is promised.
    pub fn resolve(
        &self,
        alloc: Global,
        manifests: &[ImageIndexEntry],
    ) -> Result<Option<Text>, AllocError>
        ensures exact { IfOk result (λ digest. digest ≡ resolved self.now manifests.now) }
        ensures kept { IfOk result (Promised self.now manifests.now) }
    {
        match &self.promise {
            ResolverPromise::FirstMatch { os, architecture } => {
                current_platform_resolver(alloc, os, architecture, manifests)
            }
            ResolverPromise::Fixed { digest } => {
                let digest = digest.copy(alloc)?;
                Ok(Some(digest))
            }
            ResolverPromise::Any => Ok(None),
        }
    }
}

impl Copied for PlatformResolver {
    fn copy(&self, alloc: Global) -> Result<PlatformResolver, AllocError> {
        let promise = self.promise.copy(alloc)?;
        Ok(PlatformResolver { promise })
    }
}
