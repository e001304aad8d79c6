//! The provided resolvers.
ghost use Rattle.std.specs.Prelude.{◌≡◌, IfOk, codes, option_copied};
ghost use Rattle.std.specs.List.{find};
ghost use Rattle.oci_manifests.specs.Resolvers.{first_for, is_for};

use crate::index_entry::ImageIndexEntry;
use json_values::{Copied, Text};
use oci_names::{Arch, Os};
use std::alloc::{AllocError, Global};

/// Returns the digest of the first entry for Linux on 64-bit x86.
pub fn linux_amd64_resolver(
    alloc: Global,
    manifests: &[ImageIndexEntry],
) -> Result<Option<Text>, AllocError>
    ensures { IfOk result (λ digest. digest ≡ first_for (codes "linux") (codes "amd64") manifests.now) }
{
    first_for(alloc, Os::LINUX, Arch::AMD64, manifests)
}

/// Returns the digest of the first entry for Windows on 64-bit x86.
pub fn windows_amd64_resolver(
    alloc: Global,
    manifests: &[ImageIndexEntry],
) -> Result<Option<Text>, AllocError>
    ensures { IfOk result (λ digest. digest ≡ first_for (codes "windows") (codes "amd64") manifests.now) }
{
    first_for(alloc, Os::WINDOWS, Arch::AMD64, manifests)
}

/// Returns the digest of the first entry for the operating system and architecture of the caller.
pub fn current_platform_resolver(
    alloc: Global,
    os: &Os,
    architecture: &Arch,
    manifests: &[ImageIndexEntry],
) -> Result<Option<Text>, AllocError>
    ensures { IfOk result (λ digest. digest ≡ first_for os.now architecture.now manifests.now) }
{
    first_for(alloc, os.as_str(), architecture.as_str(), manifests)
}

fn first_for(
    alloc: Global,
    os: &str,
    architecture: &str,
    manifests: &[ImageIndexEntry],
) -> Result<Option<Text>, AllocError>
    ensures { IfOk result (λ digest. digest ≡ first_for os.now architecture.now manifests.now) }
{
    match first_entry(os, architecture, manifests) {
        Some(entry) => {
            let digest = entry.digest.copy(alloc)?;
            Ok(Some(digest))
        }
        None => Ok(None),
    }
}

// Returns the first entry for this operating system and architecture.
pub(crate) fn first_entry<'a>(
    os: &str,
    architecture: &str,
    manifests: &'a [ImageIndexEntry],
) -> Option<&'a ImageIndexEntry>
    ensures { option_copied result ≡ find (is_for os.now architecture.now) manifests.now }
{
    manifests
        .iter()
        .find(|entry| is_for(os, architecture, entry))
}

// Returns whether the entry is for this operating system and architecture.
fn is_for(os: &str, architecture: &str, entry: &ImageIndexEntry) -> bool
    ensures { result ≡ is_for os.now architecture.now entry.now }
{
    match &entry.platform {
        Some(platform) => {
            platform.os.as_str() == os && platform.architecture.as_str() == architecture
        }
        None => false,
    }
}
