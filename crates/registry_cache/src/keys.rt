// The keys of cached responses.
ghost use Rattle.std.specs.Prelude.{◌≡◌, IfOk, option_copied};
ghost use Rattle.oci_names.specs.Reference.{reads_back};
ghost use Rattle.registry_cache.specs.Keys.{manifest_key, pull_key, referrers_key};
ghost use Rattle.registry_cache.specs.Caching.{key_if};

use crate::manifest_settings::PullManifestSettings;
use crate::pull_settings::PullSettings;
use crate::referrers_settings::PullReferrersSettings;
use json_values::{Blob, Text};
use oci_auth::RegistryAuth;
use oci_names::Reference;
use std::alloc::{AllocError, Global};

// The key, if the reference round-trips.
fn if_it_reads_back(alloc: Global, image: &Reference, key: Blob) -> Result<Option<Blob>, AllocError>
    ensures { IfOk result (λ found. found ≡ key_if (reads_back image.now) key) }
{
    let reads = image.reads_back(alloc)?;
    if !reads {
        return Ok(None);
    }
    Ok(Some(key))
}

/// Returns the key of a call for a digest or a manifest; `None` if the reference does not round-trip.
pub fn manifest_key(
    alloc: Global,
    image: &Reference,
    auth: &RegistryAuth,
) -> Result<Option<Blob>, AllocError>
    ensures { IfOk result (λ key. key ≡ key_if (reads_back image.now) (manifest_key image.now auth.now)) }
{
    let settings = PullManifestSettings::new(alloc, image, auth)?;
    let key = settings.key_text(alloc)?;
    if_it_reads_back(alloc, image, key)
}

/// Returns the key of a call for an image; `None` if the reference does not round-trip.
pub fn image_key(
    alloc: Global,
    image: &Reference,
    auth: &RegistryAuth,
    accepted_media_types: &[Text],
) -> Result<Option<Blob>, AllocError>
    ensures { IfOk result (λ key. key
        ≡ key_if (reads_back image.now) (pull_key image.now auth.now accepted_media_types.now)) }
{
    let settings = PullSettings::new(alloc, image, auth, accepted_media_types)?;
    let key = settings.key_text(alloc)?;
    if_it_reads_back(alloc, image, key)
}

/// Returns the key of a call for referrers; `None` if the reference does not round-trip.
pub fn list_key(
    alloc: Global,
    image: &Reference,
    auth: &RegistryAuth,
    artifact_type: Option<&str>,
) -> Result<Option<Blob>, AllocError>
    ensures { IfOk result (λ key. key
        ≡ key_if (reads_back image.now) (referrers_key image.now auth.now (option_copied artifact_type.entry))) }
{
    let settings = PullReferrersSettings::new(alloc, image, auth, artifact_type)?;
    let key = settings.key_text(alloc)?;
    if_it_reads_back(alloc, image, key)
}
