// Laws of keys, as contracts of a function that does nothing.
ghost use Rattle.registry_cache.specs.Settings.{ManifestKeysTell, PullKeysTell, ReferrersKeysTell};

/// Proves that two settings of one type have equal key texts if and only if their image texts and credentials are
/// equal, and so are the media types in their order or the artifact types.
pub fn keys_tell_settings()
    ensures manifests { ManifestKeysTell }
    ensures pulls { PullKeysTell }
    ensures referrers { ReferrersKeysTell }
{}
