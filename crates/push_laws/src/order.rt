//! States in which order the requests of a pushed image go out, for every run. It has no other code.
ghost use Rattle.push_laws.specs.Order.{ManifestsComeLast};

/// States that no manifest of a pushed image is requested unless each of its blobs was answered.
pub fn manifests_come_last()
    ensures { ManifestsComeLast }
{}
