// Cached responses by the call that returned them.
ghost use Rattle.std.specs.Prelude.{◌≡◌};
ghost use Rattle.registry_cache.specs.Answers.{kind_of, same_kind};

use engine_rows::ImageData;
use json_values::{Copied, Text};
use oci_manifests::{OciImageIndex, OciManifest};
use std::alloc::{AllocError, Global};

/// The result of a call that is cached.
#[derive(Drop)]
pub enum Answer {
    Digest(Text),
    /// A document and its digest.
    Manifest(OciManifest, Text),
    Image(ImageData),
    Referrers(OciImageIndex),
}

/// The calls whose results are cached.
#[derive(Clone, Copy)]
pub enum Kind {
    Digests,
    Manifests,
    Images,
    Referrers,
}

impl Answer {
    /// Returns which call returns such a result.
    pub fn kind(&self) -> Kind
        ensures { result ≡ kind_of self.now }
    {
        match self {
            Answer::Digest(_) => Kind::Digests,
            Answer::Manifest(_, _) => Kind::Manifests,
            Answer::Image(_) => Kind::Images,
            Answer::Referrers(_) => Kind::Referrers,
        }
    }
}

impl Kind {
    pub(crate) fn is(self, other: Kind) -> bool
        ensures { result ≡ same_kind self other }
    {
        match (self, other) {
            (Kind::Digests, Kind::Digests) => true,
            (Kind::Manifests, Kind::Manifests) => true,
            (Kind::Images, Kind::Images) => true,
            (Kind::Referrers, Kind::Referrers) => true,
            _ => false,
        }
    }
}

impl Copied for Answer {
    fn copy(&self, alloc: Global) -> Result<Answer, AllocError> {
        match self {
            Answer::Digest(digest) => Ok(Answer::Digest(digest.copy(alloc)?)),
            Answer::Manifest(document, digest) => {
                let document = document.copy(alloc)?;
                let digest = digest.copy(alloc)?;
                Ok(Answer::Manifest(document, digest))
            }
            Answer::Image(image) => Ok(Answer::Image(image.copy(alloc)?)),
            Answer::Referrers(index) => Ok(Answer::Referrers(index.copy(alloc)?)),
        }
    }
}
