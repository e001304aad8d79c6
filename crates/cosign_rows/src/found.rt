//! What a search for signatures found, and why it found no more.
use cosign_layers::LayerRejection;
use cosign_parts::SignatureLayer;
use json_values::{Copied, List, Text, copied, copy_all, row};
use registry_calls::SigstoreError;
use std::alloc::{AllocError, Global};

/// Where signatures are searched.
#[derive(Clone, Copy, Debug, PartialEq, Eq)]
pub enum SourceKind {
    /// The manifest under the digest's signature tag.
    Tag,
    /// The images that the registry lists as referring to the digest.
    Referrers,
}

/// Why a source or a referrer yielded nothing.
#[derive(Debug, Drop)]
pub enum SkipCause {
    /// The reference that would be requested does not round-trip. Holds the reference's text.
    NotAReference(Text),
    /// The document is an index instead of a manifest.
    FoundIndex,
    /// A call was refused. Out of memory is never the cause.
    Refused(SigstoreError),
}

/// What yielded no signature layer, and why.
#[derive(Debug, Drop)]
pub enum Skipped {
    Source(SourceKind, SkipCause),
    /// A referrer, by its digest.
    Referrer(Text, SkipCause),
    /// A layer, by its descriptor's digest.
    Layer(SourceKind, Text, LayerRejection),
}

/// The digest of an image, the signature layers that were read for it, and why others were not.
#[derive(Drop)]
pub struct TrustedLayers {
    pub digest: Text,
    /// Each layer is about the image of this digest.
    pub collected: List<SignatureLayer>,
    pub skipped: List<Skipped>,
}

/// The result of one source of signatures.
#[derive(Drop)]
pub struct Part {
    pub collected: List<SignatureLayer>,
    pub skipped: List<Skipped>,
}

impl Copied for SourceKind {
    fn copy(&self, _alloc: Global) -> Result<SourceKind, AllocError> {
        Ok(*self)
    }
}

impl Copied for SkipCause {
    fn copy(&self, alloc: Global) -> Result<SkipCause, AllocError> {
        Ok(match self {
            SkipCause::NotAReference(text) => SkipCause::NotAReference(text.copy(alloc)?),
            SkipCause::FoundIndex => SkipCause::FoundIndex,
            SkipCause::Refused(error) => SkipCause::Refused(error.copy(alloc)?),
        })
    }
}

impl Copied for Skipped {
    fn copy(&self, alloc: Global) -> Result<Skipped, AllocError> {
        Ok(match self {
            Skipped::Source(kind, cause) => Skipped::Source(*kind, cause.copy(alloc)?),
            Skipped::Referrer(digest, cause) => {
                let row!(digest, cause) = copy_all(alloc, row!(digest, cause))?;
                Skipped::Referrer(digest, cause)
            }
            Skipped::Layer(kind, digest, cause) => {
                let row!(digest, cause) = copy_all(alloc, row!(digest, cause))?;
                Skipped::Layer(*kind, digest, cause)
            }
        })
    }
}

impl Copied for TrustedLayers {
    fn copy(&self, alloc: Global) -> Result<TrustedLayers, AllocError> {
        copied!(
            alloc,
            self,
            TrustedLayers {
                digest,
                collected,
                skipped
            }
        )
    }
}
