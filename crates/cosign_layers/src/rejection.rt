//! Why a signature layer is rejected.
ghost use Rattle.std.specs.Prelude.{◌≡◌};
ghost use Rattle.cosign_layers.specs.Rejection.{is_memory};

use json_values::{Copied, Text};
use std::alloc::{AllocError, Global};
use thiserror::Error;

/// A part of a signature layer.
#[derive(Clone, Copy, Debug, PartialEq, Eq)]
pub enum LayerPart {
    Content,
    Signature,
    LogEntry,
    Certificate,
}

/// The first check that a signature layer fails.
#[derive(Debug, Drop, Error)]
pub enum LayerRejection {
    /// The layer's digest does not name the content.
    #[error("the digest does not name the content: the layer was changed, so pull it again or sign the image anew")]
    DigestMismatch,
    /// The part is malformed.
    #[error("{0:?} is unreadable: sign the image anew with cosign")]
    Unreadable(LayerPart),
    /// The content is about another image.
    #[error("the layer is about another image: sign this one")]
    OtherDigest,
    #[error("the layer has no signature: sign the image anew with cosign")]
    NoSignature,
    /// No key is known for the log of this id.
    #[error("the log's key is unknown: add it to the log keys, if the log is to be trusted")]
    UnknownLogKey(Text),
    /// The log's signature is not valid for the entry's canonical text.
    #[error("the log's signature is not valid: do not trust the entry, and sign the image anew")]
    BadLogSignature,
    /// The entry with this body logs another signature.
    #[error("the entry logs another signature: sign the image anew with cosign")]
    OtherLogEntry(Text),
    /// There is a certificate, and no log entry that states when it was used.
    #[error("the certificate has no log entry: sign the image with an upload to the log")]
    NoLogEntry,
    /// The judge does not vouch for this certificate at the time of the log entry.
    #[error("the judge does not vouch for the certificate: add the root that issued it, if it is to be trusted")]
    NotVouched,
    /// The layer is described, but was not among those that were received.
    #[error("the layer was not pulled: pull again, since the signature tag may have moved")]
    LayerNotPulled,
    #[error("out of memory: free some and try again")]
    WantOfMemory,
}

impl LayerRejection {
    /// Returns whether memory ran out.
    pub fn is_memory(&self) -> bool
        ensures { result ≡ is_memory self.now }
    {
        matches!(self, LayerRejection::WantOfMemory)
    }
}

impl From<AllocError> for LayerRejection {
    ghost use Rattle.cosign_layers.specs.declared.rejection.LayerRejection.TheVariants.{WantOfMemory};

    ghost from_gives = { λ _ e. e ≡ WantOfMemory };

    fn from(_error: AllocError) -> LayerRejection {
        LayerRejection::WantOfMemory
    }
}

impl Copied for LayerPart {
    fn copy(&self, _alloc: Global) -> Result<LayerPart, AllocError> {
        Ok(*self)
    }
}

impl Copied for LayerRejection {
    fn copy(&self, alloc: Global) -> Result<LayerRejection, AllocError> {
        Ok(match self {
            LayerRejection::DigestMismatch => LayerRejection::DigestMismatch,
            LayerRejection::Unreadable(part) => LayerRejection::Unreadable(*part),
            LayerRejection::OtherDigest => LayerRejection::OtherDigest,
            LayerRejection::NoSignature => LayerRejection::NoSignature,
            LayerRejection::UnknownLogKey(id) => LayerRejection::UnknownLogKey(id.copy(alloc)?),
            LayerRejection::BadLogSignature => LayerRejection::BadLogSignature,
            LayerRejection::OtherLogEntry(body) => LayerRejection::OtherLogEntry(body.copy(alloc)?),
            LayerRejection::NoLogEntry => LayerRejection::NoLogEntry,
            LayerRejection::NotVouched => LayerRejection::NotVouched,
            LayerRejection::LayerNotPulled => LayerRejection::LayerNotPulled,
            LayerRejection::WantOfMemory => LayerRejection::WantOfMemory,
        })
    }
}
