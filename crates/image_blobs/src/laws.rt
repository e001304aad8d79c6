//! The law between documents, their blobs and an image, as the contract of a function that does nothing.
ghost use Rattle.image_blobs.specs.Images.{CallsTakeBlobs, DocumentsWithBlobsAreImages, RangesJoin};

use cosign_layers::PullPolicy;

/// States that under any policy documents that hold, with the blobs that `pull_blobs` carried to the sinks for the
/// ranges of their descriptors, are an image with its chain: its blobs are what the sinks took.
pub fn documents_with_blobs_are_images(_policy: &PullPolicy)
    ensures taken { CallsTakeBlobs }
    ensures joined { RangesJoin }
    ensures images { DocumentsWithBlobsAreImages _policy.now (λ b. accepts (b.vtable, b.value)) }
{}
