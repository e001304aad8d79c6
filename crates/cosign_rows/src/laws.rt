//! The law between the pull of documents and the pull of an image, as the contract of a function that does nothing.
ghost use Rattle.cosign_rows.specs.Blobs.{PullsAreDocumentsThenBlobs};

use cosign_layers::PullPolicy;

/// States that under any policy the pull of an image is that of its documents, and then of the blobs that the manifest
/// names: the two rows are equal.
pub fn pulls_are_documents_then_blobs(_policy: &PullPolicy)
    ensures { PullsAreDocumentsThenBlobs _policy.now (λ b. accepts (b.vtable, b.value)) }
{}
