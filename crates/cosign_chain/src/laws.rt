//! The law between documents and chains, as the contract of a function that does nothing.
ghost use Rattle.cosign_chain.specs.Laws.{ChainsAreDocumentsWithBlobs};

use cosign_layers::PullPolicy;

/// States that under any policy an image has its chain if and only if its documents hold and the manifest names each
/// blob.
pub fn chains_are_documents_with_blobs(_policy: &PullPolicy)
    ensures { ChainsAreDocumentsWithBlobs _policy.now (λ b. accepts (b.vtable, b.value)) }
{}
