//! Definitions of what the search for signatures and the verified pull request and how they interpret the responses,
//! with the values that they name. The code that meets them, and the laws of all their runs, depend on these only.
#![tactic(auto)]

mod found;
mod laws;
mod pulled;
mod pulled_documents;
mod references;
mod refusal;
mod signed_digest;
mod terms;

pub use found::{Part, SkipCause, Skipped, SourceKind, TrustedLayers};
pub use laws::pulls_are_documents_then_blobs;
pub use pulled::{Pulled, PulledManifest};
pub use pulled_documents::PulledDocuments;
pub use references::{digest_reference, oci_tag_reference, reading_back, tag_reference};
pub use refusal::PullRefusal;
pub use signed_digest::SignedDigest;
pub use terms::{Asked, Referred, Terms};
