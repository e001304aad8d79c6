//! Pulls an image, or its documents alone, only if a trusted signature stands for it.
#![tactic(auto)]

mod asked;
mod builder;
mod client;
mod documents;
mod signature;
mod trust_root;
mod written_client;

pub use asked::{Asked, ask_for, image_in};
pub use builder::ClientBuilder;
pub use client::Client;
pub use cosign_chain::{
    VerifiedDocuments, VerifiedImage, check_chain, check_documents, check_links,
};
pub use cosign_rows::{PullRefusal, SkipCause, Skipped, SourceKind, TrustedLayers};
pub use push_rows::PushResponse;
pub use signature::{SignatureImage, pushed_signatures_are_found, signature_image};
pub use trust_root::TrustRoot;
pub use written_client::{WrittenClient, client_by};
