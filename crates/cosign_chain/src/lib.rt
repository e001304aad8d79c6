//! A chain of digests from a reference to an image with the signature that stands for it, and its check, which knows of
//! no client and no request.
#![tactic(auto)]

mod chain;
mod check;
mod documents;
mod image;
mod laws;
mod links;
mod manifest_fields;
mod same;
mod same_layer;
mod verified_documents;

pub use chain::{check_chain, stands_for};
pub use check::check_documents;
pub use documents::document_in;
pub use image::VerifiedImage;
pub use laws::chains_are_documents_with_blobs;
pub use links::check_links;
pub use manifest_fields::same_manifest;
pub use verified_documents::VerifiedDocuments;
