//! How the registry client interprets responses: documents with their digests, how a blob is checked, entries of
//! indexes, lists of referrers.
#![tactic(auto)]

mod answers;
mod blobs;
mod documents;
mod index;
mod referrers;

pub use answers::{
    Got, accepted, document_in, fits_reference, header_digest, is_error, is_success, of_digest,
    refused_answer,
};
pub use blobs::{Expected, Plan, both_compared, digest_expected, digesters, plan_of};
pub use documents::read_document;
pub use index::{config_text, entry_found, entry_manifest, entry_reference};
pub use referrers::{fallback_reference, referrers_in, tagged_index};
