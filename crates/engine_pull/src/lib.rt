//! The registry client's calls that pull documents, blobs and images, and those that ask what a registry has: its
//! repositories, their tags, the referrers of a digest, and whether a blob exists.
#![tactic(auto)]

mod addresses;
mod attempts;
mod blobs;
mod documents;
mod existence;
mod image;
mod lists;
mod manifests;
mod referrers;
mod requests;

pub use attempts::{attempt, held, held_offer, offer};
pub use blobs::{pull_blob, pulled_blob};
pub use documents::{fetch_manifest_digest, manifest_document, pull_manifest, pull_manifest_raw};
pub use existence::blob_exists;
pub use image::pull;
pub use lists::{catalog, list_tags};
pub use manifests::{
    pull_image_manifest, pull_image_manifest_and_list_digest, pull_manifest_and_config,
    pull_manifest_and_config_and_list_digest,
};
pub use referrers::pull_referrers;
