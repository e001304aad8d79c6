//! URLs, headers and requests of the registry client.
#![tactic(auto)]

mod addresses;
mod referrer_lists;
mod requests;
mod sources;
mod tokens;

pub use addresses::{
    base_url, blob_url, manifest_url, read_url, registry_address, registry_text, uploads_url,
};
pub use referrer_lists::{digest_given, referrers_url};
pub use requests::{MANIFEST_TYPES, listed, request_of, with_header};
pub use sources::{AsLayerDescriptor, LayerDescriptor, Place, asked_at, place_of};
pub use tokens::{Wanted, read_challenge, realm_request, token_read, with_pair};
