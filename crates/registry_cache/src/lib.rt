//! The responses that a client of registries caches: the keys that they are cached under, how long they are returned,
//! what a bound evicts, and how each kind is stored and found again.
#![tactic(auto)]

mod answer;
mod answers;
mod auth;
mod entries;
mod kept_laws;
mod key_laws;
mod keys;
mod known;
mod manifest_settings;
mod pull_settings;
mod referrers_settings;
mod text;
mod weights;
mod written;

pub use answer::{Answer, Kind};
pub use answers::{Answers, Bounds, Entry};
pub use auth::Auth;
pub use kept_laws::kept_within_bounds;
pub use key_laws::keys_tell_settings;
pub use keys::{image_key, list_key, manifest_key};
pub use known::{
    keep_digest, keep_image, keep_manifest, keep_referrers, known_digest, known_image,
    known_manifest, known_referrers,
};
pub use manifest_settings::PullManifestSettings;
pub use pull_settings::PullSettings;
pub use referrers_settings::PullReferrersSettings;
