//! The search for signatures, and the pull of an image, or of its documents alone, only if a trusted signature stands
//! for it, by any client of registries.
#![tactic(auto)]

mod again;
mod bundles;
mod collection;
mod decision;
mod documents;
mod part;
mod pull;
mod referrers;
mod sources;
mod verified;

pub use again::read_again;
pub use collection::collect;
pub use decision::{decide, verified_documents};
pub use documents::pull_documents;
pub use pull::{document_in, pull_chosen, pull_image};
pub use sources::search;
pub use verified::pull_verified;
