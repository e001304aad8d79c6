//! A copy of a signed index with all of its images: each is pulled under the index's digest and pushed before the next
//! one, and the index is pushed last.
#![tactic(auto)]

mod clients;
mod entries;
mod indexes;
mod refusals;
mod terms;

pub use indexes::mirror_index;
pub use refusals::IndexRefusal;
pub use terms::EntryTerms;
