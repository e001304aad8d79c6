//! Copies verified images to another registry: an image is pulled only if a trusted signature stands for it, and
//! exactly its bytes are pushed, with that signature.
#![tactic(auto)]

mod absences;
mod copies;
mod document_copies;
mod documents;
mod entries;
mod outcomes;
mod planning;
mod questions;
mod refusals;
mod sending;
mod signatures;
mod targets;

pub use absences::DocumentsRefusal;
pub use copies::mirror;
pub use document_copies::{CopyTarget, push_documents};
pub use entries::push_entry;
pub use refusals::{MirrorError, MirrorReport, PushRefusal, PushReport};
pub use sending::push_image;
pub use signatures::signature_text;
pub use targets::is_target;
