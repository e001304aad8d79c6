//! A program's exchanges with its host other than requests: settings, questions about signatures and certificates, and
//! the image, or its documents alone, that are sent.
#![tactic(auto)]

mod answers;
mod documents;
mod everyone;
mod heads;
mod image;
mod items;
mod media_type;
mod names;
mod questions;
mod streams;

pub use answers::{Answers, CertificateAnswer, HostAnswer, SignatureAnswer};
pub use documents::{give_documents, give_end};
pub use everyone::Everyone;
pub use heads::{
    begin_head, item_head, judge_head, pulled_head, refused_head, signature_head, verify_head,
};
pub use image::give_image;
pub use names::is_frame;
pub use questions::ask_layers;
pub use streams::{HostError, Streams, hear, tell};
