//! A pull with a host that opens the connections and verifies signatures, of an image or of its documents alone: what
//! is asked, and what is sent.
#![tactic(auto)]

mod documents;
mod documents_delivery;
mod documents_parts;
mod keys;
mod live;
mod opening;
mod pulls;
mod refusal;
mod settings;
mod statements;
mod status;
mod target;

pub use documents::{Decided, decide_again, search_and_decide, serve_documents};
pub use documents_delivery::{deliver_error, give_decided};
pub use live::{Ended, Prepared, deliver_refusal, run, serve};
pub use opening::{Opened, open_settings};
pub use pulls::Terms;
pub use settings::{LiveSettings, read_document_settings, read_settings};
pub use status::Status;
pub use target::TargetSettings;
