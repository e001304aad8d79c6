//! Checks without a request, of a lock file, and of an image that the host has, documents and blobs: what is asked,
//! what is received, and the verdict that is sent.
#![tactic(auto)]

mod blobs;
mod heads;
mod layers;
mod lock_heads;
mod lock_serve;
mod lock_settings;
mod parts;
mod serve;
mod settings;
mod terms;

pub use layers::ask_entry;
pub use lock_serve::serve_lock;
pub use lock_settings::{LockSettings, read_lock_settings};
pub use serve::serve_check;
pub use settings::{CheckSettings, read_check_settings};
pub use terms::{Terms, promise_of, terms_in};
