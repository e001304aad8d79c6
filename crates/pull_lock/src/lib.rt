//! Lock files: images with the documents and the signature layer of each, so that whether an image is still one that a
//! policy accepts is decided with no client and no request.
#![tactic(auto)]

mod checking;
mod documents;
mod entry;
mod error;
mod lock;
mod named;
mod reading;
mod stands;
mod unlocked;
mod writing;

pub use checking::{LockVerdict, check_lock};
pub use entry::{chains_are_locked, documents_are_locked, lock_documents, lock_entry};
pub use error::LockError;
pub use lock::{Lock, LockEntry, LockedSignature};
pub use reading::read_lock;
pub use unlocked::documents_of;
pub use writing::write_lock;
