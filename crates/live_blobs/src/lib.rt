//! Blobs of an image with a host. Some are pulled: each is requested and checked as it is received, and its digest is
//! sent back; no bytes are, since the host, which received them first, has them. One is pushed to another registry: the
//! host passes its bytes on.
#![tactic(auto)]

mod carry;
mod carry_calls;
mod carry_delivery;
mod carry_heads;
mod carry_opening;
mod carry_settings;
mod delivery;
mod discard;
mod heads;
mod live;
mod opening;
mod pulls;
mod settings;
mod source_pieces;

pub use carry::serve_carry;
pub use carry_settings::{CarrySettings, read_carry_settings};
pub use delivery::{descriptor_at, give_error};
pub use discard::noted;
pub use live::serve_blobs;
pub use opening::{Opened, Started, image_in, open, start};
pub use settings::{BlobSettings, documents_in, read_blob_settings};
