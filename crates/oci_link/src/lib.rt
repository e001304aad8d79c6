//! The transports that users choose from: a registry in memory, one that fails at given calls, and a guard around
//! another transport. The types of `oci_transport` and `oci_auth` are exported too, so that a user names one crate.
#![tactic(auto)]

mod faulty_shelf;
mod guarded;
mod leads;
mod paths;
mod plain_paths;
mod rules;
mod served;
mod shelf;
mod shelf_transport;
mod table;

pub use faulty_shelf::FaultyShelf;
pub use guarded::Guarded;
pub use oci_auth::{BearerChallenge, Challenge, ChallengeError, challenges};
pub use oci_transport::{
    Answer, AnswerHead, BodyError, Conversation, DIGEST_HEADER, Exchange, HeaderError, Headers,
    LinkError, Method, Recorded, Request, Script, Transport, UrlError, header_text, read_body,
    redirected, registry_url, request_url, targets,
};
pub use plain_paths::plain_paths_read;
pub use rules::{Hosts, Rules};
pub use shelf::{Shelf, ShelfBlobs, ShelfDocument, ShelfDocuments};
pub use shelf_transport::ShelfTransport;
pub use table::answer;
