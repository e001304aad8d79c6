//! The requests and responses of a transparency log (Rekor) and a certificate authority (Fulcio), read exactly by
//! their tables; written models round-trip.
#![tactic(auto)]

mod all_of;
mod certificate;
mod certificate_request;
mod error;
mod format;
mod inactive_shard;
mod log_entry;
mod model_error;
mod proposed_entry;
mod public_key;
mod sct;
mod search_index;
mod search_log_query;
mod single;
mod token;
mod whole;

pub use all_of::{
    AlpineAllOf, EntryAllOf, HashedrekordAllOf, HelmAllOf, IntotoAllOf, JarAllOf, RekordAllOf,
    Rfc3161AllOf, RpmAllOf, TufAllOf,
};
pub use certificate::{
    CertificateChain, SigningCertificate, SigningCertificateDetachedSCT,
    SigningCertificateEmbeddedSCT,
};
pub use certificate_request::{CertificateRequest, CreateSigningCertificateRequest, KeyAlgorithm};
pub use error::Error;
pub use format::Format;
pub use inactive_shard::InactiveShardLogInfo;
pub use log_entry::LogEntry;
pub use model_error::ModelError;
pub use proposed_entry::{
    Alpine, Hashedrekord, Helm, Intoto, Jar, ProposedEntry, Rekord, Rfc3161, Rpm, Tuf,
};
pub use public_key::SearchIndexPublicKey;
pub use sct::{InnerDetachedSCT, SCTVersion, SctError, read_sct_signature};
pub use search_index::SearchIndex;
pub use search_log_query::SearchLogQuery;
pub use token::TokenProvider;
