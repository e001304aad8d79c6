//! Calls to a transparency log (Rekor) and to a certificate authority (Fulcio), each of one request.
#![tactic(auto)]

mod body;
mod call;
mod client;
mod configuration;
mod entities;
mod entries;
mod error;
mod exchange;
mod fulcio_error;
mod index;
mod log;
pub mod models;
mod request;

pub use client::{
    CertificateResponse, FULCIO_ROOT, FulcioCert, FulcioClient, SIGNING_CERT_PATH,
    SIGNING_CERT_V2_PATH,
};
pub use configuration::{ApiKey, BasicAuth, Configuration};
pub use entities::{
    CreateLogEntryError, GetLogEntryByIndexError, GetLogEntryByUuidError, GetLogInfoError,
    GetLogProofError, GetPublicKeyError, SearchIndexError, SearchLogQueryError,
};
pub use entries::{
    ParseResponseError, create_log_entry, get_log_entry_by_index, get_log_entry_by_uuid,
    parse_response, search_log_query,
};
pub use error::{Error, ResponseContent};
pub use fulcio_error::FulcioError;
pub use index::search_index;
pub use log::{get_log_info, get_log_proof, get_public_key};
pub use request::urlencode;
pub use service_models::{
    CertificateChain, CreateSigningCertificateRequest, InnerDetachedSCT, KeyAlgorithm, LogEntry,
    SCTVersion, SctError, SigningCertificate, SigningCertificateDetachedSCT,
    SigningCertificateEmbeddedSCT, TokenProvider, read_sct_signature,
};
