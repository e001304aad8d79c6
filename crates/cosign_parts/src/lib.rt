//! What a signature layer carries: its payload, its bundle, the entry of a log, a certificate; and who says what of keys.
#![tactic(auto)]

mod bundle;
mod certificate;
mod envelope;
mod judge;
mod laws;
mod layer;
mod log_entry;
mod log_keys;
mod payload;
mod shown;
mod statement;
mod trust;
mod verifier;

pub use bundle::BUNDLE_TYPE;
pub use certificate::{CertificateSignature, Evidence, Vouched};
pub use envelope::{enveloped_text, signed_text};
pub use judge::{NoCertificates, Offline, TableJudge, VouchedRow};
pub use laws::log_texts_are_canonical;
pub use layer::{LayerKind, SignatureLayer, SimpleSigning};
pub use log_entry::{LogEntryBundle, log_text, logs};
pub use log_keys::LogKeys;
pub use payload::SIMPLE_SIGNING_TYPE;
pub use shown::{Found, Shown, is_about, show};
pub use statement::predicate_type;
pub use trust::Trusted;
pub use verifier::{SignatureVerifier, SignedRow, TableVerifier};
