//! Signature layers and the policy that they must satisfy.
#![tactic(auto)]

mod checks;
mod constraint;
mod policy;
mod read;
mod rejection;
mod satisfying;
mod statement;
mod subject;

pub use constraint::{AnnotationVerifier, Constraint, VerificationConstraint};
pub use cosign_parts::{
    BUNDLE_TYPE, CertificateSignature, Evidence, LayerKind, LogEntryBundle, LogKeys,
    NoCertificates, Offline, SIMPLE_SIGNING_TYPE, SignatureLayer, SignatureVerifier, SignedRow,
    SimpleSigning, TableJudge, TableVerifier, Trusted, Vouched, VouchedRow, log_text,
    log_texts_are_canonical, signed_text,
};
pub use policy::PullPolicy;
pub use read::{read_bundle_layer, read_payload_layer};
pub use rejection::{LayerPart, LayerRejection};
pub use satisfying::{first_satisfying, satisfies_policy};
pub use statement::StatementVerifier;
pub use subject::{CertSubjectEmailVerifier, CertSubjectUrlVerifier};
