//! SHA-2 digests in the form of the OCI image specification, and checks of bodies against them.
#![tactic(auto)]

mod both;
mod checks;
mod digest;
mod digester;
mod error;
mod hasher;
mod names;

pub use both::{DigestTexts, Digesters};
pub use checks::{digest_header_value, named_algorithm, validate_digest};
pub use digest::Digest;
pub use digester::Digester;
pub use error::DigestError;
pub use hasher::{digest_text, names_by};
pub use names::{digits_after, names_digest, names_known, sha256_digest};
pub use oci_names::Algorithm;
