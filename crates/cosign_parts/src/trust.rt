//! Whom a reader of layers trusts.
use crate::log_keys::LogKeys;

/// Decides which signatures are valid, vouches for certificates, and holds the keys of transparency logs.
#[derive(Drop)]
pub struct Trusted<'a, V, O> {
    pub log_keys: &'a LogKeys,
    pub verifier: &'a V,
    pub judge: &'a O,
}
