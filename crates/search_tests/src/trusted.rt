// Whom the readers of the tests trust.
use cosign_parts::{LogKeys, SignedRow, TableVerifier};
use json_values::{Blob, List, Text, TextMap};
use std::alloc::{AllocError, Global};

/// The image that the layers are about.
pub(crate) const SOURCE: &str =
    "sha256:b94d27b9934d3e08a52e52d7da7dabfac484efe37a5380ee9088f7ace2efcde9";

// The keys, and the digests of the messages that they sign: `set1` signs for a log, and `sig1` for a certificate.
const SIGNED: [[&str; 3]; 4] = [
    [
        "lk",
        "sha256:efc7eae08107bd37a8168a8516bdd133fff797b19fc69cb7e1161f12ab58af8d",
        "set1",
    ],
    [
        "lk",
        "sha256:65a322ef3d1731e027958d83e6a036361304e34ff401aea2da9bc81bc7c80d61",
        "set1",
    ],
    [
        "lk",
        "sha256:9aaefcfe6b4e9910890f665dde24a7235412adf7f62d7e4b6342f224792d0724",
        "set1",
    ],
    [
        "ck",
        "sha256:b99cd7ae651132a70ca615c531c0ee6e99cf4bb3c028b009caec7ad84ea3d557",
        "sig1",
    ],
];

// The ids of the logs whose key is `lk`.
const LOGS: [&str; 2] = [
    "ab",
    "c0d23d6ad406973f9559f3ba2d1ca01f84147d8ffc5b8445c224f98b9591801d",
];

fn signed_row(alloc: Global, given: &[&str; 3]) -> Result<SignedRow, AllocError> {
    let key = Blob::new(alloc, given[0].as_bytes())?;
    let message = Text::new(alloc, given[1])?;
    let signature = Blob::new(alloc, given[2].as_bytes())?;
    Ok(SignedRow {
        key,
        message,
        signature,
    })
}

pub(crate) fn verifier(alloc: Global) -> Result<TableVerifier, AllocError> {
    let mut rows = List::new(alloc);
    for given in &SIGNED {
        rows.push(signed_row(alloc, given)?)?;
    }
    Ok(TableVerifier { rows })
}

pub(crate) fn log_keys(alloc: Global) -> Result<LogKeys, AllocError> {
    let mut keys = TextMap::new(alloc);
    for id in &LOGS {
        keys.insert(Text::new(alloc, *id)?, Blob::new(alloc, b"lk")?)?;
    }
    Ok(keys)
}
