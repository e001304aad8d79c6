//! Keys from passwords by scrypt (RFC 7914).
ghost use Rattle.std.specs.Prelude.{◌≡◌};
ghost use Rattle.key_parts.specs.Scrypt.{are_known, log_of, params_of};

use json_tables::{ReadError, Reads, required};
use json_values::Copied;
use serde_json::Value;
use std::alloc::{AllocError, Global};

/// The name of scrypt in an envelope.
pub const NAME_SCRYPT: &'static str = "scrypt";

/// The length of a salt in bytes.
pub const SALT_SIZE: usize = 32;

/// The cost of new envelopes.
pub const SCRYPT_N_LOW: u32 = 32768;

/// The other cost that is accepted.
pub const SCRYPT_N_HIGH: u32 = 65536;

/// The block size.
pub const SCRYPT_R: u32 = 8;

/// The parallelization.
pub const SCRYPT_P: u32 = 1;

/// The parameters of scrypt (RFC 7914, 2): the cost, the block size and the parallelization.
#[derive(Clone, Copy, Debug, PartialEq, Eq)]
pub struct ScryptParams {
    pub n: u32,
    pub r: u32,
    pub p: u32,
}

impl ScryptParams {
    /// Returns whether the cost is 32768 or 65536, the block size 8 and the parallelization 1.
    pub fn check_params(&self) -> bool
        ensures { result ≡ are_known self.now }
    {
        (self.n == SCRYPT_N_LOW || self.n == SCRYPT_N_HIGH)
            && self.r == SCRYPT_R
            && self.p == SCRYPT_P
    }

    // Returns the binary logarithm of the cost, for known parameters.
    pub(crate) fn log_n(&self) -> u8
        ensures { result ≡ log_of self.now.n }
    {
        if self.n == SCRYPT_N_LOW { 15 } else { 16 }
    }
}

impl Reads for ScryptParams {
    ghost reading = { params_of };

    fn read_value(alloc: Global, value: &Value) -> Result<ScryptParams, ReadError> {
        let n = required(alloc, value, "N")?;
        let r = required(alloc, value, "r")?;
        let p = required(alloc, value, "p")?;
        Ok(ScryptParams { n, r, p })
    }
}

impl Copied for ScryptParams {
    fn copy(&self, _alloc: Global) -> Result<ScryptParams, AllocError> {
        Ok(*self)
    }
}
