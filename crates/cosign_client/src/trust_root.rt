//! Trusted transparency logs.
ghost use Rattle.std.specs.Prelude.{◌≡◌, ℕ, List, IfOk};
ghost use Rattle.std.specs.FinMap.{FinMap};
ghost use Rattle.json_values.specs.Places.{by_bytes};

use cosign_parts::LogKeys;
use std::alloc::{AllocError, Global};

/// Knows the keys of transparency logs.
pub trait TrustRoot {
    /// The known keys, by the logs' ids.
    ghost known: { Self → FinMap by_bytes (List ℕ) };

    fn rekor_keys(&self, alloc: Global) -> Result<LogKeys, AllocError>
        ensures { IfOk result (λ keys. keys ≡ known self.now) };
}
