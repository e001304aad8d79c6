// The credentials and tokens that a client holds between calls.
ghost use Rattle.std.specs.Prelude.{◌≡◌, OnOk, OnErr};
ghost use Rattle.oci_auth.specs.AuthState.{fresh, stored};

use crate::auth::RegistryAuth;
use crate::cache::TokenCache;
use json_values::{Copied, Text, TextMap};
use std::alloc::{AllocError, Global};

/// Stored credentials, by registry, and stored tokens.
#[derive(Drop)]
pub struct AuthState {
    pub credentials: TextMap<RegistryAuth>,
    pub tokens: TokenCache,
}

impl AuthState {
    /// Stores nothing yet. A token without an expiration will be stored for `default_expiration_secs` seconds.
    pub fn new(alloc: Global, default_expiration_secs: u64) -> AuthState
        ensures { result ≡ fresh default_expiration_secs }
    {
        AuthState {
            credentials: TextMap::new(alloc),
            tokens: TokenCache::new(alloc, default_expiration_secs),
        }
    }
}

/// Stores credentials for a registry. Credentials that are stored already are never replaced.
pub fn store(
    alloc: Global,
    memory: &mut AuthState,
    registry: &str,
    auth: &RegistryAuth,
) -> Result<(), AllocError>
    ensures ok { OnOk result (memory.new ≡ stored memory.old registry.now auth.now) }
    ensures err { OnErr result (memory.new ≡ memory.old) }
{
    if memory.credentials.get(registry).is_some() {
        return Ok(());
    }
    let name = Text::new(alloc, registry)?;
    let auth = auth.copy(alloc)?;
    memory.credentials.insert(name, auth)?;
    Ok(())
}
