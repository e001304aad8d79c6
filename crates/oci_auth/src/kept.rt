// Stored tokens, each under a registry, a repository and an operation.
ghost use Rattle.std.specs.Prelude.{◌≡◌, ◌≤◌, [], None, OnOk, OnErr, not, filter, option_copied, vec_len, vec_capacity};
ghost use Rattle.oci_auth.specs.Kept.{Key, under, is_under, key_in, unexpired, within, inserted, kept_under};
ghost use Rattle.oci_auth.specs.Kept.{HaveOwnKeys, AreWithin, IsKept};

use crate::token_type::{RegistryOperation, RegistryTokenType};
use json_values::{Copied, Text};
use std::alloc::{AllocError, Global};
use std::marker::Model;

/// A token, its key, and its expiration, in seconds since 1970.
#[derive(Drop)]
pub struct KeptToken {
    pub registry: Text,
    pub repository: Text,
    pub operation: RegistryOperation,
    pub token: RegistryTokenType,
    pub expiration: u64,
}

/// Tokens, at most one under each registry, repository and operation. A contract sees the list of them, of which the
/// first is the one that was stored last.
#[derive(Drop)]
pub struct KeptTokens {
    inner: Vec<KeptToken>,
}

impl Model for KeptTokens {
    ghost use Rattle.std.specs.Prelude.{List};
    ghost use Rattle.oci_auth.specs.declared.kept.KeptToken.{KeptToken};

    ghost Value = { List KeptToken };

    ghost view = { λ ts. ts.inner.items };

    ghost use Rattle.oci_auth.specs.Kept.{HaveOwnKeys};

    ghost invariant = { λ ts. HaveOwnKeys ts.inner.items };
}

impl KeptToken {
    fn is_under(&self, registry: &str, repository: &str, operation: RegistryOperation) -> bool
        ensures { result ≡ is_under (under registry.now repository.now operation) self.now }
    {
        self.registry.as_str() == registry
            && self.repository.as_str() == repository
            && self.operation == operation
    }
}

// Drops the tokens that have expired at this moment.
fn drop_expired(tokens: &mut Vec<KeptToken>, moment: u64)
    requires { HaveOwnKeys tokens.old.items }
    ensures others { tokens.new.items ≡ unexpired moment tokens.old.items }
    ensures count { vec_len tokens.new ≤ vec_len tokens.old }
    ensures room { vec_capacity tokens.new ≡ vec_capacity tokens.old }
{
    tokens.retain(|kept| moment <= kept.expiration);
}

// Drops the token under the key of this one.
fn drop_under(tokens: &mut Vec<KeptToken>, kept: &KeptToken)
    ensures others { tokens.new.items ≡ filter (λ other. not (is_under (key_in kept.now) other)) tokens.old.items }
    ensures count { vec_len tokens.new ≤ vec_len tokens.old }
    ensures room { vec_capacity tokens.new ≡ vec_capacity tokens.old }
{
    let registry = kept.registry.as_str();
    let repository = kept.repository.as_str();
    tokens.retain(|other| !other.is_under(registry, repository, kept.operation));
}

impl KeptTokens {
    pub fn new(alloc: Global) -> KeptTokens
        ensures { result ≡ [] }
    {
        KeptTokens {
            inner: Vec::new(alloc),
        }
    }

    /// Returns the allocator of the tokens.
    pub fn alloc(&self) -> Global {
        *self.inner.allocator()
    }

    /// Returns the token under a key.
    pub fn get(
        &self,
        registry: &str,
        repository: &str,
        operation: RegistryOperation,
    ) -> Option<&KeptToken>
        ensures { option_copied result
            ≡ kept_under (under registry.now repository.now operation) self.now }
    {
        self.inner
            .iter()
            .find(|kept| kept.is_under(registry, repository, operation))
    }

    /// Drops the tokens that were stored first until at most `most` are left, or one if `most` is zero.
    pub fn cut(&mut self, most: Option<u64>)
        ensures exact { self.new ≡ within most self.old }
        ensures few { AreWithin most self.new }
    {
        if let Some(most) = most {
            self.inner.truncate(most.max(1) as usize);
        }
    }

    /// Stores a token, replacing the one under its key. Drops those that have expired at this moment and, if there is a
    /// bound, those that were stored first.
    pub fn insert(
        &mut self,
        kept: KeptToken,
        moment: u64,
        most: Option<u64>,
    ) -> Result<(), AllocError>
        ensures ok { OnOk result (self.new ≡ inserted most moment self.old kept) }
        ensures err { OnErr result (self.new ≡ self.old) }
        ensures last { OnOk result (IsKept most moment self.old self.new kept) }
        ensures few { OnOk result (AreWithin most self.new) }
    {
        self.put(kept, moment)?;
        self.cut(most);
        Ok(())
    }

    // The same without a bound.
    fn put(&mut self, kept: KeptToken, moment: u64) -> Result<(), AllocError>
        ensures ok { OnOk result (self.new ≡ inserted None moment self.old kept) }
        ensures err { OnErr result (self.new ≡ self.old) }
    {
        self.inner.reserve(1)?;
        drop_expired(&mut self.inner, moment);
        drop_under(&mut self.inner, &kept);
        self.inner.insert(0, kept)?;
        Ok(())
    }
}
