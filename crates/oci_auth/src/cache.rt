// The tokens that a client stores.
ghost use Rattle.std.specs.Prelude.{◌≡◌, [], None, OnOk, OnErr, IfOk};
ghost use Rattle.oci_auth.specs.Cache.{key_of, kept_until};

use crate::expiration::bearer_token_cache_expiration;
use crate::kept::{KeptToken, KeptTokens};
use crate::token_type::{RegistryOperation, RegistryTokenType};
use json_values::{Copied, Text};
use oci_names::Reference;
use std::alloc::{AllocError, Global};

/// Tokens for registries, one for each registry that receives requests, repository and operation.
#[derive(Drop)]
pub struct TokenCache {
    /// The life, in seconds, of a token without an expiration.
    pub default_expiration_secs: u64,
    /// The greatest number of tokens, if there is one.
    most: Option<u64>,
    tokens: KeptTokens,
}

// Returns when a token expires. Credentials never do.
fn kept_until(
    alloc: Global,
    token: &RegistryTokenType,
    default_expiration_secs: u64,
    moment: u64,
) -> Result<Option<u64>, AllocError>
    ensures { IfOk result (λ until. until ≡ kept_until token.now default_expiration_secs moment) }
{
    match token {
        RegistryTokenType::Bearer(token) => {
            let until = bearer_token_cache_expiration(
                alloc,
                token.token(),
                default_expiration_secs,
                moment,
            )?;
            Ok(until)
        }
        RegistryTokenType::Basic(_, _) => Ok(Some(u64::MAX)),
    }
}

impl TokenCache {
    ghost use Rattle.oci_auth.specs.Kept.{AreWithin};
    ghost use Rattle.oci_auth.specs.Cache.{with_token, bounded, token_at, GivesFrom};

    /// Returns an empty cache, which has no bound.
    pub fn new(alloc: Global, default_expiration_secs: u64) -> TokenCache
        ensures { result ≡ record { default_expiration_secs = default_expiration_secs; most = None; tokens = [] } }
    {
        TokenCache {
            default_expiration_secs,
            most: None,
            tokens: KeptTokens::new(alloc),
        }
    }

    /// Returns the allocator of the tokens.
    pub fn alloc(&self) -> Global {
        self.tokens.alloc()
    }

    /// Stores at most `most` tokens from now on, but always the latest. Drops those that were stored first until the
    /// others are as few.
    pub fn bound(&mut self, most: u64)
        ensures exact { self.new ≡ bounded most self.old }
        ensures few { AreWithin self.new.most self.new.tokens }
    {
        self.most = Some(most);
        self.tokens.cut(self.most);
    }

    /// Stores a token that was obtained at this moment, in seconds since 1970, replacing the one that is stored for the
    /// same registry, repository and operation. Drops those that have expired at this moment and, if the bound is
    /// exceeded, those that were stored first. Does nothing if the token's expiration is unknown.
    pub fn insert(
        &mut self,
        reference: &Reference,
        op: RegistryOperation,
        token: RegistryTokenType,
        moment: u64,
    ) -> Result<(), AllocError>
        ensures ok { OnOk result (self.new ≡ with_token self.old (key_of reference.now op) token moment) }
        ensures err { OnErr result (self.new ≡ self.old) }
        ensures last { OnOk result (GivesFrom self.old self.new (key_of reference.now op) token moment
            (kept_until token self.old.default_expiration_secs moment)) }
        ensures few { AreWithin self.old.most self.old.tokens → AreWithin self.new.most self.new.tokens }
    {
        let alloc = self.tokens.alloc();
        let Some(expiration) = kept_until(alloc, &token, self.default_expiration_secs, moment)?
        else {
            return Ok(());
        };
        let registry = Text::new(alloc, reference.resolve_registry())?;
        let repository = Text::new(alloc, reference.repository())?;
        let kept = KeptToken {
            registry,
            repository,
            operation: op,
            token,
            expiration,
        };
        self.tokens.insert(kept, moment, self.most)?;
        Ok(())
    }

    /// Returns the token that was last stored for this registry, repository and operation, unless it has expired.
    pub fn get(
        &self,
        reference: &Reference,
        op: RegistryOperation,
        moment: u64,
    ) -> Result<Option<RegistryTokenType>, AllocError>
        ensures { IfOk result (λ token. token ≡ token_at self.now (key_of reference.now op) moment) }
    {
        match self
            .tokens
            .get(reference.resolve_registry(), reference.repository(), op)
        {
            Some(kept) if moment <= kept.expiration => {
                let token = kept.token.copy(self.tokens.alloc())?;
                Ok(Some(token))
            }
            _ => Ok(None),
        }
    }
}
