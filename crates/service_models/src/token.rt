ghost use Rattle.std.specs.Prelude.{◌≡◌, IfOk};
ghost use Rattle.service_models.specs.Token.{token_of};

use json_values::{Copied, Text, copy_all, row};
use std::alloc::{AllocError, Global};

/// Provides the token that Fulcio receives.
#[derive(Drop)]
pub enum TokenProvider {
    /// An identity token (OpenID Connect), and the challenge that the caller signs.
    Static(Text, Text),
}

impl TokenProvider {
    /// Returns the token, and the challenge that the caller signs.
    pub fn get_token(&self, alloc: Global) -> Result<(Text, Text), AllocError>
        ensures { IfOk result (λ both. both ≡ token_of self.now) }
    {
        match self {
            TokenProvider::Static(token, challenge) => {
                let row![token, challenge] = copy_all(alloc, row![token, challenge])?;
                Ok((token, challenge))
            }
        }
    }
}

impl Copied for TokenProvider {
    fn copy(&self, alloc: Global) -> Result<TokenProvider, AllocError> {
        let (token, challenge) = self.get_token(alloc)?;
        Ok(TokenProvider::Static(token, challenge))
    }
}
