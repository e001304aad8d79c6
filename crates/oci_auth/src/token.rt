ghost use Rattle.std.specs.Prelude.{◌≡◌, ◌++◌, IfOk, codes, option_copied};
ghost use Rattle.serde_json.specs.View.{view};
ghost use Rattle.oci_auth.specs.Token.{ReadsToken, token_of, token_in, text_in};

use json_tables::read_plain_json;
use json_values::{Copied, Text};
use serde_json::Value;
use std::alloc::{AllocError, Global};
use std::fmt;
use thiserror::Error;

/// A registry's token, as its realm names it in the body of its response.
#[derive(Drop)]
pub enum RegistryToken {
    /// From the member `token`.
    Token { token: Text },
    /// From the member `access_token`.
    AccessToken { access_token: Text },
}

/// Why a body contains no token.
#[derive(Clone, Copy, Debug, PartialEq, Eq, Error)]
pub enum TokenError {
    /// The body is not a JSON object without floats that has a string `token` or a string `access_token`.
    #[error("the realm's response contains no token: it must have a string `token` or `access_token`")]
    Unreadable,
    #[error("out of memory: free some and try again")]
    WantOfMemory,
}

impl Copied for TokenError {
    fn copy(&self, _alloc: Global) -> Result<TokenError, AllocError> {
        Ok(*self)
    }
}

impl From<AllocError> for TokenError {
    ghost use Rattle.std.specs.Prelude.{◌≡◌};
    ghost use Rattle.oci_auth.specs.declared.token.TokenError.TheVariants.{WantOfMemory};

    ghost from_gives = { λ _ e. e ≡ WantOfMemory };

    fn from(_error: AllocError) -> TokenError {
        TokenError::WantOfMemory
    }
}

fn text_in(alloc: Global, value: &Value, name: &str) -> Result<Option<Text>, AllocError>
    ensures { IfOk result (λ t. t ≡ text_in name.now (view value.now)) }
{
    let Some(Value::String(text)) = value.get(name) else {
        return Ok(None);
    };
    let text = Text::new(alloc, text.as_str())?;
    Ok(Some(text))
}

fn token_in(alloc: Global, value: &Value) -> Result<Option<RegistryToken>, AllocError>
    ensures { IfOk result (λ t. t ≡ token_in (view value.now)) }
{
    if let Some(token) = text_in(alloc, value, "token")? {
        return Ok(Some(RegistryToken::Token { token }));
    }
    if let Some(access_token) = text_in(alloc, value, "access_token")? {
        return Ok(Some(RegistryToken::AccessToken { access_token }));
    }
    Ok(None)
}

impl RegistryToken {
    ghost use Rattle.oci_auth.specs.Token.{token_text};

    /// Reads the body of a realm's response: an object without floats, with a string `token`, else with a string
    /// `access_token`. Returns `Unreadable` for every other body.
    pub fn read(alloc: Global, body: &[u8]) -> Result<RegistryToken, TokenError>
        ensures { ReadsToken result (token_of body.now) }
    {
        let Some(json) = read_plain_json(alloc, body)? else {
            return Err(TokenError::Unreadable);
        };
        match token_in(alloc, json.value())? {
            Some(token) => Ok(token),
            None => Err(TokenError::Unreadable),
        }
    }

    /// Returns the token as its realm issued it.
    pub fn token(&self) -> &str
        ensures { result.now ≡ token_text self.now }
    {
        match self {
            RegistryToken::Token { token } => token.as_str(),
            RegistryToken::AccessToken { access_token } => access_token.as_str(),
        }
    }

    /// Returns the value of an `authorization` header with the token (RFC 6750, 2.1).
    pub fn bearer_token(&self, alloc: Global) -> Result<Text, AllocError>
        ensures { IfOk result (λ t. t ≡ codes "Bearer " ++ token_text self.now) }
    {
        let mut bearer = Text::new(alloc, "Bearer ")?;
        bearer.push_str(self.token())?;
        Ok(bearer)
    }
}

impl Copied for RegistryToken {
    fn copy(&self, alloc: Global) -> Result<RegistryToken, AllocError> {
        match self {
            RegistryToken::Token { token } => Ok(RegistryToken::Token {
                token: token.copy(alloc)?,
            }),
            RegistryToken::AccessToken { access_token } => Ok(RegistryToken::AccessToken {
                access_token: access_token.copy(alloc)?,
            }),
        }
    }
}

/// The token itself is not printed, whatever the formatter.
impl fmt::Debug for RegistryToken {
    ghost use Rattle.std.specs.Prelude.{Some};
    ghost use Rattle.std.specs.Fmt.{DisplaysOnOk, WritesStyledOnOk};
    ghost use Rattle.oci_auth.specs.Shown.{shown_token};

    ghost debug_output = { λ token. Some (shown_token token) };

    fn fmt<W: fmt::Write>(&self, f: &mut fmt::Formatter<W>) -> fmt::Result
        ensures writes { DisplaysOnOk W.write_str_gives f.old result (Some (shown_token self.now)) f.new }
        ensures styled { WritesStyledOnOk W.write_str_gives f.old result (shown_token self.now) f.new }
    {
        match self {
            RegistryToken::Token { .. } => f.write_str("Token { token: \"<redacted>\" }"),
            RegistryToken::AccessToken { .. } => f.write_str(
                "AccessToken { access_token: \"<redacted>\" }",
            ),
        }
    }
}
