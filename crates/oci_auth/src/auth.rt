// The credentials that a client sends to a registry.
ghost use Rattle.std.specs.Prelude.{◌≡◌, IfOk};

use crate::shown::write_basic;
use crate::token::RegistryToken;
use crate::token_type::RegistryTokenType;
use json_values::{Copied, Text, copy_all, row};
use std::alloc::{AllocError, Global};
use std::fmt;

/// The credentials that a client sends to a registry: none, a user name and a password, or a token.
#[derive(Drop, PartialEq, Eq)]
pub enum RegistryAuth {
    Anonymous,
    /// A user name and a password.
    Basic(Text, Text),
    /// A token.
    Bearer(Text),
}

impl RegistryAuth {
    ghost use Rattle.oci_auth.specs.Auth.{own_token, unasked};

    /// Returns the token that can be built from the credentials without a request.
    pub fn own_token(&self, alloc: Global) -> Result<Option<RegistryTokenType>, AllocError>
        ensures { IfOk result (λ token. token ≡ own_token self.now) }
    {
        match self {
            RegistryAuth::Anonymous => Ok(None),
            RegistryAuth::Basic(user, password) => {
                let row![user, password] = copy_all(alloc, row![user, password])?;
                Ok(Some(RegistryTokenType::Basic(user, password)))
            }
            RegistryAuth::Bearer(token) => {
                let token = token.copy(alloc)?;
                Ok(Some(RegistryTokenType::Bearer(RegistryToken::Token { token })))
            }
        }
    }

    /// Returns the token that is sent to a registry without a request for one, if the credentials are a token.
    pub fn unasked(&self, alloc: Global) -> Result<Option<RegistryTokenType>, AllocError>
        ensures { IfOk result (λ token. token ≡ unasked self.now) }
    {
        match self {
            RegistryAuth::Anonymous => Ok(None),
            RegistryAuth::Basic(_, _) => Ok(None),
            RegistryAuth::Bearer(_) => self.own_token(alloc),
        }
    }
}

impl Copied for RegistryAuth {
    fn copy(&self, alloc: Global) -> Result<RegistryAuth, AllocError> {
        match self {
            RegistryAuth::Anonymous => Ok(RegistryAuth::Anonymous),
            RegistryAuth::Basic(user, password) => {
                let row![user, password] = copy_all(alloc, row![user, password])?;
                Ok(RegistryAuth::Basic(user, password))
            }
            RegistryAuth::Bearer(token) => Ok(RegistryAuth::Bearer(token.copy(alloc)?)),
        }
    }
}

/// Neither the password nor the token is printed, whatever the formatter.
impl fmt::Debug for RegistryAuth {
    ghost use Rattle.std.specs.Prelude.{Some};
    ghost use Rattle.std.specs.Fmt.{DisplaysOnOk, WritesStyledOnOk};
    ghost use Rattle.oci_auth.specs.Shown.{shown_auth};

    ghost debug_output = { λ auth. Some (shown_auth auth) };

    fn fmt<W: fmt::Write>(&self, f: &mut fmt::Formatter<W>) -> fmt::Result
        ensures writes { DisplaysOnOk W.write_str_gives f.old result (Some (shown_auth self.now)) f.new }
        ensures styled { WritesStyledOnOk W.write_str_gives f.old result (shown_auth self.now) f.new }
    {
        match self {
            RegistryAuth::Anonymous => f.write_str("Anonymous"),
            RegistryAuth::Basic(user, _) => write_basic(f, user.as_str()),
            RegistryAuth::Bearer(_) => f.write_str("Bearer(\"<redacted>\")"),
        }
    }
}
