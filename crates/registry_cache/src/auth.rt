// Credentials for a registry.
ghost use Rattle.std.specs.Prelude.{◌≡◌, ◌∷◌, [], IfOk};
ghost use Rattle.registry_cache.specs.Auths.{registry_auth, auth_from};

use json_tables::object;
use json_values::{Copied, List, Text, ToValue, copy_all, row};
use oci_auth::{RegistryAuth, write_basic};
use serde_json::Value;
use std::alloc::{AllocError, Global};
use std::fmt;

/// Credentials for a registry: none, a user name and a password, or a token.
#[derive(Drop, PartialEq, Eq)]
pub enum Auth {
    Anonymous,
    Basic(Text, Text),
    Bearer(Text),
}

impl Auth {
    /// Returns the same credentials as the registry client's type.
    pub fn to_registry(&self, alloc: Global) -> Result<RegistryAuth, AllocError>
        ensures { IfOk result (λ auth. auth ≡ registry_auth self.now) }
    {
        match self {
            Auth::Anonymous => Ok(RegistryAuth::Anonymous),
            Auth::Basic(user, password) => {
                let row![user, password] = copy_all(alloc, row![user, password])?;
                Ok(RegistryAuth::Basic(user, password))
            }
            Auth::Bearer(token) => {
                let token = token.copy(alloc)?;
                Ok(RegistryAuth::Bearer(token))
            }
        }
    }

    /// Copies the registry client's credentials.
    pub fn from_registry(alloc: Global, auth: &RegistryAuth) -> Result<Auth, AllocError>
        ensures made { IfOk result (λ made. made ≡ auth_from auth.now) }
        ensures back { IfOk result (λ made. registry_auth made ≡ auth.now) }
    {
        match auth {
            RegistryAuth::Anonymous => Ok(Auth::Anonymous),
            RegistryAuth::Basic(user, password) => {
                let row![user, password] = copy_all(alloc, row![user, password])?;
                Ok(Auth::Basic(user, password))
            }
            RegistryAuth::Bearer(token) => {
                let token = token.copy(alloc)?;
                Ok(Auth::Bearer(token))
            }
        }
    }
}

// A user name and a password, as a list.
fn pair(alloc: Global, user: &Text, password: &Text) -> Result<List<Text>, AllocError>
    ensures { IfOk result (λ pair. pair ≡ user.now ∷ password.now ∷ []) }
{
    let row![user, password] = copy_all(alloc, row![user, password])?;
    let mut pair = List::new(alloc);
    pair.push(user)?;
    pair.push(password)?;
    Ok(pair)
}

/// Converts to `"Anonymous"`, `{"Basic": [user, password]}` or `{"Bearer": token}`.
impl ToValue for Auth {
    ghost use Rattle.registry_cache.specs.Auths.{auth_value};

    ghost written = { auth_value };

    fn to_value(&self, alloc: Global) -> Result<Value, AllocError> {
        match self {
            Auth::Anonymous => Text::new(alloc, "Anonymous")?.to_value(alloc),
            Auth::Basic(user, password) => {
                let pair = pair(alloc, user, password)?;
                let value = object!(alloc, { "Basic": &pair })?;
                Ok(value)
            }
            Auth::Bearer(token) => {
                let value = object!(alloc, { "Bearer": token })?;
                Ok(value)
            }
        }
    }
}

impl Copied for Auth {
    fn copy(&self, alloc: Global) -> Result<Auth, AllocError> {
        match self {
            Auth::Anonymous => Ok(Auth::Anonymous),
            Auth::Basic(user, password) => {
                let row![user, password] = copy_all(alloc, row![user, password])?;
                Ok(Auth::Basic(user, password))
            }
            Auth::Bearer(token) => Ok(Auth::Bearer(token.copy(alloc)?)),
        }
    }
}

/// Prints neither the password nor the token, in any format.
impl fmt::Debug for Auth {
    ghost use Rattle.std.specs.Prelude.{Some};
    ghost use Rattle.std.specs.Fmt.{DisplaysOnOk, WritesStyledOnOk};
    ghost use Rattle.oci_auth.specs.Shown.{shown_auth};

    ghost debug_output = { λ auth. Some (shown_auth (registry_auth auth)) };

    fn fmt<W: fmt::Write>(&self, f: &mut fmt::Formatter<W>) -> fmt::Result
        ensures writes { DisplaysOnOk W.write_str_gives f.old result
            (Some (shown_auth (registry_auth self.now))) f.new }
        ensures styled { WritesStyledOnOk W.write_str_gives f.old result
            (shown_auth (registry_auth self.now)) f.new }
    {
        match self {
            Auth::Anonymous => f.write_str("Anonymous"),
            Auth::Basic(user, _) => write_basic(f, user.as_str()),
            Auth::Bearer(_) => f.write_str("Bearer(\"<redacted>\")"),
        }
    }
}
