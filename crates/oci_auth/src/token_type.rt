// What a client stores for a registry, and for which operation.
ghost use Rattle.std.specs.Prelude.{◌≡◌, ◌↔◌, ◌++◌, IfOk, IsTrue, codes};
ghost use Rattle.base64.specs.Engines.{standard};
ghost use Rattle.base64.specs.GeneralPurpose.{encode_of};

use crate::shown::write_basic;
use crate::token::RegistryToken;
use base64::engine::general_purpose::STANDARD;
use json_values::{Copied, Text, copy_all, row};
use std::alloc::{AllocError, Global};
use std::cmp::Ordering;
use std::fmt;

/// What is sent to a registry as credentials: a realm's token, or the credentials themselves, a user
/// name and a password.
#[derive(Drop)]
pub enum RegistryTokenType {
    Bearer(RegistryToken),
    /// A user name and a password.
    Basic(Text, Text),
}

/// What a token allows. `Push` comes before `Pull`.
#[derive(Clone, Copy, Debug)]
pub enum RegistryOperation {
    /// To put blobs and manifests into a repository.
    Push,
    /// To read them.
    Pull,
}

impl RegistryOperation {
    ghost use Rattle.oci_auth.specs.Operations.{place_of};

    fn place(&self) -> u8
        ensures { result ≡ place_of self.now }
    {
        match self {
            RegistryOperation::Push => 0,
            RegistryOperation::Pull => 1,
        }
    }
}

impl RegistryTokenType {
    ghost use Rattle.oci_auth.specs.Auth.{authorization_of};

    /// Returns the value of the `authorization` header: `Bearer` and the token (RFC 6750, 2.1), or `Basic` and base64
    /// of the user name, a colon and the password (RFC 7617, 2).
    pub fn authorization(&self, alloc: Global) -> Result<Text, AllocError>
        ensures { IfOk result (λ value. value ≡ authorization_of self.now) }
    {
        match self {
            RegistryTokenType::Bearer(token) => {
                let value = token.bearer_token(alloc)?;
                Ok(value)
            }
            RegistryTokenType::Basic(user, password) => {
                let value = basic_value(alloc, user.as_str(), password.as_str())?;
                Ok(value)
            }
        }
    }
}

fn basic_value(alloc: Global, user: &str, password: &str) -> Result<Text, AllocError>
    ensures { IfOk result (λ value. value
        ≡ codes "Basic " ++ encode_of standard (user.now ++ codes ":" ++ password.now)) }
{
    let mut both = Text::new(alloc, user)?;
    both.push_str(":")?;
    both.push_str(password)?;
    let coded = STANDARD.encode(alloc, both.as_str().as_bytes())?;
    let mut value = Text::new(alloc, "Basic ")?;
    value.push_str(coded.as_str())?;
    Ok(value)
}

impl Copied for RegistryTokenType {
    fn copy(&self, alloc: Global) -> Result<RegistryTokenType, AllocError> {
        match self {
            RegistryTokenType::Bearer(token) => Ok(RegistryTokenType::Bearer(token.copy(alloc)?)),
            RegistryTokenType::Basic(user, password) => {
                let row![user, password] = copy_all(alloc, row![user, password])?;
                Ok(RegistryTokenType::Basic(user, password))
            }
        }
    }
}

/// Neither the token nor the password is printed, whatever the formatter.
impl fmt::Debug for RegistryTokenType {
    ghost use Rattle.std.specs.Prelude.{Some};
    ghost use Rattle.std.specs.Fmt.{DisplaysOnOk, WritesStyledOnOk};
    ghost use Rattle.oci_auth.specs.Shown.{shown_token_type};

    ghost debug_output = { λ token. Some (shown_token_type token) };

    fn fmt<W: fmt::Write>(&self, f: &mut fmt::Formatter<W>) -> fmt::Result
        ensures writes { DisplaysOnOk W.write_str_gives f.old result (Some (shown_token_type self.now)) f.new }
        ensures styled { WritesStyledOnOk W.write_str_gives f.old result (shown_token_type self.now) f.new }
    {
        match self {
            RegistryTokenType::Bearer(token) => {
                f.write_str("Bearer(")?;
                token.fmt(f)?;
                f.write_str(")")
            }
            RegistryTokenType::Basic(user, _) => write_basic(f, user.as_str()),
        }
    }
}

impl Copied for RegistryOperation {
    fn copy(&self, _alloc: Global) -> Result<RegistryOperation, AllocError> {
        Ok(*self)
    }
}

impl PartialEq for RegistryOperation {
    ghost use Rattle.std.specs.Cmp.{partial_equiv_from_equiv};
    ghost use Rattle.oci_auth.specs.Operations.{is_same_operation, equal};

    ghost eq = { is_same_operation };

    ghost laws = { partial_equiv_from_equiv equal };

    fn eq(&self, other: &RegistryOperation) -> bool
        ensures value { result ≡ is_same_operation self.now other.now }
        ensures same { IsTrue result ↔ (self.now ≡ other.now) }
    {
        self.place() == other.place()
    }
}

impl Eq for RegistryOperation {
    ghost use Rattle.oci_auth.specs.Operations.{equal};

    ghost laws = { equal };
}

impl PartialOrd for RegistryOperation {
    ghost use Rattle.std.specs.Prelude.{Some};
    ghost use Rattle.std.proofs.Common.{rules};
    ghost use Rattle.std.specs.Cmp.Rules.{comparing};
    ghost use Rattle.std.specs.Cmp.{partial_order_from_own_ties};
    ghost use Rattle.oci_auth.specs.Operations.{order};

    ghost partial_cmp = { λ a b. Some (order a b) };

    ghost laws = { partial_order_from_own_ties (Prim.search (comparing, rules)) (Prim.search (comparing, rules)) };

    fn partial_cmp(&self, other: &RegistryOperation) -> Option<Ordering> {
        Some(self.cmp(other))
    }
}

impl Ord for RegistryOperation {
    ghost use Rattle.std.proofs.Common.{rules};
    ghost use Rattle.std.specs.Cmp.Rules.{comparing};
    ghost use Rattle.oci_auth.specs.Operations.{order, ordered};

    ghost cmp = { order };

    ghost total = { ordered };

    ghost matches_partial_cmp = { Prim.search (comparing, rules) };

    ghost matches_eq = { Prim.search (comparing, rules) };

    fn cmp(&self, other: &RegistryOperation) -> Ordering {
        self.place().cmp(&other.place())
    }
}
