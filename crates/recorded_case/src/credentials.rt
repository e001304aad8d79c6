// The credentials of a case.
ghost use Rattle.std.specs.Option.{option_or};
ghost use Rattle.serde_json.specs.View.{view};
ghost use Rattle.json_tables.specs.Outcomes.{ReadsTo};
ghost use Rattle.oci_auth.specs.declared.auth.RegistryAuth.TheVariants.{Anonymous};
ghost use Rattle.recorded_case.specs.Auth.{basic_of, bearer_of, auth_of};

use crate::entries::{Entry, Usual};
use json_tables::{ReadError, only, required};
use json_values::Text;
use oci_auth::RegistryAuth;
use serde_json::Value;
use std::alloc::Global;

impl Entry for RegistryAuth {
    ghost entry = { auth_of };

    #[tactic(auto, unfolding(crate::specs::Auth::auth_of))]
    fn read_entry(alloc: Global, value: &Value) -> Result<RegistryAuth, ReadError> {
        match value {
            Value::String(text) if text.as_str() == "anonymous" => Ok(RegistryAuth::Anonymous),
            Value::String(_) => Err(ReadError::Shape),
            _ => read_object(alloc, value),
        }
    }
}

impl Usual for RegistryAuth {
    ghost usual = { Anonymous };

    fn usual(_alloc: Global) -> RegistryAuth {
        RegistryAuth::Anonymous
    }
}

// A user name and a password, or a token.
fn read_object(alloc: Global, value: &Value) -> Result<RegistryAuth, ReadError>
    ensures { ReadsTo result (option_or (basic_of (view value.now)) (bearer_of (view value.now))) }
{
    match read_basic(alloc, value) {
        Ok(auth) => Ok(auth),
        Err(ReadError::Shape) => {
            let auth = read_bearer(alloc, value)?;
            Ok(auth)
        }
        Err(error) => Err(error),
    }
}

#[tactic(auto, unfolding(crate::specs::Auth::basic_of))]
fn read_basic(alloc: Global, value: &Value) -> Result<RegistryAuth, ReadError>
    ensures { ReadsTo result (basic_of (view value.now)) }
{
    only(value, &["basic"])?;
    let (user, password): (Text, Text) = required(alloc, value, "basic")?;
    Ok(RegistryAuth::Basic(user, password))
}

#[tactic(auto, unfolding(crate::specs::Auth::bearer_of))]
fn read_bearer(alloc: Global, value: &Value) -> Result<RegistryAuth, ReadError>
    ensures { ReadsTo result (bearer_of (view value.now)) }
{
    only(value, &["bearer"])?;
    let token: Text = required(alloc, value, "bearer")?;
    Ok(RegistryAuth::Bearer(token))
}
