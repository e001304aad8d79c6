// Which image of an index is selected.
ghost use Rattle.serde_json.specs.View.{view};
ghost use Rattle.json_tables.specs.Outcomes.{ReadsTo};
ghost use Rattle.json_tables.specs.Member.{unless_null};
ghost use Rattle.recorded_case.specs.Platform.{fixed_of, platform_named, platform_of};

use json_tables::{Member, ReadError, only, required};
use json_values::Text;
use oci_manifests::PlatformResolver;
use oci_names::{Arch, Os};
use serde_json::Value;
use std::alloc::Global;
use std::marker::Model;

/// The platform resolver, if one is given. A contract sees its promise.
#[derive(Drop)]
pub struct Platform {
    pub resolver: Option<PlatformResolver>,
}

impl Model for Platform {
    ghost use Rattle.std.specs.Prelude.{Option};
    ghost use Rattle.oci_manifests.specs.declared.promise.ResolverPromise.{ResolverPromise};

    ghost Value = { Option ResolverPromise };

    ghost view = { λ platform. platform.resolver };
}

impl Member for Platform {
    ghost found = { unless_null platform_of };

    fn read_member(alloc: Global, member: Option<&Value>) -> Result<Platform, ReadError> {
        match member {
            None | Some(Value::Null) => Ok(Platform { resolver: None }),
            Some(value) => {
                let resolver = read_platform(alloc, value)?;
                Ok(Platform {
                    resolver: Some(resolver),
                })
            }
        }
    }
}

#[tactic(auto, unfolding(crate::specs::Platform::platform_of))]
fn read_platform(alloc: Global, value: &Value) -> Result<PlatformResolver, ReadError>
    ensures { ReadsTo result (platform_of (view value.now)) }
{
    match value {
        Value::String(text) => read_named(alloc, text.as_str()),
        _ => read_fixed(alloc, value),
    }
}

// An operating system and an architecture, before and after the first slash.
fn read_named(alloc: Global, text: &str) -> Result<PlatformResolver, ReadError>
    ensures { ReadsTo result (platform_named text.now) }
{
    let Some((os, architecture)) = text.split_once('/') else {
        return Err(ReadError::Shape);
    };
    let os = Text::new(alloc, os)?;
    let architecture = Text::new(alloc, architecture)?;
    Ok(PlatformResolver::first_match(Os::new(os), Arch::new(architecture)))
}

#[tactic(auto, unfolding(crate::specs::Platform::fixed_of))]
fn read_fixed(alloc: Global, value: &Value) -> Result<PlatformResolver, ReadError>
    ensures { ReadsTo result (fixed_of (view value.now)) }
{
    only(value, &["digest"])?;
    let digest: Text = required(alloc, value, "digest")?;
    Ok(PlatformResolver::fixed(digest))
}
