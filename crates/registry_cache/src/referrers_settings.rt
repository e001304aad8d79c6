ghost use Rattle.std.specs.Prelude.{◌≡◌, IfOk, option_copied};
ghost use Rattle.hex.specs.Hex.{encode_lower};
ghost use Rattle.sha2.specs.Sha256.{sha256};
ghost use Rattle.json_events.specs.Canonical.{Canonical};
ghost use Rattle.registry_cache.specs.Keys.{referrers_key};
ghost use Rattle.registry_cache.specs.Settings.{referrers_value};

use crate::auth::Auth;
use crate::text::{digits_of, text_of};
use crate::written::Written;
use json_tables::object;
use json_values::{Blob, Copied, Text, ToValue, copy_all, row};
use oci_auth::RegistryAuth;
use oci_names::Reference;
use serde_json::Value;
use std::alloc::{AllocError, Global};

/// The arguments of a call for the list of referrers of an image.
#[derive(Drop)]
pub struct PullReferrersSettings {
    image: Reference,
    auth: RegistryAuth,
    artifact_type: Option<Text>,
}

fn optional_text(alloc: Global, text: Option<&str>) -> Result<Option<Text>, AllocError>
    ensures { IfOk result (λ copy. copy ≡ option_copied text.entry) }
{
    match text {
        Some(text) => Ok(Some(Text::new(alloc, text)?)),
        None => Ok(None),
    }
}

impl PullReferrersSettings {
    pub fn new(
        alloc: Global,
        image: &Reference,
        auth: &RegistryAuth,
        artifact_type: Option<&str>,
    ) -> Result<PullReferrersSettings, AllocError>
        ensures { IfOk result (λ settings. settings ≡ record {
          image = image.now;
          auth = auth.now;
          artifact_type = option_copied artifact_type.entry;
        }) }
    {
        let row![image, auth] = copy_all(alloc, row![image, auth])?;
        let artifact_type = optional_text(alloc, artifact_type)?;
        Ok(PullReferrersSettings {
            image,
            auth,
            artifact_type,
        })
    }

    pub fn image(&self) -> &Reference
        ensures { result.now ≡ self.now.image }
    {
        &self.image
    }

    pub fn auth(&self) -> &RegistryAuth
        ensures { result.now ≡ self.now.auth }
    {
        &self.auth
    }

    /// Returns the canonical text (RFC 8785) of the settings.
    pub fn key_text(&self, alloc: Global) -> Result<Blob, AllocError>
        ensures key { IfOk result (λ text. text
            ≡ referrers_key self.now.image self.now.auth self.now.artifact_type) }
        ensures canonical { IfOk result (λ text. Canonical (referrers_value self.now) text) }
    {
        text_of(alloc, self)
    }

    /// Returns the SHA-256 of the key text as 64 lower-case hexadecimal digits.
    pub fn hash(&self, alloc: Global) -> Result<Text, AllocError>
        ensures { IfOk result (λ digits. digits ≡ encode_lower (sha256
            (referrers_key self.now.image self.now.auth self.now.artifact_type))) }
    {
        let text = self.key_text(alloc)?;
        digits_of(alloc, text.as_slice())
    }
}

/// Converts to an object with `image`, the whole text of the reference, `auth` and `artifact_type`, null if `None`.
impl ToValue for PullReferrersSettings {
    ghost written = { referrers_value };

    fn to_value(&self, alloc: Global) -> Result<Value, AllocError> {
        let image = self.image.whole(alloc)?;
        let auth = Auth::from_registry(alloc, &self.auth)?;
        let value = object!(alloc, {
            "image": &image,
            "auth": &Written(&auth),
            "artifact_type": &Written(&self.artifact_type),
        })?;
        Ok(value)
    }
}
