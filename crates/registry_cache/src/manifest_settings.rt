ghost use Rattle.std.specs.Prelude.{◌≡◌, IfOk};
ghost use Rattle.hex.specs.Hex.{encode_lower};
ghost use Rattle.sha2.specs.Sha256.{sha256};
ghost use Rattle.json_events.specs.Canonical.{Canonical};
ghost use Rattle.registry_cache.specs.Keys.{manifest_key};
ghost use Rattle.registry_cache.specs.Settings.{manifest_value};

use crate::auth::Auth;
use crate::text::{digits_of, text_of};
use crate::written::Written;
use json_tables::object;
use json_values::{Blob, Copied, Text, ToValue, copy_all, row};
use oci_auth::RegistryAuth;
use oci_names::Reference;
use serde_json::Value;
use std::alloc::{AllocError, Global};

/// The arguments of a call for a digest or a manifest.
#[derive(Drop)]
pub struct PullManifestSettings {
    image: Reference,
    auth: RegistryAuth,
}

impl PullManifestSettings {
    pub fn new(
        alloc: Global,
        image: &Reference,
        auth: &RegistryAuth,
    ) -> Result<PullManifestSettings, AllocError>
        ensures { IfOk result (λ settings. settings ≡ record { image = image.now; auth = auth.now }) }
    {
        let row![image, auth] = copy_all(alloc, row![image, auth])?;
        Ok(PullManifestSettings { image, auth })
    }

    pub fn image(&self) -> &Reference
        ensures { result.now ≡ self.now.image }
    {
        &self.image
    }

    pub fn auth(&self) -> &RegistryAuth
        ensures { result.now ≡ self.now.auth }
    {
        &self.auth
    }

    /// Returns the canonical text (RFC 8785) of the settings.
    pub fn key_text(&self, alloc: Global) -> Result<Blob, AllocError>
        ensures key { IfOk result (λ text. text ≡ manifest_key self.now.image self.now.auth) }
        ensures canonical { IfOk result (λ text. Canonical (manifest_value self.now) text) }
    {
        text_of(alloc, self)
    }

    /// Returns the SHA-256 of the key text as 64 lower-case hexadecimal digits.
    pub fn hash(&self, alloc: Global) -> Result<Text, AllocError>
        ensures { IfOk result (λ digits. digits
            ≡ encode_lower (sha256 (manifest_key self.now.image self.now.auth))) }
    {
        let text = self.key_text(alloc)?;
        digits_of(alloc, text.as_slice())
    }
}

/// Converts to an object with `image`, the whole text of the reference, and `auth`.
impl ToValue for PullManifestSettings {
    ghost written = { manifest_value };

    fn to_value(&self, alloc: Global) -> Result<Value, AllocError> {
        let image = self.image.whole(alloc)?;
        let auth = Auth::from_registry(alloc, &self.auth)?;
        let value = object!(alloc, { "image": &image, "auth": &Written(&auth) })?;
        Ok(value)
    }
}
