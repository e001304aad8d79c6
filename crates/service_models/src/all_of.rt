ghost use Rattle.std.specs.Prelude.{◌≡◌, IfOk, Ok, false};
ghost use Rattle.serde_json.specs.View.{view};
ghost use Rattle.service_models.specs.ModelError.{ReadsModel};

use crate::model_error::{ModelError, read_model};
use json_tables::{ReadError, Reads, Writes, object, required};
use json_values::{Copied, Json, Text, ToValue, copied};
use serde_json::Value;
use std::alloc::{AllocError, Global};

/// The members of an entry besides its kind (Rekor's API, `allOf`).
#[derive(Debug, Drop)]
pub struct EntryAllOf {
    /// The version of the kind's form, for example `0.0.1`.
    pub api_version: Text,
    /// The content, by kind and version; any JSON value.
    pub spec: Json,
}

/// An Alpine package.
pub type AlpineAllOf = EntryAllOf;

/// A signed digest.
pub type HashedrekordAllOf = EntryAllOf;

/// A Helm chart.
pub type HelmAllOf = EntryAllOf;

/// An in-toto attestation.
pub type IntotoAllOf = EntryAllOf;

/// A Java archive.
pub type JarAllOf = EntryAllOf;

/// A signed artifact.
pub type RekordAllOf = EntryAllOf;

/// A timestamp (RFC 3161).
pub type Rfc3161AllOf = EntryAllOf;

/// An RPM package.
pub type RpmAllOf = EntryAllOf;

/// Metadata of The Update Framework.
pub type TufAllOf = EntryAllOf;

impl EntryAllOf {
    ghost use Rattle.service_models.specs.AllOf.{all_of};

    pub fn new(api_version: Text, spec: Json) -> EntryAllOf
        ensures { result ≡ record { api_version = api_version; spec = spec } }
    {
        EntryAllOf { api_version, spec }
    }

    /// Reads the members. Returns `Float` if and only if the value contains a float, else `Shape` if it does not match.
    pub fn read(alloc: Global, value: &Value) -> Result<EntryAllOf, ModelError>
        ensures { ReadsModel result all_of (view value.now) }
    {
        read_model(alloc, value)
    }
}

impl Reads for EntryAllOf {
    ghost use Rattle.service_models.specs.AllOf.{all_of};

    ghost reading = { all_of };

    #[tactic(auto, unfolding(crate::specs::AllOf::all_of))]
    fn read_value(alloc: Global, value: &Value) -> Result<EntryAllOf, ReadError> {
        let api_version = required(alloc, value, "apiVersion")?;
        let spec = required(alloc, value, "spec")?;
        Ok(EntryAllOf { api_version, spec })
    }
}

impl Writes for EntryAllOf {
    ghost use Rattle.service_models.specs.AllOf.{all_of_written, spec_has_float};

    ghost written = { all_of_written };

    ghost floats = { spec_has_float };

    #[tactic(auto, unfolding(crate::specs::AllOf::all_of_written))]
    fn write_value(&self, alloc: Global) -> Result<Value, AllocError> {
        let value = object!(alloc, {
            "apiVersion": &self.api_version,
            "spec": &self.spec,
        })?;
        Ok(value)
    }
}

impl ToValue for EntryAllOf {
    ghost use Rattle.service_models.specs.AllOf.{all_of, all_of_written, spec_has_float};

    ghost written = { all_of_written };

    /// Writes the members. If the spec contains no float, the result round-trips.
    #[tactic(auto, using(json_tables::proofs::Whole::document_again))]
    fn to_value(&self, alloc: Global) -> Result<Value, AllocError>
        ensures exact { IfOk result (λ v. view v ≡ all_of_written self.now) }
        ensures reads_back { IfOk result (λ v. spec_has_float self.now ≡ false
            → ReadsModel (Ok self.now) all_of (view v)) }
    {
        let value = self.write_value(alloc)?;
        Ok(value)
    }
}

impl Copied for EntryAllOf {
    fn copy(&self, alloc: Global) -> Result<EntryAllOf, AllocError> {
        copied!(alloc, self, EntryAllOf { api_version, spec })
    }
}
