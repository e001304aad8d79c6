ghost use Rattle.std.specs.Prelude.{◌≡◌, IfOk, Ok, false};
ghost use Rattle.serde_json.specs.View.{view};
ghost use Rattle.service_models.specs.ModelError.{ReadsModel};

use crate::model_error::{ModelError, read_model};
use json_tables::{ReadError, Reads, Writes, object, required};
use json_values::{Copied, Json, Text, ToValue, copied};
use serde_json::Value;
use std::alloc::{AllocError, Global};

/// A proposed entry of the log, of any kind (Rekor's API, `ProposedEntry`).
#[derive(Debug, Drop)]
pub struct ProposedEntry {
    /// The kind of the entry, for example `hashedrekord`.
    pub kind: Text,
    /// The version of that kind's form, for example `0.0.1`.
    pub api_version: Text,
    /// The content, by kind and version; any JSON value.
    pub spec: Json,
}

/// An Alpine package.
pub type Alpine = ProposedEntry;

/// A signed digest.
pub type Hashedrekord = ProposedEntry;

/// A Helm chart.
pub type Helm = ProposedEntry;

/// An in-toto attestation.
pub type Intoto = ProposedEntry;

/// A Java archive.
pub type Jar = ProposedEntry;

/// A signed artifact.
pub type Rekord = ProposedEntry;

/// A timestamp (RFC 3161).
pub type Rfc3161 = ProposedEntry;

/// An RPM package.
pub type Rpm = ProposedEntry;

/// Metadata of The Update Framework.
pub type Tuf = ProposedEntry;

impl ProposedEntry {
    ghost use Rattle.service_models.specs.ProposedEntry.{proposed_entry_of};

    pub fn new(kind: Text, api_version: Text, spec: Json) -> ProposedEntry
        ensures { result ≡ record { kind = kind; api_version = api_version; spec = spec } }
    {
        ProposedEntry {
            kind,
            api_version,
            spec,
        }
    }

    /// Reads an entry. Returns `Float` if and only if it contains a float, otherwise `Shape` if it does not match.
    pub fn read(alloc: Global, value: &Value) -> Result<ProposedEntry, ModelError>
        ensures { ReadsModel result proposed_entry_of (view value.now) }
    {
        read_model(alloc, value)
    }
}

impl Reads for ProposedEntry {
    ghost use Rattle.service_models.specs.ProposedEntry.{proposed_entry_of};

    ghost reading = { proposed_entry_of };

    #[tactic(auto, unfolding(crate::specs::ProposedEntry::proposed_entry_of))]
    fn read_value(alloc: Global, value: &Value) -> Result<ProposedEntry, ReadError> {
        let kind = required(alloc, value, "kind")?;
        let api_version = required(alloc, value, "apiVersion")?;
        let spec = required(alloc, value, "spec")?;
        Ok(ProposedEntry {
            kind,
            api_version,
            spec,
        })
    }
}

impl Writes for ProposedEntry {
    ghost use Rattle.service_models.specs.ProposedEntry.{proposed_entry_written, spec_has_float};

    ghost written = { proposed_entry_written };

    ghost floats = { spec_has_float };

    #[tactic(auto, unfolding(crate::specs::ProposedEntry::proposed_entry_written))]
    fn write_value(&self, alloc: Global) -> Result<Value, AllocError> {
        let value = object!(alloc, {
            "kind": &self.kind,
            "apiVersion": &self.api_version,
            "spec": &self.spec,
        })?;
        Ok(value)
    }
}

impl ToValue for ProposedEntry {
    ghost use Rattle.service_models.specs.ProposedEntry.{proposed_entry_of, proposed_entry_written, spec_has_float};

    ghost written = { proposed_entry_written };

    /// Writes the entry. If its spec contains no float, the result round-trips.
    #[tactic(auto, using(json_tables::proofs::Whole::document_again))]
    fn to_value(&self, alloc: Global) -> Result<Value, AllocError>
        ensures exact { IfOk result (λ v. view v ≡ proposed_entry_written self.now) }
        ensures reads_back { IfOk result (λ v. spec_has_float self.now ≡ false
            → ReadsModel (Ok self.now) proposed_entry_of (view v)) }
    {
        let value = self.write_value(alloc)?;
        Ok(value)
    }
}

impl Copied for ProposedEntry {
    fn copy(&self, alloc: Global) -> Result<ProposedEntry, AllocError> {
        copied!(
            alloc,
            self,
            ProposedEntry {
                kind,
                api_version,
                spec
            }
        )
    }
}
