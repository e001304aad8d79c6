ghost use Rattle.std.specs.Prelude.{◌≡◌, IfOk, Ok, None, false};
ghost use Rattle.serde_json.specs.View.{view};
ghost use Rattle.service_models.specs.ModelError.{ReadsModel};

use crate::model_error::{ModelError, read_model};
use crate::proposed_entry::ProposedEntry;
use crate::whole::wholes;
use json_tables::{ReadError, Reads, Writes, object, read_row};
use json_values::{Copied, List, Text, ToValue, copied, row};
use serde_json::Value;
use std::alloc::{AllocError, Global};

/// A query for entries (Rekor's API, `SearchLogQuery`).
#[derive(Debug, Drop)]
pub struct SearchLogQuery {
    pub entry_uuids: Option<List<Text>>,
    pub log_indexes: Option<List<i32>>,
    pub entries: Option<List<ProposedEntry>>,
}

impl SearchLogQuery {
    ghost use Rattle.service_models.specs.SearchLogQuery.{query_of};

    /// Creates an empty query.
    pub fn new() -> SearchLogQuery
        ensures { result ≡ record { entry_uuids = None; log_indexes = None; entries = None } }
    {
        SearchLogQuery {
            entry_uuids: None,
            log_indexes: None,
            entries: None,
        }
    }

    /// Reads a query. Returns `Float` if and only if it contains a float, otherwise `Shape` if it does not match.
    pub fn read(alloc: Global, value: &Value) -> Result<SearchLogQuery, ModelError>
        ensures { ReadsModel result query_of (view value.now) }
    {
        read_model(alloc, value)
    }
}

impl Reads for SearchLogQuery {
    ghost use Rattle.service_models.specs.SearchLogQuery.{query_of};

    ghost reading = { query_of };

    #[tactic(auto, unfolding(crate::specs::SearchLogQuery::query_of))]
    fn read_value(alloc: Global, value: &Value) -> Result<SearchLogQuery, ReadError> {
        let row![entry_uuids, log_indexes, entries] = read_row::<Self, _>(
            alloc,
            value,
            &["entryUUIDs", "logIndexes", "entries"],
        )?;
        Ok(SearchLogQuery {
            entry_uuids,
            log_indexes,
            entries,
        })
    }
}

impl Writes for SearchLogQuery {
    ghost use Rattle.service_models.specs.SearchLogQuery.{query_written, entries_have_float};

    ghost written = { query_written };

    ghost floats = { entries_have_float };

    #[tactic(auto, unfolding(crate::specs::SearchLogQuery::query_written))]
    fn write_value(&self, alloc: Global) -> Result<Value, AllocError> {
        let log_indexes = wholes(alloc, &self.log_indexes)?;
        let value = object!(alloc, {
            "entryUUIDs": &self.entry_uuids,
            "logIndexes": &log_indexes,
            "entries": &self.entries,
        })?;
        Ok(value)
    }
}

impl ToValue for SearchLogQuery {
    ghost use Rattle.service_models.specs.SearchLogQuery.{query_of, query_written, entries_have_float};

    ghost written = { query_written };

    /// Writes the query without its members that are `None`. If its entries contain no float, the result round-trips.
    #[tactic(auto, using(json_tables::proofs::Whole::document_again))]
    fn to_value(&self, alloc: Global) -> Result<Value, AllocError>
        ensures exact { IfOk result (λ v. view v ≡ query_written self.now) }
        ensures reads_back { IfOk result (λ v. entries_have_float self.now ≡ false
            → ReadsModel (Ok self.now) query_of (view v)) }
    {
        let value = self.write_value(alloc)?;
        Ok(value)
    }
}

impl Copied for SearchLogQuery {
    fn copy(&self, alloc: Global) -> Result<SearchLogQuery, AllocError> {
        copied!(
            alloc,
            self,
            SearchLogQuery {
                entry_uuids,
                log_indexes,
                entries
            }
        )
    }
}
