ghost use Rattle.std.specs.Prelude.{◌≡◌, IfOk, Ok, None};
ghost use Rattle.serde_json.specs.View.{view};
ghost use Rattle.service_models.specs.ModelError.{ReadsModel};

use crate::model_error::{ModelError, read_model};
use crate::public_key::SearchIndexPublicKey;
use json_tables::{ReadError, Reads, Writes, object, read_row};
use json_values::{Copied, Text, ToValue, copied, row};
use serde_json::Value;
use std::alloc::{AllocError, Global};

/// A search in the log's index (Rekor's API, `SearchIndex`).
#[derive(Debug, Drop)]
pub struct SearchIndex {
    pub email: Option<Text>,
    pub public_key: Option<SearchIndexPublicKey>,
    /// The algorithm, a colon and the digits, for example `sha256:..`.
    pub hash: Option<Text>,
}

impl SearchIndex {
    ghost use Rattle.service_models.specs.SearchIndex.{search_index_of};

    /// Creates an empty search.
    pub fn new() -> SearchIndex
        ensures { result ≡ record { email = None; public_key = None; hash = None } }
    {
        SearchIndex {
            email: None,
            public_key: None,
            hash: None,
        }
    }

    /// Reads a search. Returns `Float` if and only if it contains a float, otherwise `Shape` if it does not match.
    pub fn read(alloc: Global, value: &Value) -> Result<SearchIndex, ModelError>
        ensures { ReadsModel result search_index_of (view value.now) }
    {
        read_model(alloc, value)
    }
}

impl Reads for SearchIndex {
    ghost use Rattle.service_models.specs.SearchIndex.{search_index_of};

    ghost reading = { search_index_of };

    #[tactic(auto, unfolding(crate::specs::SearchIndex::search_index_of))]
    fn read_value(alloc: Global, value: &Value) -> Result<SearchIndex, ReadError> {
        let row![email, public_key, hash] = read_row::<Self, _>(
            alloc,
            value,
            &["email", "publicKey", "hash"],
        )?;
        Ok(SearchIndex {
            email,
            public_key,
            hash,
        })
    }
}

impl Writes for SearchIndex {
    ghost use Rattle.service_models.specs.SearchIndex.{search_index_written};

    ghost written = { search_index_written };

    #[tactic(auto, unfolding(crate::specs::SearchIndex::search_index_written))]
    fn write_value(&self, alloc: Global) -> Result<Value, AllocError> {
        let value = object!(alloc, {
            "email": &self.email,
            "publicKey": &self.public_key,
            "hash": &self.hash,
        })?;
        Ok(value)
    }
}

impl ToValue for SearchIndex {
    ghost use Rattle.service_models.specs.SearchIndex.{search_index_of, search_index_written};

    ghost written = { search_index_written };

    /// Writes the search without its members that are `None`. The result round-trips.
    #[tactic(auto, using(json_tables::proofs::Whole::document_again))]
    fn to_value(&self, alloc: Global) -> Result<Value, AllocError>
        ensures exact { IfOk result (λ v. view v ≡ search_index_written self.now) }
        ensures reads_back { IfOk result (λ v. ReadsModel (Ok self.now) search_index_of (view v)) }
    {
        let value = self.write_value(alloc)?;
        Ok(value)
    }
}

impl Copied for SearchIndex {
    fn copy(&self, alloc: Global) -> Result<SearchIndex, AllocError> {
        copied!(
            alloc,
            self,
            SearchIndex {
                email,
                public_key,
                hash
            }
        )
    }
}
