ghost use Rattle.serde_json.specs.View.{view};
ghost use Rattle.json_tables.specs.Outcomes.{ReadsDocument};

use json_tables::{ReadError, Reads, read_document, required};
use json_values::{Copied, List, Text};
use serde_json::Value;
use std::alloc::{AllocError, Global};

/// The repositories of a registry (Docker Registry HTTP API V2, "Catalog").
#[derive(Debug, Drop)]
pub struct CatalogResponse {
    /// The names of its repositories.
    pub repositories: List<Text>,
}

impl CatalogResponse {
    ghost use Rattle.oci_docs.specs.Catalog.{catalog_response_of};

    /// Reads a listing. Returns `Float` if and only if it contains a float, otherwise `Shape` if it does not match.
    pub fn read(alloc: Global, value: &Value) -> Result<CatalogResponse, ReadError>
        ensures { ReadsDocument result catalog_response_of (view value.now) }
    {
        read_document(alloc, value)
    }
}

impl Reads for CatalogResponse {
    ghost use Rattle.oci_docs.specs.Catalog.{catalog_response_of};

    ghost reading = { catalog_response_of };

    #[tactic(auto, unfolding(crate::specs::Catalog::catalog_response_of))]
    fn read_value(alloc: Global, value: &Value) -> Result<CatalogResponse, ReadError> {
        let repositories = required(alloc, value, "repositories")?;
        Ok(CatalogResponse { repositories })
    }
}

impl Copied for CatalogResponse {
    fn copy(&self, alloc: Global) -> Result<CatalogResponse, AllocError> {
        let repositories = self.repositories.copy(alloc)?;
        Ok(CatalogResponse { repositories })
    }
}
