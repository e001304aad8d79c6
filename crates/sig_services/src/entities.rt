//! How the bodies of error responses are parsed.
ghost use Rattle.std.specs.Prelude.{◌≡◌, IfOk};
ghost use Rattle.serde_json.specs.Data.{Data};
ghost use Rattle.serde_json.specs.View.{items_view};
ghost use Rattle.service_models.specs.Error.{error_of};
ghost use Rattle.sig_services.specs.Entities as spec;

use json_tables::read_or_none;
use json_values::{Copied, Json};
use serde_json::Value;
use service_models as models;
use std::alloc::{AllocError, Global};
use thiserror::Error;

/// A type that is parsed from the JSON of an error response: the first variant that matches.
pub trait Entity: Sized {
    ghost entity: { Data → Self };

    fn from_json(alloc: Global, json: Json) -> Result<Self, AllocError>
        ensures { IfOk result (λ found. found ≡ entity json) };
}

/// The body if `create_log_entry` is refused.
#[derive(Debug, Drop, Error)]
pub enum CreateLogEntryError {
    #[error("the log did not accept the request: read its message")]
    Status400(models::Error),
    /// Never the first match.
    #[error("the log has the entry already: request that one")]
    Status409(models::Error),
    /// Never the first match.
    #[error("the log refused the request: read its message")]
    DefaultResponse(models::Error),
    #[error("the error response has an unknown form: read its status and content")]
    UnknownValue(Json),
}

/// The body if `get_log_entry_by_index` is refused.
#[derive(Debug, Drop, Error)]
pub enum GetLogEntryByIndexError {
    #[error("the log has no such entry: request another one")]
    Status404,
    #[error("the log refused the request: read its message")]
    DefaultResponse(models::Error),
    #[error("the error response has an unknown form: read its status and content")]
    UnknownValue(Json),
}

/// The body if `get_log_entry_by_uuid` is refused.
#[derive(Debug, Drop, Error)]
pub enum GetLogEntryByUuidError {
    #[error("the log has no such entry: request another one")]
    Status404,
    #[error("the log refused the request: read its message")]
    DefaultResponse(models::Error),
    #[error("the error response has an unknown form: read its status and content")]
    UnknownValue(Json),
}

/// The body if `search_log_query` is refused.
#[derive(Debug, Drop, Error)]
pub enum SearchLogQueryError {
    #[error("the log did not accept the request: read its message")]
    Status400(models::Error),
    /// Never the first match.
    #[error("the log refused the request: read its message")]
    DefaultResponse(models::Error),
    #[error("the error response has an unknown form: read its status and content")]
    UnknownValue(Json),
}

/// The body if `search_index` is refused.
#[derive(Debug, Drop, Error)]
pub enum SearchIndexError {
    #[error("the log did not accept the request: read its message")]
    Status400(models::Error),
    /// Never the first match.
    #[error("the log refused the request: read its message")]
    DefaultResponse(models::Error),
    #[error("the error response has an unknown form: read its status and content")]
    UnknownValue(Json),
}

/// The body if `get_public_key` is refused.
#[derive(Debug, Drop, Error)]
pub enum GetPublicKeyError {
    #[error("the log refused the request: read its message")]
    DefaultResponse(models::Error),
    #[error("the error response has an unknown form: read its status and content")]
    UnknownValue(Json),
}

/// The body if `get_log_info` is refused.
#[derive(Debug, Drop, Error)]
pub enum GetLogInfoError {
    #[error("the log refused the request: read its message")]
    DefaultResponse(models::Error),
    #[error("the error response has an unknown form: read its status and content")]
    UnknownValue(Json),
}

/// The body if `get_log_proof` is refused.
#[derive(Debug, Drop, Error)]
pub enum GetLogProofError {
    #[error("the log did not accept the request: read its message")]
    Status400(models::Error),
    /// Never the first match.
    #[error("the log refused the request: read its message")]
    DefaultResponse(models::Error),
    #[error("the error response has an unknown form: read its status and content")]
    UnknownValue(Json),
}

fn known(alloc: Global, json: &Json) -> Result<Option<models::Error>, AllocError>
    ensures { IfOk result (λ found. found ≡ error_of json.now) }
{
    read_or_none(alloc, json.value())
}

#[tactic(auto, using(crate::proofs::Values::none_in))]
fn has_none(items: &Vec<Value>) -> bool
    ensures { result ≡ spec.no_items_in (items_view items.now.items) }
{
    items.is_empty()
}

fn is_empty_list(json: &Json) -> bool
    ensures { result ≡ spec.is_empty_list json.now }
{
    match json.value().as_array() {
        Some(items) => has_none(items),
        None => false,
    }
}

impl Entity for CreateLogEntryError {
    ghost entity = { spec.create_error };

    fn from_json(alloc: Global, json: Json) -> Result<CreateLogEntryError, AllocError> {
        match known(alloc, &json)? {
            Some(error) => Ok(CreateLogEntryError::Status400(error)),
            None => Ok(CreateLogEntryError::UnknownValue(json)),
        }
    }
}

impl Entity for GetLogEntryByIndexError {
    ghost entity = { spec.by_index_error };

    fn from_json(alloc: Global, json: Json) -> Result<GetLogEntryByIndexError, AllocError> {
        if is_empty_list(&json) {
            return Ok(GetLogEntryByIndexError::Status404);
        }
        match known(alloc, &json)? {
            Some(error) => Ok(GetLogEntryByIndexError::DefaultResponse(error)),
            None => Ok(GetLogEntryByIndexError::UnknownValue(json)),
        }
    }
}

impl Entity for GetLogEntryByUuidError {
    ghost entity = { spec.by_uuid_error };

    fn from_json(alloc: Global, json: Json) -> Result<GetLogEntryByUuidError, AllocError> {
        if is_empty_list(&json) {
            return Ok(GetLogEntryByUuidError::Status404);
        }
        match known(alloc, &json)? {
            Some(error) => Ok(GetLogEntryByUuidError::DefaultResponse(error)),
            None => Ok(GetLogEntryByUuidError::UnknownValue(json)),
        }
    }
}

impl Entity for SearchLogQueryError {
    ghost entity = { spec.search_log_error };

    fn from_json(alloc: Global, json: Json) -> Result<SearchLogQueryError, AllocError> {
        match known(alloc, &json)? {
            Some(error) => Ok(SearchLogQueryError::Status400(error)),
            None => Ok(SearchLogQueryError::UnknownValue(json)),
        }
    }
}

impl Entity for SearchIndexError {
    ghost entity = { spec.search_index_error };

    fn from_json(alloc: Global, json: Json) -> Result<SearchIndexError, AllocError> {
        match known(alloc, &json)? {
            Some(error) => Ok(SearchIndexError::Status400(error)),
            None => Ok(SearchIndexError::UnknownValue(json)),
        }
    }
}

impl Entity for GetPublicKeyError {
    ghost entity = { spec.public_key_error };

    fn from_json(alloc: Global, json: Json) -> Result<GetPublicKeyError, AllocError> {
        match known(alloc, &json)? {
            Some(error) => Ok(GetPublicKeyError::DefaultResponse(error)),
            None => Ok(GetPublicKeyError::UnknownValue(json)),
        }
    }
}

impl Entity for GetLogInfoError {
    ghost entity = { spec.log_info_error };

    fn from_json(alloc: Global, json: Json) -> Result<GetLogInfoError, AllocError> {
        match known(alloc, &json)? {
            Some(error) => Ok(GetLogInfoError::DefaultResponse(error)),
            None => Ok(GetLogInfoError::UnknownValue(json)),
        }
    }
}

impl Entity for GetLogProofError {
    ghost entity = { spec.log_proof_error };

    fn from_json(alloc: Global, json: Json) -> Result<GetLogProofError, AllocError> {
        match known(alloc, &json)? {
            Some(error) => Ok(GetLogProofError::Status400(error)),
            None => Ok(GetLogProofError::UnknownValue(json)),
        }
    }
}

impl Copied for CreateLogEntryError {
    fn copy(&self, alloc: Global) -> Result<CreateLogEntryError, AllocError> {
        match self {
            CreateLogEntryError::Status400(error) => Ok(CreateLogEntryError::Status400(error.copy(
                alloc,
            )?)),
            CreateLogEntryError::Status409(error) => Ok(CreateLogEntryError::Status409(error.copy(
                alloc,
            )?)),
            CreateLogEntryError::DefaultResponse(error) => Ok(CreateLogEntryError::DefaultResponse(
                error.copy(alloc)?,
            )),
            CreateLogEntryError::UnknownValue(json) => Ok(CreateLogEntryError::UnknownValue(
                json.copy(alloc)?,
            )),
        }
    }
}

impl Copied for GetLogEntryByIndexError {
    fn copy(&self, alloc: Global) -> Result<GetLogEntryByIndexError, AllocError> {
        match self {
            GetLogEntryByIndexError::Status404 => Ok(GetLogEntryByIndexError::Status404),
            GetLogEntryByIndexError::DefaultResponse(error) => Ok(
                GetLogEntryByIndexError::DefaultResponse(error.copy(alloc)?),
            ),
            GetLogEntryByIndexError::UnknownValue(json) => Ok(GetLogEntryByIndexError::UnknownValue(
                json.copy(alloc)?,
            )),
        }
    }
}

impl Copied for GetLogEntryByUuidError {
    fn copy(&self, alloc: Global) -> Result<GetLogEntryByUuidError, AllocError> {
        match self {
            GetLogEntryByUuidError::Status404 => Ok(GetLogEntryByUuidError::Status404),
            GetLogEntryByUuidError::DefaultResponse(error) => Ok(
                GetLogEntryByUuidError::DefaultResponse(error.copy(alloc)?),
            ),
            GetLogEntryByUuidError::UnknownValue(json) => Ok(GetLogEntryByUuidError::UnknownValue(
                json.copy(alloc)?,
            )),
        }
    }
}

impl Copied for SearchLogQueryError {
    fn copy(&self, alloc: Global) -> Result<SearchLogQueryError, AllocError> {
        match self {
            SearchLogQueryError::Status400(error) => Ok(SearchLogQueryError::Status400(error.copy(
                alloc,
            )?)),
            SearchLogQueryError::DefaultResponse(error) => Ok(SearchLogQueryError::DefaultResponse(
                error.copy(alloc)?,
            )),
            SearchLogQueryError::UnknownValue(json) => Ok(SearchLogQueryError::UnknownValue(
                json.copy(alloc)?,
            )),
        }
    }
}

impl Copied for SearchIndexError {
    fn copy(&self, alloc: Global) -> Result<SearchIndexError, AllocError> {
        match self {
            SearchIndexError::Status400(error) => Ok(SearchIndexError::Status400(error.copy(
                alloc,
            )?)),
            SearchIndexError::DefaultResponse(error) => Ok(SearchIndexError::DefaultResponse(
                error.copy(alloc)?,
            )),
            SearchIndexError::UnknownValue(json) => Ok(SearchIndexError::UnknownValue(json.copy(
                alloc,
            )?)),
        }
    }
}

impl Copied for GetPublicKeyError {
    fn copy(&self, alloc: Global) -> Result<GetPublicKeyError, AllocError> {
        match self {
            GetPublicKeyError::DefaultResponse(error) => Ok(GetPublicKeyError::DefaultResponse(
                error.copy(alloc)?,
            )),
            GetPublicKeyError::UnknownValue(json) => Ok(GetPublicKeyError::UnknownValue(json.copy(
                alloc,
            )?)),
        }
    }
}

impl Copied for GetLogInfoError {
    fn copy(&self, alloc: Global) -> Result<GetLogInfoError, AllocError> {
        match self {
            GetLogInfoError::DefaultResponse(error) => Ok(GetLogInfoError::DefaultResponse(
                error.copy(alloc)?,
            )),
            GetLogInfoError::UnknownValue(json) => Ok(GetLogInfoError::UnknownValue(json.copy(
                alloc,
            )?)),
        }
    }
}

impl Copied for GetLogProofError {
    fn copy(&self, alloc: Global) -> Result<GetLogProofError, AllocError> {
        match self {
            GetLogProofError::Status400(error) => Ok(GetLogProofError::Status400(error.copy(
                alloc,
            )?)),
            GetLogProofError::DefaultResponse(error) => Ok(GetLogProofError::DefaultResponse(
                error.copy(alloc)?,
            )),
            GetLogProofError::UnknownValue(json) => Ok(GetLogProofError::UnknownValue(json.copy(
                alloc,
            )?)),
        }
    }
}
