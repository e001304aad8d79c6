//! The log's index.
ghost use Rattle.std.specs.Prelude.{◌≡◌, IfOk, codes};
ghost use Rattle.json_tables.specs.Plain.{read_plain};
ghost use Rattle.json_tables.specs.Reading.{list_of, text_of};
ghost use Rattle.serde_json.specs.Written.{compact_text};
ghost use Rattle.oci_protocol.specs.Runs.{Meets};
ghost use Rattle.service_models.specs.SearchIndex.{search_index_written};
ghost use Rattle.sig_services.specs.Error.{is_memory};
ghost use Rattle.sig_services.specs.Index as row;
ghost use Rattle.sig_services.specs.Causes.{RefusedFor};
ghost use Rattle.sig_services.specs.Entities.{search_index_error};

use crate::call::{call, compact};
use crate::configuration::Configuration;
use crate::entities::SearchIndexError;
use crate::error::Error;
use json_values::{Blob, List, Text, ToValue};
use oci_transport::{Method, Transport};
use service_models::SearchIndex;
use std::alloc::{AllocError, Global};

fn search_text(alloc: Global, query: &SearchIndex) -> Result<Blob, AllocError>
    ensures { IfOk result (λ text. text ≡ compact_text (search_index_written query.now)) }
{
    let value = query.to_value(alloc)?;
    let text = compact(alloc, &value)?;
    Ok(text)
}

/// Returns the UUIDs of the entries that this search finds.
#[tactic(none)]
pub fn search_index<T: Transport>(
    alloc: Global,
    transport: &mut T,
    configuration: &Configuration,
    query: &SearchIndex,
) -> Result<List<Text>, Error<SearchIndexError>>
    ensures run { (k : Unit {0}) → Meets is_memory
        (row.search_index configuration.now (compact_text (search_index_written query.now)))
        (T.state transport.old) (T.state transport.new) k k result }
    ensures causes { RefusedFor (read_plain (list_of text_of)) search_index_error
        configuration.now (codes "/index/retrieve")
        (T.state transport.old) (T.state transport.new) result }
{
    let content = search_text(alloc, query)?;
    call(
        alloc,
        transport,
        configuration,
        Method::Post,
        "/index/retrieve",
        Some(content),
    )
}
