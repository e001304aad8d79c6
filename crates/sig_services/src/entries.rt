//! Entries of the log.
ghost use Rattle.std.specs.Prelude.{◌≡◌, IfOk, IsErrOf, Some, None, codes};
ghost use Rattle.json_tables.specs.Plain.{read_plain};
ghost use Rattle.oci_protocol.specs.Runs.{Meets};
ghost use Rattle.service_models.specs.LogEntry.{log_entry_of};
ghost use Rattle.service_models.specs.ProposedEntry.{proposed_entry_written};
ghost use Rattle.service_models.specs.SearchLogQuery.{query_written};
ghost use Rattle.sig_services.specs.Error.{is_memory};
ghost use Rattle.sig_services.specs.Call.{Posts};
ghost use Rattle.sig_services.specs.Body.{text_body};
ghost use Rattle.sig_services.specs.Entries.{index_path, uuid_path};
ghost use Rattle.sig_services.specs.Causes.{RefusedFor};
ghost use Rattle.sig_services.specs.Entities.{create_error, by_index_error, by_uuid_error, search_log_error};
ghost use Rattle.sig_services.specs.Entries as row;
ghost use Rattle.sig_services.specs.declared.entries.ParseResponseError.TheVariants.{WantOfMemory as out_of_memory};

use crate::call::{call, compact};
use crate::configuration::Configuration;
use crate::entities::{
    CreateLogEntryError, GetLogEntryByIndexError, GetLogEntryByUuidError, SearchLogQueryError,
};
use crate::error::Error;
use crate::request::urlencode;
use form_urlencoded::Serializer;
use itoa::Buffer;
use json_tables::read_plain;
use json_values::{Copied, Text, ToValue};
use oci_transport::{Method, Transport};
use service_models::{LogEntry, ProposedEntry, SearchLogQuery};
use std::alloc::{AllocError, Global};

/// Why a string is not an entry of the log.
#[derive(Clone, Copy, Debug, PartialEq, Eq, thiserror::Error)]
pub enum ParseResponseError {
    /// It is not JSON without floats with one member whose value is an object.
    #[error("not an object with one entry: pass the log's response to a call for one entry")]
    NotOneMember,
    /// The allocator is out of memory.
    #[error("out of memory: free some and try again")]
    WantOfMemory,
}

impl Copied for ParseResponseError {
    fn copy(&self, _alloc: Global) -> Result<ParseResponseError, AllocError> {
        Ok(*self)
    }
}

impl From<AllocError> for ParseResponseError {
    ghost from_gives = { λ _ e. e ≡ out_of_memory };

    fn from(_: AllocError) -> ParseResponseError {
        ParseResponseError::WantOfMemory
    }
}

/// Returns the only entry of an answer, with its UUID.
pub fn parse_response(alloc: Global, content: &str) -> Result<LogEntry, ParseResponseError>
    ensures ok { IfOk result (λ entry. read_plain log_entry_of content.now ≡ Some entry) }
    ensures refused { IsErrOf result ParseResponseError.NotOneMember
        → read_plain log_entry_of content.now ≡ None }
{
    match read_plain(alloc, content.as_bytes())? {
        Some(entry) => Ok(entry),
        None => Err(ParseResponseError::NotOneMember),
    }
}

/// Submits an entry to the log, and returns it as the log accepted it.
#[tactic(none)]
pub fn create_log_entry<T: Transport>(
    alloc: Global,
    transport: &mut T,
    configuration: &Configuration,
    proposed_entry: &ProposedEntry,
) -> Result<LogEntry, Error<CreateLogEntryError>>
    ensures run { Posts (proposed_entry_written proposed_entry.now)
        (row.create_log_entry configuration.now)
        (T.state transport.old) (T.state transport.new) result }
    ensures causes { RefusedFor (read_plain log_entry_of) create_error configuration.now (codes "/log/entries")
        (T.state transport.old) (T.state transport.new) result }
{
    let value = proposed_entry.to_value(alloc)?;
    let content = compact(alloc, &value)?;
    call(
        alloc,
        transport,
        configuration,
        Method::Post,
        "/log/entries",
        Some(content),
    )
}

fn index_path(alloc: Global, log_index: i32) -> Result<Text, AllocError>
    ensures { IfOk result (λ path. path ≡ index_path log_index) }
{
    let mut digits = Buffer::new();
    let mut form = Serializer::new(String::new(alloc));
    form.append_pair("logIndex", digits.format(log_index))?;
    let mut path = Text::new(alloc, "/log/entries?")?;
    path.push_str(form.finish().as_str())?;
    Ok(path)
}

/// Returns the entry at this index of the log.
#[tactic(none)]
pub fn get_log_entry_by_index<T: Transport>(
    alloc: Global,
    transport: &mut T,
    configuration: &Configuration,
    log_index: i32,
) -> Result<LogEntry, Error<GetLogEntryByIndexError>>
    ensures run { (k : Unit {0}) → Meets is_memory
        (row.get_log_entry_by_index configuration.now log_index)
        (T.state transport.old) (T.state transport.new) k k result }
    ensures causes { RefusedFor (read_plain log_entry_of) by_index_error configuration.now (index_path log_index)
        (T.state transport.old) (T.state transport.new) result }
{
    let path = index_path(alloc, log_index)?;
    call(
        alloc,
        transport,
        configuration,
        Method::Get,
        path.as_str(),
        None,
    )
}

fn uuid_path(alloc: Global, entry_uuid: &str) -> Result<Text, AllocError>
    ensures { IfOk result (λ path. path ≡ uuid_path entry_uuid.now) }
{
    let name = urlencode(alloc, entry_uuid)?;
    let mut path = Text::new(alloc, "/log/entries/")?;
    path.push_str(name.as_str())?;
    Ok(path)
}

/// Returns the entry with this UUID.
#[tactic(none)]
pub fn get_log_entry_by_uuid<T: Transport>(
    alloc: Global,
    transport: &mut T,
    configuration: &Configuration,
    entry_uuid: &str,
) -> Result<LogEntry, Error<GetLogEntryByUuidError>>
    ensures run { (k : Unit {0}) → Meets is_memory
        (row.get_log_entry_by_uuid configuration.now entry_uuid.now)
        (T.state transport.old) (T.state transport.new) k k result }
    ensures causes { RefusedFor (read_plain log_entry_of) by_uuid_error configuration.now (uuid_path entry_uuid.now)
        (T.state transport.old) (T.state transport.new) result }
{
    let path = uuid_path(alloc, entry_uuid)?;
    call(
        alloc,
        transport,
        configuration,
        Method::Get,
        path.as_str(),
        None,
    )
}

/// Returns the text of the log's answer to a query.
#[tactic(none)]
pub fn search_log_query<T: Transport>(
    alloc: Global,
    transport: &mut T,
    configuration: &Configuration,
    entry: &SearchLogQuery,
) -> Result<Text, Error<SearchLogQueryError>>
    ensures run { Posts (query_written entry.now) (row.search_log_query configuration.now)
        (T.state transport.old) (T.state transport.new) result }
    ensures causes { RefusedFor text_body search_log_error configuration.now (codes "/log/entries/retrieve")
        (T.state transport.old) (T.state transport.new) result }
{
    let value = entry.to_value(alloc)?;
    let content = compact(alloc, &value)?;
    call(
        alloc,
        transport,
        configuration,
        Method::Post,
        "/log/entries/retrieve",
        Some(content),
    )
}
