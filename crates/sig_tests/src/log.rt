// The calls to Rekor.
use crate::recorded::{asked, holds, script, showed};
use json_values::{Json, List, Text, read_json};
use oci_transport::{Method, Script};
use service_models::{ProposedEntry, SearchIndex, SearchLogQuery};
use sig_services::{
    Configuration, CreateLogEntryError, Error, GetLogEntryByUuidError, create_log_entry,
    get_log_entry_by_index, get_log_entry_by_uuid, get_log_info, get_log_proof, get_public_key,
    search_index, search_log_query,
};
use std::alloc::Global;

// An entry as the public instance returns it.
const ENTRY: &str =
    "{\"24296fb24b8ad77a68abfdb2e0b2fa7ec5bb6b4e35ab9cae2e8f1a3f7b1f6c1e2d3c4b5a69788796\":{\"body\":\"eyJhcGlWZ\
        XJzaW9uIjoiMC4wLjEiLCJraW5kIjoiaGFzaGVkcmVrb3JkIiwic3BlYyI6e319\",\"integratedTime\":1656448131,\
        \"logID\":\"c0d23d6ad406973f9559f3ba2d1ca01f84147d8ffc5b8445c224f98b9591801d\",\"logIndex\":7,\
        \"verification\":{\"inclusionProof\":{\"checkpoint\":\"rekor.sigstore.dev - 2605736670972794746\\n8\\n\"\
        ,\"hashes\":[\"810320ec3029914695826d60133c67021f66ee0cfb09a6f79eb267ed9f55de2c\"],\"logIndex\":7,\
        \"rootHash\":\"5e9a0c6a8a3ea8fb4e6f1a1b0c2d3e4f5a6b7c8d9e0f1a2b3c4d5e6f708192a3\",\"treeSize\":8},\
        \"signedEntryTimestamp\":\"MEUCIQDhd4l1\"}}}";

const UUID: &str =
    "24296fb24b8ad77a68abfdb2e0b2fa7ec5bb6b4e35ab9cae2e8f1a3f7b1f6c1e2d3c4b5a69788796";

fn by_index(alloc: Global) -> Option<bool> {
    let configuration = Configuration::new(alloc).ok()?;
    let mut script = script(alloc, 200, ENTRY.as_bytes()).ok()?;
    let found = get_log_entry_by_index(alloc, &mut script, &configuration, 7).ok()?;
    let url = "https://rekor.sigstore.dev/api/v1/log/entries?logIndex=7";
    let went = asked(&script, Method::Get, url, "");
    Some(found.uuid.as_str() == UUID && went && showed(&script, "user-agent", "sigstore-rs/0.15.0"))
}

fn by_uuid(alloc: Global, uuid: &str, url: &str) -> Option<bool> {
    let configuration = Configuration::new(alloc).ok()?;
    let mut script = script(alloc, 200, ENTRY.as_bytes()).ok()?;
    let found = get_log_entry_by_uuid(alloc, &mut script, &configuration, uuid).ok()?;
    Some(found.uuid.as_str() == UUID && asked(&script, Method::Get, url, ""))
}

#[test]
fn an_entry_is_asked_for_by_its_index_or_its_name(rt: HostRuntime) {
    assert!(rt; holds(by_index(rt.alloc())));
    let url = "https://rekor.sigstore.dev/api/v1/log/entries/a+b";
    assert!(rt; holds(by_uuid(rt.alloc(), "a b", url)));
}

fn entry(alloc: Global) -> Option<ProposedEntry> {
    let spec: Json = read_json(alloc, b"{}").ok()??;
    let kind = Text::new(alloc, "hashedrekord").ok()?;
    let version = Text::new(alloc, "0.0.1").ok()?;
    Some(ProposedEntry::new(kind, version, spec))
}

fn is_status_400(error: &Error<CreateLogEntryError>) -> bool {
    match error {
        Error::ResponseError(content) => match &content.entity {
            Some(CreateLogEntryError::Status400(said)) => {
                content.status == 400 && said.code == Some(400)
            }
            _ => false,
        },
        _ => false,
    }
}

fn created(alloc: Global) -> Option<bool> {
    let configuration = Configuration::new(alloc).ok()?;
    let entry = entry(alloc)?;
    let mut script = script(alloc, 400, br#"{"code":400,"message":"bad"}"#).ok()?;
    let error = create_log_entry(alloc, &mut script, &configuration, &entry).err()?;
    let url = "https://rekor.sigstore.dev/api/v1/log/entries";
    let body = r#"{"apiVersion":"0.0.1","kind":"hashedrekord","spec":{}}"#;
    Some(is_status_400(&error) && asked(&script, Method::Post, url, body))
}

fn not_found(alloc: Global) -> Option<bool> {
    let configuration = Configuration::new(alloc).ok()?;
    let mut script = script(alloc, 404, b"[]").ok()?;
    let error = get_log_entry_by_uuid(alloc, &mut script, &configuration, "u").err()?;
    match error {
        Error::ResponseError(content) => match content.entity {
            Some(GetLogEntryByUuidError::Status404) => Some(content.status == 404),
            _ => None,
        },
        _ => None,
    }
}

#[test]
fn a_refusal_shows_what_the_log_said(rt: HostRuntime) {
    assert!(rt; holds(created(rt.alloc())));
    assert!(rt; holds(not_found(rt.alloc())));
}

fn index_searched(alloc: Global) -> Option<bool> {
    let configuration = Configuration::new(alloc).ok()?;
    let mut query = SearchIndex::new();
    query.hash = Some(Text::new(alloc, "sha256:c").ok()?);
    let mut script = script(alloc, 200, br#"["u1"]"#).ok()?;
    let found = search_index(alloc, &mut script, &configuration, &query).ok()?;
    let url = "https://rekor.sigstore.dev/api/v1/index/retrieve";
    let went = asked(&script, Method::Post, url, r#"{"hash":"sha256:c"}"#);
    Some(went && found.as_slice().len() == 1 && showed(&script, "content-type", "application/json"))
}

fn log_searched(alloc: Global) -> Option<bool> {
    let configuration = Configuration::new(alloc).ok()?;
    let mut indexes = List::new(alloc);
    indexes.push(1).ok()?;
    let mut query = SearchLogQuery::new();
    query.log_indexes = Some(indexes);
    let mut script = script(alloc, 200, b"x").ok()?;
    let found = search_log_query(alloc, &mut script, &configuration, &query).ok()?;
    let url = "https://rekor.sigstore.dev/api/v1/log/entries/retrieve";
    Some(found.as_str() == "x" && asked(&script, Method::Post, url, r#"{"logIndexes":[1]}"#))
}

#[test]
fn searches_send_what_they_search_by(rt: HostRuntime) {
    assert!(rt; holds(index_searched(rt.alloc())));
    assert!(rt; holds(log_searched(rt.alloc())));
}

fn key_refused(alloc: Global) -> Option<bool> {
    let configuration = Configuration::new(alloc).ok()?;
    let mut script = script(alloc, 200, &[255]).ok()?;
    let error = get_public_key(alloc, &mut script, &configuration, Some("5")).err()?;
    let url = "https://rekor.sigstore.dev/api/v1/log/publicKey?treeID=5";
    match error {
        Error::Json(body) => Some(
            body.as_slice() == [255].as_slice() && asked(&script, Method::Get, url, ""),
        ),
        _ => None,
    }
}

fn info(alloc: Global, script: &mut Script) -> Option<Json> {
    let configuration = Configuration::new(alloc).ok()?;
    get_log_info(alloc, script, &configuration).ok()
}

fn info_given(alloc: Global) -> Option<bool> {
    let mut script = script(alloc, 200, br#"{"treeSize":1}"#).ok()?;
    let found = info(alloc, &mut script)?;
    let size = found.value().get("treeSize")?.as_u64()?;
    let url = "https://rekor.sigstore.dev/api/v1/log";
    Some(size == 1 && asked(&script, Method::Get, url, ""))
}

fn proof_given(alloc: Global) -> Option<bool> {
    let configuration = Configuration::new(alloc).ok()?;
    let mut script = script(alloc, 200, b"{}").ok()?;
    let found = get_log_proof(alloc, &mut script, &configuration, 2, Some("1"), None).ok()?;
    let url = "https://rekor.sigstore.dev/api/v1/log/proof?firstSize=1&lastSize=2";
    Some(found.value().is_object() && asked(&script, Method::Get, url, ""))
}

#[test]
fn the_log_tells_of_itself(rt: HostRuntime) {
    assert!(rt; holds(key_refused(rt.alloc())));
    assert!(rt; holds(info_given(rt.alloc())));
    assert!(rt; holds(proof_given(rt.alloc())));
}
