// Reading and writing of models, and the contents of texts and bytes.
use crate::recorded::holds;
use json_tables::Reads;
use json_values::{ToValue, read_json};
use service_models::{
    Error, Format, Hashedrekord, HashedrekordAllOf, InactiveShardLogInfo, ModelError, SctError,
    SearchIndex, SearchIndexPublicKey, SearchLogQuery, read_sct_signature,
};
use sig_services::{ParseResponseError, parse_response, urlencode};
use std::alloc::Global;

// Whether the text parses to a model that is written as this text.
fn again<T: Reads + ToValue + Drop>(alloc: Global, text: &str) -> Option<bool> {
    let json = read_json(alloc, text.as_bytes()).ok()??;
    let model = T::read_value(alloc, json.value()).ok()?;
    let value = model.to_value(alloc).ok()?;
    let written = value.to_string(alloc).ok()?;
    Some(written.as_str() == text)
}

#[test]
fn models_are_written_as_they_were_read(rt: HostRuntime) {
    let alloc = rt.alloc();
    let entry = r#"{"apiVersion":"0.0.1","kind":"hashedrekord","spec":{"data":{}}}"#;
    assert!(rt; holds(again::<Hashedrekord>(alloc, entry)));
    let rest = r#"{"apiVersion":"0.0.1","spec":null}"#;
    assert!(rt; holds(again::<HashedrekordAllOf>(alloc, rest)));
    let error = r#"{"code":-400,"message":"bad"}"#;
    assert!(rt; holds(again::<Error>(alloc, error)));
    let shard = r#"{"rootHash":"a","signedTreeHead":"b","treeID":"c","treeSize":4163431}"#;
    assert!(rt; holds(again::<InactiveShardLogInfo>(alloc, shard)));
}

#[test]
fn searches_are_written_as_they_were_read(rt: HostRuntime) {
    let alloc = rt.alloc();
    let key = r#"{"content":"k","format":"x509"}"#;
    assert!(rt; holds(again::<SearchIndexPublicKey>(alloc, key)));
    let index = r#"{"hash":"sha256:c","publicKey":{"format":"minisign","url":"u"}}"#;
    assert!(rt; holds(again::<SearchIndex>(alloc, index)));
    let query =
        r#"{"entries":[{"apiVersion":"1","kind":"k","spec":0}],"entryUUIDs":["u"],"logIndexes":[1,-2]}"#;
    assert!(rt; holds(again::<SearchLogQuery>(alloc, query)));
    assert!(rt; holds(again::<Format>(alloc, "\"tuf\"")));
}

fn refused(alloc: Global, text: &str) -> Option<ModelError> {
    let json = read_json(alloc, text.as_bytes()).ok()??;
    Hashedrekord::read(alloc, json.value()).err()
}

#[test]
fn models_refuse_floats_and_other_shapes(rt: HostRuntime) {
    let alloc = rt.alloc();
    let float = r#"{"apiVersion":"1","kind":"k","spec":{"a":[0.5]}}"#;
    assert!(rt; refused(alloc, float) == Some(ModelError::Float));
    let wanting = r#"{"apiVersion":"1","kind":"k"}"#;
    assert!(rt; refused(alloc, wanting) == Some(ModelError::Shape));
}

#[test]
fn signatures_of_timestamps_have_their_length_before_them(rt: HostRuntime) {
    assert!(rt; read_sct_signature(&[0, 1, 0, 0]) == Ok(&[]));
    assert!(rt; read_sct_signature(&[0, 1, 2]) == Err(SctError::TooShort));
    assert!(rt; read_sct_signature(&[0, 1, 0, 1, 170, 187]) == Err(SctError::LengthMismatch));
}

fn uuid_is(alloc: Global, text: &str, uuid: &str) -> bool {
    match parse_response(alloc, text) {
        Ok(entry) => entry.uuid.as_str() == uuid,
        Err(_) => false,
    }
}

fn has_no_entry(alloc: Global, text: &str) -> bool {
    match parse_response(alloc, text) {
        Ok(_) => false,
        Err(error) => error == ParseResponseError::NotOneMember,
    }
}

fn is_encoded(alloc: Global, text: &str, want: &str) -> bool {
    match urlencode(alloc, text) {
        Ok(encoded) => encoded.as_str() == want,
        Err(_) => false,
    }
}

#[test]
fn an_entry_is_the_one_member_of_its_object(rt: HostRuntime) {
    let alloc = rt.alloc();
    assert!(rt; uuid_is(alloc, r#"{"abc":{"logIndex":1}}"#, "abc"));
    assert!(rt; has_no_entry(alloc, "{}") && has_no_entry(alloc, r#"{"a":1}"#));
    assert!(rt; has_no_entry(alloc, r#"{"a":{},"b":{}}"#));
    assert!(rt; is_encoded(alloc, "a b", "a+b"));
}
