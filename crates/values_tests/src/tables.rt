// Reading members of JSON objects.
use crate::values::holds;
use json_tables::{
    Member, ReadError, Reads, an_object, decode_base64, holds_float, only, optional, read_document,
    read_or_none, read_row, required, required_base64, text_at,
};
use json_values::{Blob, Json, List, Text, TextMap, row};
use serde_json::Value;
use std::alloc::{AllocError, Global};

fn reads<T: Reads + Drop>(alloc: Global, text: &str) -> bool {
    let Ok(value) = Value::from_str(alloc, text) else {
        return false;
    };
    let found: Result<Option<T>, AllocError> = read_or_none(alloc, &value);
    match found {
        Ok(found) => found.is_some(),
        Err(_) => false,
    }
}

#[test]
fn small_whole_numbers_read_in_the_range_of_their_type(rt: HostRuntime) {
    let alloc = rt.alloc();
    assert!(rt; reads::<u8>(alloc, "255") && !reads::<u8>(alloc, "256"));
    assert!(rt; reads::<u16>(alloc, "65535") && !reads::<u16>(alloc, "65536"));
    assert!(rt; reads::<u32>(alloc, "4294967295") && !reads::<u32>(alloc, "4294967296"));
    assert!(rt; !reads::<u8>(alloc, "1.0") && !reads::<u8>(alloc, "-1"));
}

#[test]
fn large_whole_numbers_read_in_the_range_of_their_type(rt: HostRuntime) {
    let alloc = rt.alloc();
    assert!(rt; reads::<u64>(alloc, "18446744073709551615"));
    assert!(rt; reads::<i32>(alloc, "-2147483648") && !reads::<i32>(alloc, "2147483648"));
    assert!(rt; reads::<i64>(alloc, "-9223372036854775808"));
    assert!(rt; !reads::<i64>(alloc, "9223372036854775808"));
}

#[test]
fn lists_pairs_and_maps_read_their_items(rt: HostRuntime) {
    let alloc = rt.alloc();
    assert!(rt; reads::<List<bool>>(alloc, "[true,false]"));
    assert!(rt; !reads::<List<bool>>(alloc, "[true,0]"));
    assert!(rt; reads::<(Text, u8)>(alloc, "[\"a\",1]"));
    assert!(rt; !reads::<(Text, u8)>(alloc, "[\"a\"]") && !reads::<(Text, u8)>(alloc, "{}"));
    assert!(rt; reads::<TextMap<u64>>(alloc, "{\"b\":1,\"a\":2}"));
    assert!(rt; !reads::<TextMap<u64>>(alloc, "{\"b\":null}"));
}

fn is_read(alloc: Global, text: &str, want: &[u8]) -> bool {
    let Ok(value) = Value::from_str(alloc, text) else {
        return false;
    };
    match Blob::read_value(alloc, &value) {
        Ok(bytes) => bytes.as_slice() == want,
        Err(_) => false,
    }
}

#[test]
fn bytes_read_as_a_text_or_in_base64(rt: HostRuntime) {
    assert!(rt; is_read(rt.alloc(), "\"sig1\"", b"sig1"));
    assert!(rt; is_read(rt.alloc(), "{\"base64\":\"c2lnMQ==\"}", b"sig1"));
    for text in [
        "{\"base64\":\"c2lnMQ\"}",
        "{\"base64\":\"c2lnMQ==\",\"a\":1}",
        "{}",
        "null",
    ] {
        assert!(rt; !reads::<Blob>(rt.alloc(), text), "at {text}");
    }
}

fn is_decoded(alloc: Global, text: &str) -> Result<bool, AllocError> {
    let found = decode_base64(alloc, text)?;
    Ok(found.is_some())
}

fn key_is_read(alloc: Global) -> bool {
    let Ok(value) = Value::from_str(alloc, "{\"key\":\"azE=\"}") else {
        return false;
    };
    match required_base64(alloc, &value, "key") {
        Ok(bytes) => bytes.as_slice() == b"k1".as_slice(),
        Err(_) => false,
    }
}

#[test]
fn base64_is_padded_and_of_the_usual_letters(rt: HostRuntime) {
    assert!(rt; holds(is_decoded(rt.alloc(), "/w==")));
    assert!(rt; !holds(is_decoded(rt.alloc(), "-_8=")));
    assert!(rt; key_is_read(rt.alloc()));
}

fn row_in(alloc: Global, text: &str) -> Result<(u8, Option<u8>, Text), ReadError> {
    let Ok(value) = Value::from_str(alloc, text) else {
        return Err(ReadError::Shape);
    };
    let row![a, b, c] = read_row::<(u8, Option<u8>, Text), _>(alloc, &value, &["a", "b", "c"])?;
    Ok((a, b, c))
}

fn row_is_read(alloc: Global) -> bool {
    match row_in(alloc, "{\"a\":1,\"b\":null,\"c\":\"x\"}") {
        Ok((a, b, c)) => a == 1 && b.is_none() && c.as_str() == "x",
        Err(_) => false,
    }
}

fn row_is_refused(alloc: Global, text: &str) -> bool {
    match row_in(alloc, text) {
        Ok(_) => false,
        Err(refusal) => refusal == ReadError::Shape,
    }
}

#[test]
fn a_row_reads_its_members(rt: HostRuntime) {
    assert!(rt; row_is_read(rt.alloc()));
    assert!(rt; row_is_refused(rt.alloc(), "{\"a\":null,\"c\":\"x\"}"));
    assert!(rt; row_is_refused(rt.alloc(), "{\"a\":1,\"b\":\"\",\"c\":\"x\"}"));
}

fn members_are_read(alloc: Global) -> bool {
    let Ok(value) = Value::from_str(alloc, "{\"b\":null,\"c\":\"x\"}") else {
        return false;
    };
    let missing: Result<u8, ReadError> = required(alloc, &value, "d");
    let text: Result<Option<u8>, ReadError> = optional(alloc, &value, "c");
    let null: Result<Json, ReadError> = required(alloc, &value, "b");
    let found = null.is_ok_and(|found| found.value().is_null());
    missing == Err(ReadError::Shape) && text == Err(ReadError::Shape) && found
}

fn null_is_no_member(alloc: Global) -> bool {
    let member: Result<Option<u8>, ReadError> = Member::read_member(alloc, Some(&Value::Null));
    member == Ok(None)
}

#[test]
fn members_may_have_to_be_there(rt: HostRuntime) {
    assert!(rt; members_are_read(rt.alloc()));
    assert!(rt; null_is_no_member(rt.alloc()));
}

fn objects_are_strict(value: &Value) -> bool {
    let all = only(value, &["a", "b", "c"]) == Ok(());
    all && only(value, &["a"]) == Err(ReadError::Shape) && an_object(value) == Ok(())
}

fn paths_are_followed(value: &Value) -> bool {
    let text = text_at(value, &["a", "b"]) == Some("x");
    text && text_at(value, &["a"]).is_none() && text_at(value, &["c", "b"]).is_none()
}

#[test]
fn strict_objects_and_paths(rt: HostRuntime) {
    let Ok(value) = Value::from_str(rt.alloc(), "{\"a\":{\"b\":\"x\"},\"c\":1}") else {
        return;
    };
    assert!(rt; objects_are_strict(&value));
    assert!(rt; paths_are_followed(&value));
    assert!(rt; an_object(&Value::Null) == Err(ReadError::Shape));
    assert!(rt; text_at(&Value::Null, &[]).is_none());
}

fn is_float(alloc: Global, text: &str) -> bool {
    match Value::from_str(alloc, text) {
        Ok(value) => holds_float(&value),
        Err(_) => false,
    }
}

fn float_is_refused(alloc: Global) -> bool {
    let Ok(value) = Value::from_str(alloc, "1.5") else {
        return false;
    };
    let refused: Result<u8, ReadError> = read_document(alloc, &value);
    refused == Err(ReadError::Float)
}

#[test]
fn a_float_anywhere_refuses_a_document(rt: HostRuntime) {
    assert!(rt; is_float(rt.alloc(), "[{\"a\":[1.0]}]") && is_float(rt.alloc(), "-0"));
    assert!(rt; !is_float(rt.alloc(), "[{\"a\":[1,\"1.0\"]}]"));
    assert!(rt; float_is_refused(rt.alloc()));
}
