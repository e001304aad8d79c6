// The canonical texts of complete values.
use crate::plain::write_value;
use crate::shared::failing_at;
use byte_streams::{PlainSink, Sink};
use json_canon::{CanonError, JcsSerializer, json_to_vec, pipe, to_string, to_vec, to_writer};
use json_values::{Blob, Json, Text, ToValue};
use recorded_answers::holds;
use serde_json::Value;
use std::alloc::{AllocError, Global};

fn is_piped(alloc: Global, json: &str, want: &str) -> bool {
    match pipe(alloc, json) {
        Ok(text) => text.as_str() == want,
        Err(_) => false,
    }
}

fn is_refused(alloc: Global, json: &str, want: CanonError) -> bool {
    match pipe(alloc, json) {
        Ok(_) => false,
        Err(refusal) => refusal == want,
    }
}

#[test]
fn texts_have_no_space_and_names_in_order(rt: HostRuntime) {
    for (json, want) in [
        (" [ 1 , [ ] , { } , null ] ", "[1,[],{},null]"),
        (
            "{\"b\":{\"d\":1,\"c\":[true]},\"a\":\"\"}",
            "{\"a\":\"\",\"b\":{\"c\":[true],\"d\":1}}",
        ),
        (
            "{\"\":1,\"a\":2,\"ab\":3,\"B\":4}",
            "{\"\":1,\"B\":4,\"a\":2,\"ab\":3}",
        ),
        (
            "{\"a\\uffff\":1,\"a\\ud800\\udc00b\":2}",
            "{\"a\u{10000}b\":2,\"a\u{ffff}\":1}",
        ),
    ] {
        assert!(rt; is_piped(rt.alloc(), json, want), "at {json}");
        assert!(rt; is_piped(rt.alloc(), want, want), "at {want}");
    }
}

// The examples of RFC 8785, 3.2.2 (except floats) and 3.2.3.
#[test]
fn examples_of_the_standard(rt: HostRuntime) {
    for (json, want) in [
        (
            "{\"string\":\"\\u20ac$\\u000F\\u000aA'\\u0042\\u0022\\u005c\\\\\\\"\\/\",\
                \"literals\":[null, true, false]}",
            "{\"literals\":[null,true,false],\"string\":\"\u{20ac}$\\u000f\\nA'B\\\"\\\\\\\\\\\"/\"}",
        ),
        (
            "{\"\\u20ac\":\"Euro Sign\",\"\\r\":\"Carriage Return\",\
                \"\\ufb33\":\"Hebrew Letter Dalet With Dagesh\",\"1\":\"One\",\
                \"\\ud83d\\ude00\":\"Emoji: Grinning Face\",\"\\u0080\":\"Control\",\
                \"\\u00f6\":\"Latin Small Letter O With Diaeresis\"}",
            "{\"\\r\":\"Carriage Return\",\"1\":\"One\",\"\u{80}\":\"Control\",\
                \"\u{f6}\":\"Latin Small Letter O With Diaeresis\",\"\u{20ac}\":\"Euro Sign\",\
                \"\u{1f600}\":\"Emoji: Grinning Face\",\"\u{fb33}\":\"Hebrew Letter Dalet With Dagesh\"}",
        ),
    ] {
        assert!(rt; is_piped(rt.alloc(), json, want), "at {json}");
    }
}

fn is_escaped(alloc: Global, code: u32, escape: &str) -> Result<bool, AllocError> {
    let Some(c) = char::from_u32(code) else {
        return Ok(false);
    };
    let mut text = String::new(alloc);
    text.push(c)?;
    let mut want = Text::new(alloc, "\"")?;
    want.push_str(escape)?;
    want.push_str("\"")?;
    Ok(is_text(alloc, &Text::new(alloc, text.as_str())?, want.as_str()))
}

fn is_text<V: ToValue>(alloc: Global, value: &V, want: &str) -> bool {
    match to_string(alloc, value) {
        Ok(text) => text.as_str() == want,
        Err(_) => false,
    }
}

#[test]
fn each_control_character_has_its_escape(rt: HostRuntime) {
    let escapes = [
        "\\u0000", "\\u0001", "\\u0002", "\\u0003", "\\u0004", "\\u0005", "\\u0006", "\\u0007",
        "\\b", "\\t", "\\n", "\\u000b", "\\f", "\\r", "\\u000e", "\\u000f", "\\u0010", "\\u0011",
        "\\u0012", "\\u0013", "\\u0014", "\\u0015", "\\u0016", "\\u0017", "\\u0018", "\\u0019",
        "\\u001a", "\\u001b", "\\u001c", "\\u001d", "\\u001e", "\\u001f", " ", "!", "\\\"",
    ];
    for (code, escape) in escapes.iter().enumerate() {
        assert!(rt;
            holds(is_escaped(rt.alloc(), code as u32, *escape)),
            "at {code}"
        );
    }
}

#[test]
fn numbers_are_whole_and_in_range(rt: HostRuntime) {
    for number in ["0", "-1", "9007199254740991", "-9007199254740991"] {
        assert!(rt; is_piped(rt.alloc(), number, number), "at {number}");
    }
    for (json, want) in [
        ("-9007199254740992", CanonError::IntegerOutOfRange),
        ("18446744073709551616", CanonError::Float),
        ("-0", CanonError::Float),
        ("[1,9007199254740992,1.5]", CanonError::IntegerOutOfRange),
        ("{\"b\":9007199254740992,\"a\":[1.5]}", CanonError::Float),
        ("{\"a\":1", CanonError::Unreadable),
    ] {
        assert!(rt; is_refused(rt.alloc(), json, want), "at {json}");
    }
}

fn deep(alloc: Global, depth: u16) -> Result<bool, AllocError> {
    let mut text = Text::new(alloc, "")?;
    for _ in 0..depth {
        text.push_str("{\"a\":")?;
    }
    text.push_str("1")?;
    for _ in 0..depth {
        text.push_str("}")?;
    }
    Ok(is_piped(alloc, text.as_str(), text.as_str()))
}

#[test]
fn nesting_past_127_is_unreadable(rt: HostRuntime) {
    assert!(rt; holds(deep(rt.alloc(), 127)));
    assert!(rt; !holds(deep(rt.alloc(), 128)));
}

fn sink_fails(alloc: Global) -> Result<bool, AllocError> {
    let mut sink = failing_at(alloc, 0)?;
    let failed = to_writer(alloc, &true, &mut sink) == Err(CanonError::SinkFault);
    let refused = to_writer(alloc, &u64::MAX, &mut sink) == Err(CanonError::IntegerOutOfRange);
    let written = to_writer(alloc, &true, &mut sink) == Ok(());
    let taken = sink.taken() == b"true".as_slice() && sink.faults() == 1;
    Ok(failed && refused && written && taken)
}

fn texts_in_a_row(alloc: Global) -> bool {
    let mut serializer = JcsSerializer::new(alloc, PlainSink::new(alloc));
    let first = serializer.serialize(&true) == Ok(());
    let refused = serializer.serialize(&u64::MAX) == Err(CanonError::IntegerOutOfRange);
    let second = serializer.serialize(&Value::Null) == Ok(());
    first && refused && second && serializer.into_inner().taken() == b"truenull".as_slice()
}

#[test]
fn texts_go_to_a_sink(rt: HostRuntime) {
    assert!(rt; holds(sink_fails(rt.alloc())));
    assert!(rt; texts_in_a_row(rt.alloc()));
}

// A value by its number, built from the inside out.
fn generated(alloc: Global, number: usize) -> Result<Text, AllocError> {
    let wraps = [
        ("[null,", ",\"\\n\"]"),
        ("{\"\u{fb33}\":", ",\"\u{1f600}\":true}"),
        ("{\"b\":[],\"\":", ",\"a\":{}}"),
        ("{\"a\\ud800\\udc00b\":[", ",-1],\"a\\uffff\":2}"),
    ];
    let mut text = Text::new(alloc, "7")?;
    let mut left = number;
    for _ in 0..4 {
        let (front, back) = wraps[left % 4];
        let mut wrapped = Text::new(alloc, front)?;
        wrapped.push_str(text.as_str())?;
        wrapped.push_str(back)?;
        text = wrapped;
        left /= 4;
    }
    Ok(text)
}

fn is_vec<V: ToValue>(alloc: Global, value: &V, want: &[u8]) -> bool {
    match to_vec(alloc, value) {
        Ok(text) => text.as_slice() == want,
        Err(_) => false,
    }
}

fn is_json_vec(alloc: Global, value: Value, want: &[u8]) -> bool {
    match json_to_vec(alloc, &Json::new(value)) {
        Ok(text) => text.as_slice() == want,
        Err(_) => false,
    }
}

fn is_written_plainly(alloc: Global, value: Value) -> Result<bool, AllocError> {
    let mut plain = Blob::empty(alloc);
    write_value(alloc, &mut plain, &value)?;
    let by_events = is_vec(alloc, &value, plain.as_slice());
    Ok(by_events && is_json_vec(alloc, value, plain.as_slice()))
}

fn agrees(alloc: Global, number: usize) -> Result<bool, AllocError> {
    let json = generated(alloc, number)?;
    match Value::from_str(alloc, json.as_str()) {
        Ok(value) => is_written_plainly(alloc, value),
        Err(_) => Ok(false),
    }
}

#[test]
fn the_plain_program_writes_the_same(rt: HostRuntime) {
    for number in 0..256 {
        assert!(rt; holds(agrees(rt.alloc(), number)), "at {number}");
    }
}
