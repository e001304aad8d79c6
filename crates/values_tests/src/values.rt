// Texts, bytes, lists, maps, sinks and JSON.
use byte_streams::{MemorySink, PlainSink, Sink, SinkError, put_all};
use json_tables::Holder;
use json_values::{
    Annotations, Blob, Copied, Json, List, Text, TextSet, ToValue, decimals_round_trip,
    read_decimal, read_json, write_decimal, write_quoted,
};
use serde_json::Value;
use std::alloc::{AllocError, Global};

/// Whether a result is true.
pub(crate) fn holds(answer: Result<bool, AllocError>) -> bool {
    match answer {
        Ok(holds) => holds,
        Err(_) => false,
    }
}

fn text_grows(alloc: Global) -> Result<bool, AllocError> {
    let mut text = Text::new(alloc, "lay")?;
    text.push_str("er")?;
    let copy = text.copy(alloc)?;
    Ok(copy.as_str() == "layer")
}

fn bytes_grow(alloc: Global) -> Result<bool, AllocError> {
    let mut bytes = Blob::new(alloc, b"la")?;
    bytes.append(b"yer")?;
    let copy = bytes.copy(alloc)?;
    Ok(copy.as_slice() == b"layer".as_slice())
}

fn list_grows(alloc: Global) -> Result<bool, AllocError> {
    let mut list = List::new(alloc);
    list.push(3u64)?;
    list.push(1u64)?;
    let copy = list.copy(alloc)?;
    Ok(copy.as_slice() == [3u64, 1].as_slice())
}

#[test]
fn texts_bytes_and_lists_grow_and_copy(rt: HostRuntime) {
    assert!(rt; holds(text_grows(rt.alloc())));
    assert!(rt; holds(bytes_grow(rt.alloc())));
    assert!(rt; holds(list_grows(rt.alloc())));
    assert!(rt; Blob::empty(rt.alloc()).as_slice().is_empty());
}

// Bytes that are prepended to a long text go into the room that is kept for them.
fn wrapped(alloc: Global, text: Blob, times: u8) -> Result<Blob, AllocError> {
    let mut whole = text;
    for _ in 0..times {
        whole = Blob::new(alloc, b"a long text {")?.join(whole)?;
        whole.append(b"}")?;
    }
    Ok(whole)
}

/// These bytes so many times.
pub(crate) fn repeated(alloc: Global, text: &[u8], times: u16) -> Result<Blob, AllocError> {
    let mut bytes = Blob::empty(alloc);
    for _ in 0..times {
        bytes.append(text)?;
    }
    Ok(bytes)
}

fn join_keeps_order(alloc: Global) -> Result<bool, AllocError> {
    let whole = wrapped(alloc, repeated(alloc, b"x", 400)?, 9)?;
    let mut expected = repeated(alloc, b"a long text {", 9)?;
    expected.append(repeated(alloc, b"x", 400)?.as_slice())?;
    expected.append(repeated(alloc, b"}", 9)?.as_slice())?;
    Ok(whole.as_slice() == expected.as_slice())
}

#[test]
fn joined_bytes_stand_in_their_order(rt: HostRuntime) {
    assert!(rt; holds(join_keeps_order(rt.alloc())));
}

fn map_of(alloc: Global, members: &[(&str, &str)]) -> Result<Annotations, AllocError> {
    let mut map = Annotations::new(alloc);
    for (name, value) in members {
        map.insert(Text::new(alloc, *name)?, Text::new(alloc, *value)?)?;
    }
    Ok(map)
}

fn set_of(alloc: Global, names: &[&str]) -> Result<TextSet, AllocError> {
    let mut set = TextSet::new(alloc);
    for name in names {
        set.insert(Text::new(alloc, *name)?)?;
    }
    Ok(set)
}

fn is_value(map: &Annotations, name: &str, value: &str) -> bool {
    match map.get(name) {
        Some(found) => found.as_str() == value,
        None => false,
    }
}

fn last_value_stays(alloc: Global) -> Result<bool, AllocError> {
    let map = map_of(alloc, &[("c", "1"), ("a", "2"), ("d", "4"), ("a", "5")])?;
    let copy = map.copy(alloc)?;
    let there = is_value(&copy, "a", "5") && is_value(&copy, "c", "1") && is_value(&copy, "d", "4");
    Ok(there && copy == map && copy.get("").is_none() && copy.get("ab").is_none())
}

fn maps_differ(alloc: Global) -> Result<bool, AllocError> {
    let map = map_of(alloc, &[("b", "1")])?;
    let other = map_of(alloc, &[("b", "2")])?;
    Ok(map != other && !map.is_empty() && Annotations::new(alloc).is_empty())
}

#[test]
fn a_map_keeps_the_last_value_of_a_name(rt: HostRuntime) {
    assert!(rt; holds(last_value_stays(rt.alloc())));
    assert!(rt; holds(maps_differ(rt.alloc())));
}

fn is_name(set: &TextSet, place: usize, name: &str) -> bool {
    match set.name_at(place) {
        Some(found) => found.as_str() == name,
        None => false,
    }
}

fn names_in_order(alloc: Global) -> Result<bool, AllocError> {
    let set = set_of(alloc, &["\u{1f600}", "\u{fb33}", "a", "ab", "a"])?;
    let first = is_name(&set, 0, "a") && is_name(&set, 1, "ab");
    let last = is_name(&set, 2, "\u{fb33}") && is_name(&set, 3, "\u{1f600}");
    Ok(first && last && set.name_at(4).is_none())
}

fn sets_differ(alloc: Global) -> Result<bool, AllocError> {
    let set = set_of(alloc, &["b"])?;
    let longer = set_of(alloc, &["b", "a"])?;
    let same = set.copy(alloc)?;
    Ok(set == same && set != longer && longer.contains("a") && !set.contains("a"))
}

fn sets_are_empty(alloc: Global) -> Result<bool, AllocError> {
    let set = set_of(alloc, &["b"])?;
    Ok(!set.is_empty() && TextSet::new(alloc).is_empty())
}

#[test]
fn names_stand_in_the_order_of_their_bytes(rt: HostRuntime) {
    assert!(rt; holds(names_in_order(rt.alloc())));
    assert!(rt; holds(sets_differ(rt.alloc())));
    assert!(rt; holds(sets_are_empty(rt.alloc())));
}

fn is_quoted(alloc: Global, text: &str, want: &str) -> Result<bool, AllocError> {
    let quoted = write_quoted(alloc, text)?;
    Ok(quoted.as_str() == want)
}

// The example of RFC 8785, 3.2.2.2.
#[test]
fn a_text_is_written_with_its_escapes(rt: HostRuntime) {
    let text = "\u{20ac}$\u{f}\nA'B\"\\\\\"/";
    let want = "\"\u{20ac}$\\u000f\\nA'B\\\"\\\\\\\\\\\"/\"";
    assert!(rt; holds(is_quoted(rt.alloc(), text, want)));
    let want = "\"\\b\\t\\f\\r\u{7f}\"";
    assert!(rt; holds(is_quoted(rt.alloc(), "\u{8}\t\u{c}\r\u{7f}", want)));
}

fn is_decimal(alloc: Global, number: u64, want: &str) -> Result<bool, AllocError> {
    let digits = write_decimal(alloc, number)?;
    Ok(digits.as_str() == want && read_decimal(want.as_bytes()) == Some(number))
}

#[test]
fn numbers_below_2_64_are_read_from_decimal_digits(rt: HostRuntime) {
    decimals_round_trip();
    assert!(rt; holds(is_decimal(rt.alloc(), 0, "0")));
    assert!(rt; holds(is_decimal(rt.alloc(), u64::MAX, "18446744073709551615")));
    assert!(rt; read_decimal(b"007") == Some(7));
    for text in ["", "+1", "1 ", "0x1", "18446744073709551616"] {
        assert!(rt; read_decimal(text.as_bytes()).is_none(), "{text}");
    }
}

fn is_json(alloc: Global, bytes: &[u8]) -> Result<bool, AllocError> {
    let found = read_json(alloc, bytes)?;
    Ok(found.is_some())
}

fn nested(alloc: Global, depth: u16) -> Result<bool, AllocError> {
    let mut text = repeated(alloc, b"[", depth)?;
    text.append(repeated(alloc, b"]", depth)?.as_slice())?;
    is_json(alloc, text.as_slice())
}

fn last_member_stays(alloc: Global) -> Result<bool, AllocError> {
    let Some(json) = read_json(alloc, b"{\"a\":1,\"a\":2}")? else {
        return Ok(false);
    };
    let json = json.copy(alloc)?;
    Ok(json.value().get("a").and_then(Value::as_u64) == Some(2))
}

#[test]
fn json_is_read_from_bytes_to_a_depth_of_127(rt: HostRuntime) {
    assert!(rt; holds(is_json(rt.alloc(), b" {\"a\": [1.5, null]} ")));
    assert!(rt; !holds(is_json(rt.alloc(), b"[1] 2")) && !holds(is_json(rt.alloc(), b"\"\xff\"")));
    assert!(rt; holds(nested(rt.alloc(), 127)) && !holds(nested(rt.alloc(), 128)));
    assert!(rt; holds(last_member_stays(rt.alloc())));
}

fn is_written<V: ToValue>(alloc: Global, value: &V, want: &str) -> Result<bool, AllocError> {
    let value = value.to_value(alloc)?;
    let text = value.to_string(alloc)?;
    Ok(text.as_str() == want)
}

fn containers_are_written(alloc: Global) -> Result<bool, AllocError> {
    let map = map_of(alloc, &[("b", "1"), ("a", "2")])?;
    let set = set_of(alloc, &["8080/tcp"])?;
    let map_written = is_written(alloc, &map, "{\"a\":\"2\",\"b\":\"1\"}")?;
    let set_written = is_written(alloc, &set, "{\"8080/tcp\":{}}")?;
    Ok(map_written && set_written)
}

fn lists_are_written(alloc: Global) -> Result<bool, AllocError> {
    let mut list = List::new(alloc);
    list.push(Some(true))?;
    list.push(None)?;
    is_written(alloc, &list, "[true,null]")
}

fn json_is_written(alloc: Global) -> Result<bool, AllocError> {
    let Some(json) = read_json(alloc, b"[1.5]")? else {
        return Ok(false);
    };
    let whole = is_written(alloc, &json, "[1.5]")?;
    let value = is_written(alloc, json.value(), "[1.5]")?;
    Ok(whole && value && Json::new(Value::Null).value().is_null())
}

fn text_is_written(alloc: Global) -> Result<bool, AllocError> {
    is_written(alloc, &Text::new(alloc, "a\"b")?, "\"a\\\"b\"")
}

#[test]
fn numbers_and_truth_values_stand_for_json(rt: HostRuntime) {
    assert!(rt; holds(is_written(rt.alloc(), &true, "true")));
    assert!(rt; holds(is_written(rt.alloc(), &i64::MIN, "-9223372036854775808")));
    assert!(rt; holds(is_written(rt.alloc(), &u64::MAX, "18446744073709551615")));
}

#[test]
fn texts_lists_maps_and_sets_stand_for_json(rt: HostRuntime) {
    assert!(rt; holds(text_is_written(rt.alloc())));
    assert!(rt; holds(lists_are_written(rt.alloc())));
    assert!(rt; holds(containers_are_written(rt.alloc())));
    assert!(rt; holds(json_is_written(rt.alloc())));
}

/// Returns a sink that fails at this call.
pub(crate) fn failing_at(alloc: Global, call: u64) -> Result<MemorySink, AllocError> {
    let mut failing = List::new(alloc);
    failing.push(call)?;
    Ok(MemorySink::new(alloc, failing))
}

fn second_call_fails(alloc: Global) -> Result<bool, AllocError> {
    let mut sink = failing_at(alloc, 1)?;
    let first = put_all(&mut sink, b"ab") == Ok(());
    let second = put_all(&mut sink, b"cd") == Err(SinkError::Failed);
    let third = put_all(&mut sink, b"ef") == Ok(());
    let taken = sink.taken() == b"abef".as_slice() && sink.faults() == 1;
    Ok(first && second && third && taken)
}

fn plain_sink_takes_all(alloc: Global) -> bool {
    let mut sink = PlainSink::new(alloc);
    let put = put_all(&mut sink, b"abc") == Ok(());
    put && sink.taken() == b"abc".as_slice() && sink.faults() == 0
}

#[test]
fn a_sink_fails_at_the_calls_it_was_given(rt: HostRuntime) {
    assert!(rt; holds(second_call_fails(rt.alloc())));
    assert!(rt; plain_sink_takes_all(rt.alloc()));
}
