// The formatter, event by event.
use crate::shared::failing_at;
use byte_streams::{PlainSink, Sink};
use json_canon::{
    CanonError, JcsFormatter, JsonProperty, events_write, first_refusal_has_its_cause, one_text,
    order_of_names, texts_tell_values,
};
use json_values::Blob;
use recorded_answers::holds;
use std::alloc::{AllocError, Global};
use std::cmp::Ordering;

// An event by a character: `[` `]` an array, `(` `)` an item of it, `{` `}` an object, `<` `>` a member's name,
// `:` `;` its value, and `.` the end.
fn call<K: Sink>(f: &mut JcsFormatter, sink: &mut K, event: char) -> Result<(), CanonError> {
    match event {
        '[' => f.begin_array(sink),
        ']' => f.end_array(sink),
        '(' => f.begin_array_value(sink),
        ')' => f.end_array_value(sink),
        '.' => f.finish(sink),
        '{' | '}' | '<' | '>' | ':' | ';' => call_of_object(f, sink, event),
        _ => call_of_value(f, sink, event),
    }
}

fn call_of_object<K: Sink>(
    f: &mut JcsFormatter,
    sink: &mut K,
    event: char,
) -> Result<(), CanonError> {
    match event {
        '{' => f.begin_object(sink),
        '}' => f.end_object(sink),
        '<' => f.begin_object_key(sink),
        '>' => f.end_object_key(sink),
        ':' => f.begin_object_value(sink),
        _ => f.end_object_value(sink),
    }
}

// `n` null, `t` true, `1` the greatest integer and `2` the next one, `~` a float, `!` a fragment; else a string.
fn call_of_value<K: Sink>(
    f: &mut JcsFormatter,
    sink: &mut K,
    event: char,
) -> Result<(), CanonError> {
    match event {
        'n' => f.write_null(sink),
        't' => f.write_bool(sink, true),
        '1' => f.write_integer(sink, 9007199254740991),
        '2' => f.write_integer(sink, 9007199254740992),
        '~' => f.write_float(sink),
        '!' => f.write_raw_fragment(sink, "1"),
        'd' => f.write_string(sink, "\u{fb33}"),
        'g' => f.write_string(sink, "\u{1f600}"),
        _ => f.write_string(sink, "\n"),
    }
}

fn play<K: Sink>(f: &mut JcsFormatter, sink: &mut K, events: &str) -> Result<(), CanonError> {
    for event in events.chars() {
        call(f, sink, event)?;
    }
    Ok(())
}

// Whether the events are accepted, with this text written out and this text held for a member.
fn writes(alloc: Global, events: &str, taken: &str, text: &str) -> bool {
    let mut sink = PlainSink::new(alloc);
    let mut f = JcsFormatter::new(alloc);
    let answer = play(&mut f, &mut sink, events);
    answer == Ok(()) && sink.taken() == taken.as_bytes() && f.member_text() == text.as_bytes()
}

#[test]
fn what_stands_in_no_object_goes_out_at_once(rt: HostRuntime) {
    for (events, taken) in [
        ("[].", "[]"),
        ("{}.", "{}"),
        ("[(t", "[true"),
        ("[(n)(s)(1)].", "[null,\"\\n\",9007199254740991]"),
        (
            "[({<d>:n;<g>:t;})].",
            "[{\"\u{1f600}\":true,\"\u{fb33}\":null}]",
        ),
    ] {
        assert!(rt; writes(rt.alloc(), events, taken, ""), "at {events}");
    }
}

#[test]
fn a_member_holds_its_text_until_its_object_ends(rt: HostRuntime) {
    for (events, taken, text) in [
        ("{<s>:[(t", "", "[true"),
        ("{<d>:n;<g>:[(t)({", "", ""),
        ("{<d>:n;<g>:[(t)({})]", "", "[true,{}]"),
        ("[({<d>:n;<g>:[(t)({})];", "[", ""),
    ] {
        assert!(rt; writes(rt.alloc(), events, taken, text), "at {events}");
    }
}

// Whether the last event has this refusal, and each later one too, with nothing written.
fn refuses(alloc: Global, events: &str, refusal: CanonError, taken: &str) -> bool {
    let mut sink = PlainSink::new(alloc);
    let mut f = JcsFormatter::new(alloc);
    let first = play(&mut f, &mut sink, events) == Err(refusal);
    let kept = f.first_refusal() == Some(refusal);
    let later = call(&mut f, &mut sink, 'n') == Err(refusal);
    let end = call(&mut f, &mut sink, '.') == Err(refusal);
    first && kept && later && end && sink.taken() == taken.as_bytes()
}

#[test]
fn an_event_that_stands_in_no_value_is_refused(rt: HostRuntime) {
    for (events, taken) in [
        ("]", ""),
        (".", ""),
        ("nn", "null"),
        ("n..", "null"),
        ("{:", ""),
        ("[2", "["),
    ] {
        let refused = refuses(rt.alloc(), events, CanonError::NotWellNested, taken);
        assert!(rt; refused, "at {events}");
    }
}

#[test]
fn the_first_refusal_stays(rt: HostRuntime) {
    for (events, refusal, taken) in [
        ("{<s>:n;<s>:t;", CanonError::DuplicateKey, ""),
        ("[(2", CanonError::IntegerOutOfRange, "["),
        ("~", CanonError::Float, ""),
        ("!", CanonError::RawFragment, ""),
    ] {
        assert!(rt; refuses(rt.alloc(), events, refusal, taken), "at {events}");
    }
}

fn failure_stays(alloc: Global) -> Result<bool, AllocError> {
    let mut sink = failing_at(alloc, 1)?;
    let mut f = JcsFormatter::new(alloc);
    let begun = play(&mut f, &mut sink, "[(") == Ok(());
    let first = call(&mut f, &mut sink, 'n') == Err(CanonError::SinkFault);
    let later = call(&mut f, &mut sink, 't') == Err(CanonError::SinkFault);
    Ok(begun && first && later && sink.taken() == b"[".as_slice())
}

#[test]
fn a_sink_that_fails_is_a_refusal_that_stays(rt: HostRuntime) {
    assert!(rt; holds(failure_stays(rt.alloc())));
}

fn member(alloc: Global, name: &str, key: &[u8]) -> Result<JsonProperty, AllocError> {
    let key = Blob::new(alloc, key)?;
    JsonProperty::new(alloc, name, key, Blob::empty(alloc))
}

fn names_are_compared(alloc: Global) -> Result<bool, AllocError> {
    let dalet = member(alloc, "\u{fb33}", b"1")?;
    let grin = member(alloc, "\u{1f600}", b"2")?;
    let later = dalet.cmp(&grin) == Ordering::Greater && grin != dalet;
    Ok(later && grin.sorting_key.as_slice() == [0xd83d, 0xde00].as_slice())
}

fn keys_alone_are_compared(alloc: Global) -> Result<bool, AllocError> {
    let grin = member(alloc, "\u{1f600}", b"2")?;
    let other = member(alloc, "\u{1f600}", b"3")?;
    Ok(grin == other && grin.partial_cmp(&other) == Some(Ordering::Equal))
}

#[test]
fn members_are_compared_by_their_sorting_keys(rt: HostRuntime) {
    assert!(rt; holds(names_are_compared(rt.alloc())));
    assert!(rt; holds(keys_alone_are_compared(rt.alloc())));
    events_write();
    first_refusal_has_its_cause();
    one_text();
    order_of_names();
    texts_tell_values();
}
