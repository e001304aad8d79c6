// JSON texts that are objects with given members only, and others.
use crate::values::{holds, repeated};
use json_tables::{has_only, may_have_only};
use json_values::Blob;
use std::alloc::{AllocError, Global};

const NAMES: &[&str] = &["a", "b"];

fn has_these(alloc: Global, text: &str) -> bool {
    holds(has_only(alloc, text.as_bytes(), NAMES))
}

#[test]
fn an_object_is_known_by_its_names(rt: HostRuntime) {
    for text in [
        "{}",
        "{\"a\":{\"c\":0}}",
        " { \"\\u0062\" : [0] , \"a\" : 1, \"a\" : 2 } ",
    ] {
        assert!(rt; has_these(rt.alloc(), text));
    }
    for text in [
        "{\"c\":0}",
        "{\"a\":{},\"c\":0}",
        "{\"a\":0,\"A\":0}",
        "[0,0]",
        "[]",
        "\"a\"",
        "1",
        "null",
    ] {
        assert!(rt; !has_these(rt.alloc(), text));
    }
}

// A text that begins so, goes on with 100000 bytes of this kind, and ends so.
fn long_text(alloc: Global, front: &[u8], unit: &[u8], end: &[u8]) -> Result<Blob, AllocError> {
    let mut text = repeated(alloc, front, 1)?;
    text.append(repeated(alloc, unit, 50000)?.as_slice())?;
    text.append(end)?;
    Ok(text)
}

fn is_refused(alloc: Global, front: &[u8], unit: &[u8], end: &[u8]) -> Result<bool, AllocError> {
    let text = long_text(alloc, front, unit, end)?;
    Ok(!may_have_only(alloc, text.as_slice(), NAMES)?)
}

fn is_left(alloc: Global, front: &[u8], unit: &[u8], end: &[u8]) -> Result<bool, AllocError> {
    let text = long_text(alloc, front, unit, end)?;
    may_have_only(alloc, text.as_slice(), NAMES)
}

#[test]
fn a_long_text_is_refused_by_its_first_64_kib(rt: HostRuntime) {
    let alloc = rt.alloc();
    let two = "\u{e4}".as_bytes();
    assert!(rt; holds(is_refused(alloc, b"[0", b",0", b"]")));
    assert!(rt; holds(is_refused(alloc, b"{\"a\":0,\"c\":0,\"d\":\"", two, b"\"}")));
    assert!(rt; holds(is_refused(alloc, b"{\"a\":0, \"c\":0,\"d\":\"", two, b"\"}")));
}

#[test]
fn other_long_texts_are_left_to_their_readers(rt: HostRuntime) {
    let alloc = rt.alloc();
    assert!(rt; holds(is_left(alloc, b"{\"a\":\"", "\u{e4}".as_bytes(), b"\",\"c\":0}")));
    assert!(rt; holds(is_left(alloc, b"{\"a\":[0", b",0", b"]}")));
    assert!(rt; holds(is_left(alloc, b"[0", b"\xff\xff", b"]")));
}
