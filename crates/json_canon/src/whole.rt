// The canonical text of a complete value, by its events.
ghost use Rattle.std.specs.Prelude.{◌≤◌, IfOk, OnOk, IsUtf8};
ghost use Rattle.serde_json.specs.View.{view};
ghost use Rattle.json_canon.specs.Outcomes.{GivesText, WritesText, PipesText};
ghost use Rattle.json_canon.specs.Plain.{IsPlain};
ghost use Rattle.json_canon.specs.TextLaws.{PipesBack};
ghost use Rattle.json_events.specs.Values.{IsValue};

use crate::feed::feed;
use crate::plain::is_plain;
use crate::walk::refusal;
use byte_streams::{PlainSink, Sink};
use json_events::{CanonError, JcsFormatter};
use json_values::{Blob, Json, Text, ToValue, read_json};
use serde_json::Value;
use std::alloc::Global;

/// Returns the canonical text of a value (RFC 8785, 3.2). Returns `Float` or `IntegerOutOfRange` for the first number
/// that has no text: items by index, members by the bytes of their names.
pub fn to_vec<V: ToValue>(alloc: Global, value: &V) -> Result<Blob, CanonError>
    ensures text { GivesText result (V.written value.now) }
    ensures value { OnOk result (IsValue (V.written value.now)) }
{
    let value = value.to_value(alloc)?;
    let text = text_of(alloc, &value)?;
    Ok(text)
}

/// Does the same as `to_vec` for a parsed JSON value, without copying it.
pub fn json_to_vec(alloc: Global, json: &Json) -> Result<Blob, CanonError>
    ensures text { GivesText result json.now }
    ensures value { OnOk result (IsValue json.now) }
{
    let text = text_of(alloc, json.value())?;
    Ok(text)
}

/// Does the same as `to_vec`, but returns a text.
pub fn to_string<V: ToValue>(alloc: Global, value: &V) -> Result<Text, CanonError>
    ensures text { GivesText result (V.written value.now) }
    ensures value { OnOk result (IsValue (V.written value.now)) }
{
    let value = value.to_value(alloc)?;
    let text = string_of(alloc, &value)?;
    Ok(text)
}

/// Writes the canonical text of a value. A refused number is found before anything is written. Returns `SinkFault`
/// only if the sink's fault count increased; then a prefix of the text was written.
pub fn to_writer<V: ToValue, K: Sink>(
    alloc: Global,
    value: &V,
    sink: &mut K,
) -> Result<(), CanonError>
    ensures text { WritesText result (V.written value.now) (K.state sink.old) (K.state sink.new) }
    ensures value { OnOk result (IsValue (V.written value.now)) }
    ensures count { (K.state sink.old).faults ≤ (K.state sink.new).faults }
{
    let value = value.to_value(alloc)?;
    let written = put_text(alloc, sink, &value);
    written
}

/// Returns the canonical text of a JSON text. Returns `Unreadable` if and only if the text is not JSON or nests deeper
/// than 127. A canonical text is returned verbatim.
pub fn pipe(alloc: Global, json: &str) -> Result<Text, CanonError>
    ensures text { PipesText result json.now }
    ensures canonical { PipesBack result json.now }
{
    let text = piped(alloc, json);
    text
}

// `canonical` of `pipe` follows from this clause alone.
fn piped(alloc: Global, json: &str) -> Result<Text, CanonError>
    ensures { PipesText result json.now }
{
    match read_json(alloc, json.as_bytes())? {
        None => Err(CanonError::Unreadable),
        Some(value) => {
            let text = string_of(alloc, value.value())?;
            Ok(text)
        }
    }
}

/// Writes the text of a value as its events, once none of its numbers is refused.
fn put_text<K: Sink>(alloc: Global, sink: &mut K, value: &Value) -> Result<(), CanonError>
    ensures text { WritesText result (view value.now) (K.state sink.old) (K.state sink.new) }
    ensures value { OnOk result (IsValue (view value.now)) }
    ensures count { (K.state sink.old).faults ≤ (K.state sink.new).faults }
{
    match refusal(value) {
        Some(refused) => return Err(refused),
        None => {}
    }
    let mut formatter = JcsFormatter::new(alloc);
    let fed = feed(&mut formatter, sink, value);
    fed
}

fn text_of(alloc: Global, value: &Value) -> Result<Blob, CanonError>
    ensures text { GivesText result (view value.now) }
    ensures value { OnOk result (IsValue (view value.now)) }
    ensures utf8 { IfOk result (λ t. IsUtf8 t) }
{
    if is_plain(value) {
        let text = plain_text(alloc, value);
        return text;
    }
    let text = fed_text(alloc, value);
    text
}

/// Returns the compact text of a value for which it is the canonical one.
fn plain_text(alloc: Global, value: &Value) -> Result<Blob, CanonError>
    requires { IsPlain (view value.now) }
    ensures text { GivesText result (view value.now) }
    ensures value { OnOk result (IsValue (view value.now)) }
    ensures utf8 { IfOk result (λ t. IsUtf8 t) }
{
    let bytes = value.to_vec(alloc)?;
    Ok(Blob::from_vec(bytes))
}

/// Returns the text of a value as its events.
fn fed_text(alloc: Global, value: &Value) -> Result<Blob, CanonError>
    ensures text { GivesText result (view value.now) }
    ensures value { OnOk result (IsValue (view value.now)) }
    ensures utf8 { IfOk result (λ t. IsUtf8 t) }
{
    let mut sink = PlainSink::new(alloc);
    put_text(alloc, &mut sink, value)?;
    Ok(sink.into_blob())
}

fn string_of(alloc: Global, value: &Value) -> Result<Text, CanonError>
    ensures text { GivesText result (view value.now) }
    ensures value { OnOk result (IsValue (view value.now)) }
{
    let bytes = text_of(alloc, value)?;
    match std::str::from_utf8(bytes.as_slice()) {
        Ok(text) => Ok(Text::new(alloc, text)?),
        Err(_) => unreachable!(),
    }
}
