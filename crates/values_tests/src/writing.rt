// Writing members of JSON objects.
use crate::values::holds;
use json_tables::{Reads, Required, UnlessEmpty, Writes, object, put_field};
use json_values::{Annotations, Json, List, Text, TextSet};
use serde_json::{Map, Value};
use std::alloc::{AllocError, Global};

fn is_text(alloc: Global, value: &Value, want: &str) -> Result<bool, AllocError> {
    let text = value.to_string(alloc)?;
    Ok(text.as_str() == want)
}

fn texts(alloc: Global, items: &[&str]) -> Result<List<Text>, AllocError> {
    let mut list = List::new(alloc);
    for item in items {
        list.push(Text::new(alloc, *item)?)?;
    }
    Ok(list)
}

fn none_is_left_out(alloc: Global) -> Result<bool, AllocError> {
    let text = Text::new(alloc, "a")?;
    let none: Option<Text> = None;
    let value = object!(alloc, { "b": &none, "a": &Required(&text), "c": &255u8 })?;
    is_text(alloc, &value, r#"{"a":"a","c":255}"#)
}

fn empty_is_left_out(alloc: Global) -> Result<bool, AllocError> {
    let some = Some(texts(alloc, &[])?);
    let value = object!(alloc, { "e": &some, "d": &UnlessEmpty(&some), "c": &i64::MIN })?;
    is_text(alloc, &value, r#"{"c":-9223372036854775808,"e":[]}"#)
}

fn null_is_written(alloc: Global) -> Result<bool, AllocError> {
    let null = Json::new(Value::Null);
    let list = texts(alloc, &["x", "y"])?;
    let value = object!(alloc, { "f": &list, "e": &null })?;
    is_text(alloc, &value, r#"{"e":null,"f":["x","y"]}"#)
}

#[test]
fn members_stand_under_their_names(rt: HostRuntime) {
    assert!(rt; holds(none_is_left_out(rt.alloc())));
    assert!(rt; holds(empty_is_left_out(rt.alloc())));
    assert!(rt; holds(null_is_written(rt.alloc())));
}

fn map_of(alloc: Global) -> Result<Annotations, AllocError> {
    let mut map = Annotations::new(alloc);
    map.insert(Text::new(alloc, "b")?, Text::new(alloc, "1")?)?;
    map.insert(Text::new(alloc, "a")?, Text::new(alloc, "1")?)?;
    Ok(map)
}

fn set_of(alloc: Global) -> Result<TextSet, AllocError> {
    let mut set = TextSet::new(alloc);
    set.insert(Text::new(alloc, "b")?)?;
    set.insert(Text::new(alloc, "a")?)?;
    Ok(set)
}

fn fields_are_put(alloc: Global) -> Result<bool, AllocError> {
    let mut members = Map::new(alloc);
    put_field(alloc, &mut members, "map", &map_of(alloc)?)?;
    put_field(alloc, &mut members, "set", &set_of(alloc)?)?;
    is_text(
        alloc,
        &Value::Object(members),
        r#"{"map":{"a":"1","b":"1"},"set":{"a":{},"b":{}}}"#,
    )
}

fn map_reads_back(alloc: Global) -> Result<bool, AllocError> {
    let map = map_of(alloc)?;
    let written = map.write_value(alloc)?;
    match Annotations::read_value(alloc, &written) {
        Ok(again) => Ok(again == map),
        Err(_) => Ok(false),
    }
}

fn set_reads_back(alloc: Global) -> Result<bool, AllocError> {
    let set = set_of(alloc)?;
    let written = set.write_value(alloc)?;
    match TextSet::read_value(alloc, &written) {
        Ok(again) => Ok(again == set),
        Err(_) => Ok(false),
    }
}

#[test]
fn what_is_written_reads_back(rt: HostRuntime) {
    assert!(rt; holds(fields_are_put(rt.alloc())));
    assert!(rt; holds(map_reads_back(rt.alloc())));
    assert!(rt; holds(set_reads_back(rt.alloc())));
}
