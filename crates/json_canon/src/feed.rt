// A value as events.
ghost use Rattle.std.specs.Prelude.{◌≤◌, [], ◌∷◌, ◌++◌};
ghost use Rattle.serde_json.specs.Data.{number, array, object};
ghost use Rattle.serde_json.specs.View.{view, number_view, items_view, members_view};
ghost use Rattle.json_events.specs.Events.{begin_array_value, end_array_value, begin_object_key};
ghost use Rattle.json_events.specs.Events.{write_string, end_object_key, begin_object_value};
ghost use Rattle.json_events.specs.Events.{end_object_value};
ghost use Rattle.json_canon.specs.Feeding.{Fed};
ghost use Rattle.json_events.specs.Formatters.{stage_of};
ghost use Rattle.json_events.specs.Spelling.{spelled};

use byte_streams::Sink;
use json_events::{CanonError, JcsFormatter};
use serde_json::{Map, Number, Value};

#[cycle(feed)]
pub(crate) fn feed<K: Sink>(
    formatter: &mut JcsFormatter,
    sink: &mut K,
    value: &Value,
) -> Result<(), CanonError>
    ensures accepted { Fed (spelled (view value.now)) result (stage_of formatter.old)
        (stage_of formatter.new) (K.state sink.old) (K.state sink.new) }
    ensures count { (K.state sink.old).faults ≤ (K.state sink.new).faults }
{
    match value {
        Value::Null => {
            let done = formatter.write_null(sink);
            done
        }
        Value::Bool(truth) => {
            let done = formatter.write_bool(sink, *truth);
            done
        }
        Value::Number(whole) => {
            let done = feed_number(formatter, sink, whole);
            done
        }
        Value::String(text) => {
            let done = formatter.write_string(sink, text.as_str());
            done
        }
        Value::Array(items) => {
            let done = feed_items(formatter, sink, items);
            done
        }
        Value::Object(members) => {
            let done = feed_members(formatter, sink, members);
            done
        }
    }
}

#[cycle(feed)]
fn feed_items<K: Sink>(
    formatter: &mut JcsFormatter,
    sink: &mut K,
    items: &Vec<Value>,
) -> Result<(), CanonError>
    ensures accepted { Fed (spelled (array (items_view items.now.items))) result (stage_of formatter.old)
        (stage_of formatter.new) (K.state sink.old) (K.state sink.new) }
    ensures count { (K.state sink.old).faults ≤ (K.state sink.new).faults }
{
    formatter.begin_array(sink)?;
    for item in items {
        feed_item(formatter, sink, item)?;
    }
    let done = formatter.end_array(sink);
    done
}

#[cycle(feed)]
fn feed_item<K: Sink>(
    formatter: &mut JcsFormatter,
    sink: &mut K,
    item: &Value,
) -> Result<(), CanonError>
    ensures accepted { Fed (begin_array_value ∷ (spelled (view item.now) ++ end_array_value ∷ [])) result
        (stage_of formatter.old) (stage_of formatter.new) (K.state sink.old) (K.state sink.new) }
    ensures count { (K.state sink.old).faults ≤ (K.state sink.new).faults }
{
    formatter.begin_array_value(sink)?;
    feed(formatter, sink, item)?;
    let done = formatter.end_array_value(sink);
    done
}

#[cycle(feed)]
fn feed_members<K: Sink>(
    formatter: &mut JcsFormatter,
    sink: &mut K,
    members: &Map<String, Value>,
) -> Result<(), CanonError>
    ensures accepted { Fed (spelled (object (members_view members.now.entries))) result
        (stage_of formatter.old) (stage_of formatter.new) (K.state sink.old) (K.state sink.new) }
    ensures count { (K.state sink.old).faults ≤ (K.state sink.new).faults }
{
    formatter.begin_object(sink)?;
    for (name, member) in members.iter() {
        feed_name(formatter, sink, name.as_str())?;
        feed_member(formatter, sink, member)?;
    }
    let done = formatter.end_object(sink);
    done
}

#[cycle(feed)]
fn feed_member<K: Sink>(
    formatter: &mut JcsFormatter,
    sink: &mut K,
    member: &Value,
) -> Result<(), CanonError>
    ensures accepted { Fed (begin_object_value ∷ (spelled (view member.now) ++ end_object_value ∷ []))
        result (stage_of formatter.old) (stage_of formatter.new) (K.state sink.old)
        (K.state sink.new) }
    ensures count { (K.state sink.old).faults ≤ (K.state sink.new).faults }
{
    formatter.begin_object_value(sink)?;
    feed(formatter, sink, member)?;
    let done = formatter.end_object_value(sink);
    done
}

fn feed_name<K: Sink>(
    formatter: &mut JcsFormatter,
    sink: &mut K,
    name: &str,
) -> Result<(), CanonError>
    ensures accepted { Fed (begin_object_key ∷ write_string name.now ∷ end_object_key ∷ []) result
        (stage_of formatter.old) (stage_of formatter.new) (K.state sink.old) (K.state sink.new) }
    ensures count { (K.state sink.old).faults ≤ (K.state sink.new).faults }
{
    formatter.begin_object_key(sink)?;
    formatter.write_string(sink, name)?;
    let done = formatter.end_object_key(sink);
    done
}

fn feed_number<K: Sink>(
    formatter: &mut JcsFormatter,
    sink: &mut K,
    whole: &Number,
) -> Result<(), CanonError>
    ensures accepted { Fed (spelled (number (number_view whole.now))) result (stage_of formatter.old)
        (stage_of formatter.new) (K.state sink.old) (K.state sink.new) }
    ensures count { (K.state sink.old).faults ≤ (K.state sink.new).faults }
{
    match whole.as_i128() {
        Some(value) => {
            let done = formatter.write_integer(sink, value);
            done
        }
        None => {
            let done = formatter.write_float(sink);
            done
        }
    }
}
