//! Whether two values are the same, compared part by part.
ghost use Rattle.std.specs.Prelude.{◌≡◌};
ghost use Rattle.serde_json.specs.View.{view, number_view, items_view, members_view};
ghost use Rattle.cosign_chain.specs.Same.{same_data, same_items, same_members, same_number};

use serde_json::{Map, Number, Value};

// Whether two JSON values are the same. A float is the same as nothing.
#[cycle(same)]
pub(crate) fn same_value(a: &Value, b: &Value) -> bool
    ensures { result ≡ same_data (view a.now) (view b.now) }
{
    match (a, b) {
        (Value::Null, Value::Null) => true,
        (Value::Bool(a), Value::Bool(b)) => *a == *b,
        (Value::Number(a), Value::Number(b)) => same_number(a, b),
        (Value::String(a), Value::String(b)) => a.as_str() == b.as_str(),
        (Value::Array(a), Value::Array(b)) => same_items(a, b),
        (Value::Object(a), Value::Object(b)) => same_members(a, b),
        _ => false,
    }
}

#[cycle(same)]
fn same_items(a: &Vec<Value>, b: &Vec<Value>) -> bool
    ensures { result ≡ same_items (items_view a.now.items) (items_view b.now.items) }
{
    let mut others = b.iter();
    for item in a {
        let Some(other) = others.next() else {
            return false;
        };
        if !same_value(item, other) {
            return false;
        }
    }
    others.next().is_none()
}

#[cycle(same)]
fn same_members(a: &Map<String, Value>, b: &Map<String, Value>) -> bool
    ensures { result ≡ same_members (members_view a.now.entries) (members_view b.now.entries) }
{
    let mut others = b.iter();
    for (name, member) in a.iter() {
        let Some((other_name, other)) = others.next() else {
            return false;
        };
        if name.as_str() != other_name.as_str() || !same_value(member, other) {
            return false;
        }
    }
    others.next().is_none()
}

fn same_number(a: &Number, b: &Number) -> bool
    ensures { result ≡ same_number (number_view a.now) (number_view b.now) }
{
    match (a.as_u64(), b.as_u64()) {
        (Some(a), Some(b)) => a == b,
        (None, None) => match (a.as_i64(), b.as_i64()) {
            (Some(a), Some(b)) => a == b,
            _ => false,
        },
        _ => false,
    }
}
