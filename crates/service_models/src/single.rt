ghost use Rattle.std.specs.Prelude.{◌≡◌, option_map};
ghost use Rattle.serde_json.specs.View.{view, members_view};
ghost use Rattle.service_models.specs.Single.{single, single_of};

use serde_json::{Map, Value};

#[tactic(auto, using(crate::proofs::Singles::others, crate::proofs::Singles::one))]
fn single_member(members: &Map<String, Value>) -> Option<(&str, &Value)>
    ensures { option_map (λ m. (m.0.now, view m.1.now)) result
        ≡ single (members_view members.now.entries) }
{
    if members.len() != 1 {
        return None;
    }
    let (name, member) = members.first_key_value()?;
    Some((name.as_str(), member))
}

/// Returns the only member of an object, with its name, or `None` if the value is not an object with one member.
pub(crate) fn single(value: &Value) -> Option<(&str, &Value)>
    ensures { option_map (λ m. (m.0.now, view m.1.now)) result ≡ single_of (view value.now) }
{
    match value.as_object() {
        Some(members) => single_member(members),
        None => None,
    }
}
