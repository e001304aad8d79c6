// The members of an object, in the order of their names' units (RFC 8785, 3.2.3).
ghost use Rattle.std.specs.Prelude.{◌≡◌, ◌++◌, IfOk, OnOk};
ghost use Rattle.serde_json.specs.Written.{comma_if};
ghost use Rattle.json_events.specs.Members.{kept_object, kept_text};

use crate::property::JsonProperty;
use json_values::Blob;
use std::alloc::AllocError;
use std::collections::BTreeSet;

pub(crate) type Members = BTreeSet<JsonProperty>;

/// Appends the object of these members to a text.
pub(crate) fn with_object(text: Blob, members: Members) -> Result<Blob, AllocError>
    ensures { IfOk result (λ t. t ≡ text ++ kept_object members.keys) }
{
    let mut whole = text;
    whole.append(b"{")?;
    let mut later = false;
    for member in members {
        append_comma(&mut whole, later)?;
        whole = with_member(whole, member)?;
        later = true;
    }
    whole.append(b"}")?;
    Ok(whole)
}

/// Appends a comma, if it follows another member.
fn append_comma(out: &mut Blob, later: bool) -> Result<(), AllocError>
    ensures { OnOk result (out.new ≡ out.old ++ comma_if later) }
{
    if later {
        out.append(b",")?;
    }
    Ok(())
}

fn with_member(text: Blob, member: JsonProperty) -> Result<Blob, AllocError>
    ensures { IfOk result (λ t. t ≡ text ++ kept_text member) }
{
    let mut whole = text;
    whole.append(member.key.as_slice())?;
    whole.append(b":")?;
    let whole = whole.join(member.value)?;
    Ok(whole)
}
