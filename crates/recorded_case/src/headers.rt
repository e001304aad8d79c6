// The headers of a recorded answer.
ghost use Rattle.std.specs.Prelude.{codes};
ghost use Rattle.std.specs.FinMap.{empty};
ghost use Rattle.serde_json.specs.View.{view};
ghost use Rattle.json_tables.specs.Outcomes.{ReadsTo};
ghost use Rattle.json_tables.specs.Member.{at_name};
ghost use Rattle.recorded_case.specs.Answer.{headers_of};
ghost use Rattle.recorded_case.specs.Members.{unless_absent};

use json_tables::{ReadError, Reads};
use json_values::{List, Text};
use oci_transport::{Headers, headers_from};
use serde_json::Value;
use std::alloc::Global;

/// Reads the headers, a list of pairs of a name and a string; none if the member is absent.
pub fn read_headers(alloc: Global, value: &Value) -> Result<Headers, ReadError>
    ensures { ReadsTo result (at_name (unless_absent empty headers_of) (codes "headers") (view value.now)) }
{
    let Some(headers) = value.get("headers") else {
        return Ok(Headers::new(alloc));
    };
    let pairs: List<(Text, Text)> = Reads::read_value(alloc, headers)?;
    match headers_from(alloc, pairs.as_slice())? {
        Some(headers) => Ok(headers),
        None => Err(ReadError::Shape),
    }
}
