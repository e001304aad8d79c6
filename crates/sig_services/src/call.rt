// A call to Rekor: a request, and the meaning of its answer.
ghost use Rattle.std.specs.Prelude.{◌≡◌, IfOk};
ghost use Rattle.serde_json.specs.View.{view};
ghost use Rattle.oci_protocol.specs.Runs.{Meets};
ghost use Rattle.json_values.specs.Refusals.{Matches};
ghost use Rattle.sig_services.specs.Error.{is_memory};
ghost use Rattle.sig_services.specs.Call.{is_refusal, entity_in, judged, call, IsCompact};

use crate::body::Body;
use crate::configuration::Configuration;
use crate::entities::Entity;
use crate::error::{Error, ResponseContent};
use crate::exchange::{Refusal, exchange};
use crate::request::request_of;
use json_tables::read_plain_json;
use json_values::Blob;
use oci_transport::{Answer, Method, Transport};
use serde_json::Value;
use std::alloc::{AllocError, Global};

impl<E> Refusal for Error<E> {
    ghost use Rattle.std.specs.Prelude.{refl};
    ghost use Rattle.sig_services.specs.declared.error.Error.TheVariants as refusal;

    ghost link = { refusal.Link };

    ghost too_long = { refusal.BodyTooLong };

    ghost memory = { refusal.WantOfMemory };

    ghost is_memory = { is_memory };

    ghost not_link = { refl };

    ghost not_long = { refl };

    ghost of_memory = { refl };

    fn link() -> Error<E> {
        Error::Link
    }

    fn too_long() -> Error<E> {
        Error::BodyTooLong
    }

    fn memory() -> Error<E> {
        Error::WantOfMemory
    }
}

// Returns whether the status is 4xx or 5xx (RFC 9110, 15.5 and 15.6).
fn is_refusal(status: u16) -> bool
    ensures { result ≡ is_refusal status }
{
    400 <= status && status < 600
}

fn entity_in<E: Entity>(alloc: Global, body: &[u8]) -> Result<Option<E>, AllocError>
    ensures { IfOk result (λ found. found ≡ entity_in E.entity body.now) }
{
    match read_plain_json(alloc, body)? {
        Some(json) => {
            let entity = E::from_json(alloc, json)?;
            Ok(Some(entity))
        }
        None => Ok(None),
    }
}

fn judged<X: Body, E: Entity>(alloc: Global, answer: Answer) -> Result<X, Error<E>>
    ensures { Matches is_memory result (judged X.body E.entity answer) }
{
    let Answer { status, body, .. } = answer;
    if is_refusal(status) {
        let entity = entity_in::<E>(alloc, body.as_slice())?;
        return Err(Error::ResponseError(ResponseContent {
            status,
            content: body,
            entity,
        }));
    }
    match X::from_body(alloc, body.as_slice())? {
        Some(found) => Ok(found),
        None => Err(Error::Json(body)),
    }
}

/// Returns the compact text of a JSON value.
pub(crate) fn compact(alloc: Global, value: &Value) -> Result<Blob, AllocError>
    ensures { IfOk result (λ text. IsCompact text (view value.now)) }
{
    let text = value.to_vec(alloc)?;
    Ok(Blob::from_vec(text))
}

/// Performs a call: sends the request with this method, this path, and this JSON text if one is given, and parses the
/// answer.
#[tactic(none)]
pub(crate) fn call<T: Transport, X: Body, E: Entity>(
    alloc: Global,
    transport: &mut T,
    configuration: &Configuration,
    method: Method,
    path: &str,
    content: Option<Blob>,
) -> Result<X, Error<E>>
    ensures { (k : Unit {0}) → Meets is_memory
        (call X.body E.entity configuration.now method path.now content)
        (T.state transport.old) (T.state transport.new) k k result }
{
    let request = request_of(alloc, configuration, method, path, content)?;
    let limit = configuration.max_body_bytes;
    let answer = exchange::<T, Error<E>>(alloc, transport, limit, &request)?;
    let found = judged(alloc, answer)?;
    Ok(found)
}
