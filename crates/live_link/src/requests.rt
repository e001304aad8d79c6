// Builds the objects of the frames that are sent.
ghost use Rattle.std.specs.Prelude.{◌≡◌, ◌++◌, IfOk, OnOk, ⊤, map};
ghost use Rattle.base64.specs.Engines.{standard};
ghost use Rattle.base64.specs.GeneralPurpose.{encode_of};
ghost use Rattle.serde_json.specs.View.{view, items_view, items_of};
ghost use Rattle.live_link.specs.Requests.{request_data, more_data, method_name, value_data, header_data};
ghost use Rattle.live_link.specs.Requests.{values_data, headers_data, size_data};

use base64::engine::general_purpose::STANDARD;
use json_tables::{Field, object};
use json_values::{Json, Text};
use oci_transport::{Headers, Method, Request, header_text};
use serde_json::{Map, Value};
use std::alloc::{AllocError, Global};

/// Returns the object of a request's frame.
#[tactic(auto, unfolding(crate::specs::Requests::request_data))]
pub(crate) fn request_object(alloc: Global, request: &Request) -> Result<Json, AllocError>
    ensures exact { IfOk result (λ object. object ≡ request_data request.now) }
{
    let headers = Json::new(Value::Array(headers_values(alloc, &request.headers)?));
    let value = object!(alloc, {
        "frame": &"request",
        "method": &method_name(request.method),
        "url": &request.url,
        "headers": &headers,
        "bytes": &Size(request.body.as_slice().len()),
    })?;
    Ok(Json::new(value))
}

/// Returns the object that requests the next piece.
pub(crate) fn more_object(alloc: Global) -> Result<Json, AllocError>
    ensures exact { IfOk result (λ object. object ≡ more_data) }
{
    let value = object!(alloc, { "frame": &"more" })?;
    Ok(Json::new(value))
}

fn method_name(method: Method) -> &'static str
    ensures { result.now ≡ method_name method }
{
    match method {
        Method::Get => "GET",
        Method::Head => "HEAD",
        Method::Post => "POST",
        Method::Put => "PUT",
        Method::Patch => "PATCH",
    }
}

// The size of a body as a member, which is absent for an empty body.
#[derive(Drop)]
struct Size(usize);

impl Field for Size {
    ghost field = { λ size. size_data size.0 };

    ghost Known = { λ _. ⊤ };

    fn put_in(
        &self,
        alloc: Global,
        members: &mut Map<String, Value>,
        name: &str,
    ) -> Result<(), AllocError> {
        if self.0 == 0 {
            return Ok(());
        }
        Json::new(Value::from(self.0 as u64)).put_in(alloc, members, name)
    }
}

// Returns each name with each of its values.
fn headers_values(alloc: Global, headers: &Headers) -> Result<Vec<Value>, AllocError>
    ensures { IfOk result (λ values. map view values.items ≡ headers_data headers.now) }
{
    let mut values = Vec::new(alloc);
    let mut place: usize = 0;
    while let Some(name) = headers.name_at(place) {
        add_values(alloc, &mut values, headers, name)?;
        let Some(next) = place.checked_add(1) else {
            return Err(AllocError);
        };
        place = next;
    }
    Ok(values)
}

// Adds this name with each of its values.
fn add_values(
    alloc: Global,
    values: &mut Vec<Value>,
    headers: &Headers,
    name: &str,
) -> Result<(), AllocError>
    ensures { OnOk result (map view values.new.items ≡ map view values.old.items ++ values_data headers.now name.now) }
{
    let mut place: usize = 0;
    while let Some(value) = headers.value_at(name, place) {
        values.push(header_value(alloc, name, value)?)?;
        let Some(next) = place.checked_add(1) else {
            return Err(AllocError);
        };
        place = next;
    }
    Ok(())
}

fn header_value(alloc: Global, name: &str, value: &[u8]) -> Result<Value, AllocError>
    ensures { IfOk result (λ pair. view pair ≡ header_data (name.now, value.now)) }
{
    let mut pair = Vec::new(alloc);
    pair.push(Value::String(String::from_str(alloc, name)?))?;
    pair.push(value_value(alloc, value)?)?;
    Ok(Value::Array(pair))
}

// Returns a string if the value is visible ASCII, else its base64.
fn value_value(alloc: Global, value: &[u8]) -> Result<Value, AllocError>
    ensures { IfOk result (λ written. view written ≡ value_data value.now) }
{
    if let Some(text) = header_text(value) {
        return Ok(Value::String(String::from_str(alloc, text)?));
    }
    let coded = STANDARD.encode(alloc, value)?;
    let coded = Text::new(alloc, coded.as_str())?;
    object!(alloc, { "base64": &coded })
}
