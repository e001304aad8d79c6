// Builds requests without a body.
ghost use Rattle.std.specs.Prelude.{◌≡◌, ◌++◌, flat_map, IfOk, OnOk, IsTrue, option_copied, Ok};
ghost use Rattle.http_header.specs.FieldName.{is_header_name};
ghost use Rattle.json_values.specs.Refusals.{Matches};
ghost use Rattle.engine_terms.specs.Error.{is_memory};
ghost use Rattle.engine_requests.specs.Requests.{behind, listed, with_header, with_accept};
ghost use Rattle.engine_requests.specs.Requests.{with_token, headers_of, request_of};

use engine_terms::{GenericCause, OciDistributionError, Settings};
use json_values::{Blob, Copied, Text};
use oci_auth::RegistryTokenType;
use oci_transport::{Headers, Method, Request};
use std::alloc::{AllocError, Global};
use url::Url;

/// The types of manifests and indexes that the client understands, as the header `accept` lists them.
pub const MANIFEST_TYPES: &str = "application/vnd.docker.distribution.manifest.v2+json, \
    application/vnd.docker.distribution.manifest.list.v2+json, \
    application/vnd.oci.image.manifest.v1+json, \
    application/vnd.oci.image.index.v1+json";

// Appends further media types, each after a comma.
fn push_others(text: &mut Text, others: &[Text]) -> Result<(), AllocError>
    ensures { OnOk result (text.new ≡ text.old ++ flat_map behind others.now) }
{
    for kind in others {
        text.push_str(", ")?;
        text.push_str(kind.as_str())?;
    }
    Ok(())
}

/// Returns several media types as one header lists them.
pub fn listed(alloc: Global, types: &[Text]) -> Result<Text, AllocError>
    ensures { IfOk result (λ text. text ≡ listed types.now) }
{
    let Some((first, others)) = types.split_first() else {
        return Text::new(alloc, "");
    };
    let mut text = first.copy(alloc)?;
    push_others(&mut text, others)?;
    Ok(text)
}

/// Returns the headers with one more field, or `GenericError(HeaderText)` if the value is not a valid header value (RFC
/// 9110, 5.5) or there are already 1000 fields.
pub fn with_header(
    headers: Headers,
    name: &str,
    value: &str,
) -> Result<Headers, OciDistributionError>
    requires { IsTrue (is_header_name name.now) }
    ensures { Matches is_memory result (with_header headers name.now value.now) }
{
    match oci_transport::with_header(headers, name, value.as_bytes())? {
        Some(headers) => Ok(headers),
        None => Err(OciDistributionError::GenericError(GenericCause::HeaderText)),
    }
}

fn with_accept(headers: Headers, types: Option<&str>) -> Result<Headers, OciDistributionError>
    ensures { Matches is_memory result (with_accept (option_copied types.entry) headers) }
{
    match types {
        Some(types) => with_header(headers, "accept", types),
        None => Ok(headers),
    }
}

fn with_token(
    alloc: Global,
    headers: Headers,
    token: &Option<RegistryTokenType>,
) -> Result<Headers, OciDistributionError>
    ensures { Matches is_memory result (with_token token.now headers) }
{
    match token {
        Some(token) => {
            let value = token.authorization(alloc)?;
            let headers = with_header(headers, "authorization", value.as_str())?;
            Ok(headers)
        }
        None => Ok(headers),
    }
}

fn headers_of(
    alloc: Global,
    settings: &Settings,
    types: Option<&str>,
    token: &Option<RegistryTokenType>,
) -> Result<Headers, OciDistributionError>
    ensures { Matches is_memory result (headers_of settings.now (option_copied types.entry) token.now) }
{
    let headers = with_header(
        Headers::new(alloc),
        "user-agent",
        settings.user_agent.as_str(),
    )?;
    let headers = with_accept(headers, types)?;
    let headers = with_token(alloc, headers, token)?;
    Ok(headers)
}

/// Returns a request without a body, for these media types if any are given, with this token if there is one.
#[tactic(auto, unfolding(crate::specs::Requests::request_of))]
pub fn request_of(
    alloc: Global,
    settings: &Settings,
    method: Method,
    url: &Url,
    types: Option<&str>,
    token: &Option<RegistryTokenType>,
) -> Result<Request, OciDistributionError>
    ensures { Matches is_memory result (request_of settings.now method url.now (option_copied types.entry) token.now) }
{
    let headers = headers_of(alloc, settings, types, token)?;
    let url = Text::new(alloc, url.as_str())?;
    Ok(Request {
        method,
        url,
        headers,
        body: Blob::empty(alloc),
    })
}
