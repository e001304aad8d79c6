// One blob, with a token that was obtained before.
ghost use Rattle.std.specs.Prelude.{◌≡◌, Some, IfOk};
ghost use Rattle.json_values.specs.Refusals.{Matches};
ghost use Rattle.url.specs.Parts.{serialize};
ghost use Rattle.oci_auth.specs.declared.auth_state.AuthState.{AuthState};
ghost use Rattle.oci_transport.specs.Urls.{request_url};
ghost use Rattle.oci_transport.specs.declared.message.Method.TheVariants.{Get as by_get};
ghost use Rattle.engine_terms.specs.Error.{is_memory};
ghost use Rattle.engine_requests.specs.Requests.{request_of, manifest_types};
ghost use Rattle.engine_requests.specs.Sources.{described, places_of};
ghost use Rattle.engine_rows.specs.Blobs.{MeetsIntoSink};
ghost use Rattle.engine_rows.specs.Rows.{goes_to};
ghost use Rattle.call_laws.specs.Blobs.{sent_token, blob_with};
ghost use Rattle.call_laws.specs.Cut.{size_of, cut_at};
ghost use Rattle.image_blobs.specs.Taken.{AddsWithin};

use crate::attempts::{attempt, offer};
use byte_streams::Sink;
use engine_requests::{MANIFEST_TYPES, asked_at, blob_url, place_of, request_of};
use engine_terms::{Call, OciDistributionError, Settings};
use json_values::Text;
use oci_auth::RegistryTokenType;
use oci_manifests::OciDescriptor;
use oci_transport::{Method, Request, Transport, UrlError, request_url, targets};
use std::alloc::{AllocError, Global};
use url::Url;

/// How the registry is requested: its URL, and the token of requests to it.
#[derive(Clone, Copy)]
pub struct Access<'a> {
    pub registry: &'a Url,
    pub token: &'a Option<RegistryTokenType>,
}

// Whether the URL, as a request has its text, is at the registry.
fn goes_to(alloc: Global, url: &Url, registry: &Url) -> Result<bool, AllocError>
    ensures { IfOk result (λ goes. goes ≡ goes_to (request_url (serialize url.now)) registry.now) }
{
    match request_url(alloc, url.as_str()) {
        Ok(url) => Ok(targets(&url, registry)),
        Err(UrlError::Refused) => Ok(false),
        Err(UrlError::WantOfMemory) => Err(AllocError),
    }
}

// Returns the request for this URL, which contains the token if it goes to the registry.
fn request_with(
    alloc: Global,
    settings: &Settings,
    access: &Access,
    url: &Url,
) -> Result<Request, OciDistributionError>
    ensures { Matches is_memory result (request_of settings.now by_get url.now (Some manifest_types)
        (sent_token access.now.registry.now access.now.token.now url.now)) }
{
    let types = Some(MANIFEST_TYPES);
    let goes = goes_to(alloc, url, access.registry)?;
    if goes {
        let request = request_of(alloc, settings, Method::Get, url, types, access.token)?;
        return Ok(request);
    }
    let request = request_of(alloc, settings, Method::Get, url, types, &None)?;
    Ok(request)
}

// What a descriptor states about a blob: its size in bytes, and its digest.
#[derive(Clone, Copy)]
struct Stated<'a> {
    size: u64,
    digest: &'a str,
}

// Sends the request and, while the status is 4xx or 5xx, requests the places that the URLs name, in order.
fn cut_at<T: Transport, K: Sink>(
    alloc: Global,
    transport: &mut T,
    settings: &Settings,
    blob: &Stated,
    urls: &[Text],
    mut request: Request,
    out: &mut K,
) -> Result<(), OciDistributionError>
    ensures run { (k : AuthState)
        → MeetsIntoSink (cut_at settings.now blob.now.size blob.now.digest.now
        (places_of urls.now) request)
        (T.state transport.old) (T.state transport.new) k k (K.state out.old) (K.state out.new) result }
    ensures within { AddsWithin blob.now.size (K.state out.old) (K.state out.new) }
{
    for url in urls {
        let Some(place) = place_of(alloc, url.as_str())? else {
            continue;
        };
        let put = offer(
            alloc,
            transport,
            settings,
            blob.size,
            blob.digest,
            &request,
            out,
        )?;
        if put {
            return Ok(());
        }
        request = asked_at(alloc, settings, place)?;
    }
    attempt(
        alloc,
        transport,
        settings,
        blob.size,
        blob.digest,
        &request,
        out,
    )?;
    Ok(())
}

// Returns a descriptor's size in bytes; a negative one is 0.
fn size_of(x: &OciDescriptor) -> u64
    ensures { result ≡ size_of x.now }
{
    if x.size < 0 {
        return 0;
    }
    x.size as u64
}

// Returns the URLs that a descriptor lists.
fn urls_of(x: &OciDescriptor) -> &[Text]
    ensures { result.now ≡ (described x.now).urls }
{
    match &x.urls {
        Some(urls) => urls.as_slice(),
        None => &[],
    }
}

/// Writes the bytes of a descriptor's blob to a sink, piece by piece as they are received, and at most as many as the
/// descriptor states. The blob is requested from the registry and, while the status is 4xx or 5xx, from the URLs of the
/// descriptor, in order and without credentials. After a refusal the sink took a prefix of the last response's body,
/// whose status is 2xx, or nothing; in any case at most as many bytes as the descriptor states.
pub fn blob_with<T: Transport, K: Sink>(
    alloc: Global,
    transport: &mut T,
    call: &Call,
    access: &Access,
    x: &OciDescriptor,
    out: &mut K,
) -> Result<(), OciDistributionError>
    ensures run { (k : AuthState) → MeetsIntoSink (blob_with call.now.settings.now call.now.image.now
        access.now.registry.now access.now.token.now x.now) (T.state transport.old) (T.state transport.new) k k
        (K.state out.old) (K.state out.new) result }
    ensures within { AddsWithin (size_of x.now) (K.state out.old) (K.state out.new) }
{
    let blob = Stated {
        size: size_of(x),
        digest: x.digest.as_str(),
    };
    let url = blob_url(alloc, call.settings, call.image, blob.digest)?;
    let request = request_with(alloc, call.settings, access, &url)?;
    let urls = urls_of(x);
    cut_at(alloc, transport, call.settings, &blob, urls, request, out)?;
    Ok(())
}
