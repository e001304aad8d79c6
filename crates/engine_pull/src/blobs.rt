// Pulls blobs, into a sink or into memory.
ghost use Rattle.oci_auth.specs.declared.auth_state.AuthState.{AuthState};
ghost use Rattle.oci_protocol.specs.Runs.{Meets};
ghost use Rattle.engine_terms.specs.Contexts.{context_of};
ghost use Rattle.engine_terms.specs.Error.{is_memory};
ghost use Rattle.engine_requests.specs.Sources.{layer_in, places_of};
ghost use Rattle.engine_rows.specs.Blobs.{IntoSink, IntoMemory, MeetsIntoSink};
ghost use Rattle.engine_rows.specs.Offers.{tried};
ghost use Rattle.engine_rows.specs.Pulls.{pull_blob, held_blob};

use crate::attempts::{attempt, held, held_offer, offer};
use byte_streams::Sink;
use engine_requests::{LayerDescriptor, MANIFEST_TYPES, asked_at, blob_url, place_of};
use engine_steps::{Target, prepared};
use engine_terms::{Call, OciDistributionError, Settings};
use json_values::{Blob, Text};
use oci_auth::{AuthState, RegistryOperation};
use oci_transport::{Method, Request, Transport};
use std::alloc::Global;

// Sends the request and, while the status is 4xx or 5xx, requests the places that the URLs name, in order.
fn tried<T: Transport, K: Sink>(
    alloc: Global,
    transport: &mut T,
    settings: &Settings,
    digest: &str,
    urls: &[Text],
    mut request: Request,
    out: &mut K,
) -> Result<(), OciDistributionError>
    ensures { (k : AuthState) → MeetsIntoSink (tried IntoSink settings.now digest.now (places_of urls.now) request)
        (T.state transport.old) (T.state transport.new) k k (K.state out.old) (K.state out.new) result }
{
    for url in urls {
        let Some(place) = place_of(alloc, url.as_str())? else {
            continue;
        };
        let limit = settings.max_body_bytes;
        let put = offer(alloc, transport, limit, digest, &request, out)?;
        if put {
            return Ok(());
        }
        request = asked_at(alloc, settings, place)?;
    }
    let limit = settings.max_body_bytes;
    attempt(alloc, transport, limit, digest, &request, out)?;
    Ok(())
}

// The same, with the bytes held in memory.
fn held_tried<T: Transport>(
    alloc: Global,
    transport: &mut T,
    settings: &Settings,
    digest: &str,
    urls: &[Text],
    mut request: Request,
) -> Result<Blob, OciDistributionError>
    ensures { (k : AuthState) → Meets is_memory (tried IntoMemory settings.now digest.now (places_of urls.now) request)
        (T.state transport.old) (T.state transport.new) k k result }
{
    for url in urls {
        let Some(place) = place_of(alloc, url.as_str())? else {
            continue;
        };
        let limit = settings.max_body_bytes;
        let found = held_offer(alloc, transport, limit, digest, &request)?;
        if let Some(bytes) = found {
            return Ok(bytes);
        }
        request = asked_at(alloc, settings, place)?;
    }
    let limit = settings.max_body_bytes;
    let bytes = held(alloc, transport, limit, digest, &request)?;
    Ok(bytes)
}

/// Writes the bytes of a blob to a sink, piece by piece as they are received. The blob is requested from the registry
/// and, while the status is 4xx or 5xx, from the URLs of its descriptor, in order and without credentials. After a
/// refusal the sink holds a prefix of the last response's body, whose status is 2xx, or nothing.
pub fn pull_blob<T: Transport, K: Sink>(
    alloc: Global,
    transport: &mut T,
    memory: &mut AuthState,
    call: &Call,
    layer: &LayerDescriptor,
    out: &mut K,
) -> Result<(), OciDistributionError>
    ensures { MeetsIntoSink (pull_blob (context_of call.now) call.now.image.now (layer_in layer.now))
        (T.state transport.old) (T.state transport.new) memory.old memory.new (K.state out.old)
        (K.state out.new) result }
{
    let url = blob_url(alloc, call.settings, call.image, layer.digest)?;
    let target = Target {
        method: Method::Get,
        url: &url,
    };
    let op = RegistryOperation::Pull;
    let request = prepared(alloc, transport, memory, call, op, &target, MANIFEST_TYPES)?;
    match layer.urls {
        Some(urls) => {
            tried(
                alloc,
                transport,
                call.settings,
                layer.digest,
                urls.as_slice(),
                request,
                out,
            )?;
            Ok(())
        }
        None => {
            let limit = call.settings.max_body_bytes;
            attempt(alloc, transport, limit, layer.digest, &request, out)?;
            Ok(())
        }
    }
}

/// Returns the bytes of a blob, requested from the same places. No sink is involved.
pub fn pulled_blob<T: Transport>(
    alloc: Global,
    transport: &mut T,
    memory: &mut AuthState,
    call: &Call,
    layer: &LayerDescriptor,
) -> Result<Blob, OciDistributionError>
    ensures { Meets is_memory (held_blob (context_of call.now) call.now.image.now (layer_in layer.now))
        (T.state transport.old) (T.state transport.new) memory.old memory.new result }
{
    let url = blob_url(alloc, call.settings, call.image, layer.digest)?;
    let target = Target {
        method: Method::Get,
        url: &url,
    };
    let op = RegistryOperation::Pull;
    let request = prepared(alloc, transport, memory, call, op, &target, MANIFEST_TYPES)?;
    match layer.urls {
        Some(urls) => {
            let urls = urls.as_slice();
            let bytes = held_tried(alloc, transport, call.settings, layer.digest, urls, request)?;
            Ok(bytes)
        }
        None => {
            let limit = call.settings.max_body_bytes;
            let bytes = held(alloc, transport, limit, layer.digest, &request)?;
            Ok(bytes)
        }
    }
}
