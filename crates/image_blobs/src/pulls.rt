// Pulls the blobs of an image, each into a sink of its own.
ghost use Rattle.std.specs.Prelude.{◌≡◌, ◌≤◌, [], ◌∷◌, length, None, MatchOption};
ghost use Rattle.oci_auth.specs.declared.auth_state.AuthState.{AuthState as AuthStateOf};
ghost use Rattle.oci_protocol.specs.Runs.{Told};
ghost use Rattle.engine_terms.specs.Contexts.{context_of};
ghost use Rattle.engine_rows.specs.Confined.{Within};
ghost use Rattle.engine_rows.specs.Held.{pulling};
ghost use Rattle.call_laws.specs.Blobs.{descriptors_of, range_of, kept_blob, each_blob, pull_blobs};
ghost use Rattle.image_blobs.specs.Taken.{IsAt, TookBlobs, MeetsIntoSinks, MeetsOne};
ghost use Rattle.image_blobs.specs.Taken.{RefusedFor, FaultCounted, SinksCounted, refusal_of};

use crate::blobs::{Access, blob_with};
use crate::sinks::Sinks;
use byte_streams::SinkError;
use engine_requests::registry_address;
use engine_steps::authorized;
use engine_terms::{Call, OciDistributionError};
use oci_auth::{AuthState, RegistryOperation};
use oci_manifests::{OciDescriptor, OciImageManifest};
use oci_transport::Transport;
use std::alloc::Global;

/// Some of an image's blobs: those from the index `first` up to the index `end`. The configuration has the index 0, and
/// the layers follow. An index without a blob is none.
#[derive(Clone, Copy)]
pub struct BlobRange {
    pub first: usize,
    pub end: usize,
}

fn refusal_of(error: SinkError) -> OciDistributionError
    ensures { result ≡ refusal_of error }
{
    match error {
        SinkError::Failed => OciDistributionError::SinkFault,
        SinkError::WantOfMemory => OciDistributionError::WantOfMemory,
    }
}

// Pulls a blob into a sink that is opened for it, and which is closed as having it or not.
#[tactic(none)]
fn kept_blob<T: Transport, S: Sinks>(
    alloc: Global,
    transport: &mut T,
    call: &Call,
    access: &Access,
    x: &OciDescriptor,
    sinks: &mut S,
) -> Result<(), OciDistributionError>
    ensures run { (k : AuthStateOf) → MeetsOne (kept_blob call.now.settings.now call.now.image.now
        access.now.registry.now access.now.token.now x.now) (T.state transport.old) (T.state transport.new) k result }
    ensures took { AuthStateOf → TookBlobs S.fresh (x.now ∷ []) (T.state transport.old) (T.state transport.new)
        (S.state sinks.old) (S.state sinks.new) result }
    ensures count { (S.state sinks.old).faults ≤ (S.state sinks.new).faults }
    ensures sink { AuthStateOf → SinksCounted (S.state sinks.old) (S.state sinks.new) result }
{
    let digest = x.digest.as_str();
    let mut sink = match sinks.open(alloc, digest) {
        Ok(sink) => sink,
        Err(error) => return Err(refusal_of(error)),
    };
    match blob_with(alloc, transport, call, access, x, &mut sink) {
        Ok(()) => match sinks.close(alloc, digest, sink, true) {
            Ok(()) => Ok(()),
            Err(error) => Err(refusal_of(error)),
        },
        Err(error) => {
            let _ = sinks.close(alloc, digest, sink, false);
            Err(error)
        }
    }
}

/// Returns the descriptor of the blob at this index: 0 is the configuration, and the layers follow. `None` if there is
/// none.
pub fn descriptor_at(manifest: &OciImageManifest, at: usize) -> Option<&OciDescriptor>
    ensures { MatchOption result (length (descriptors_of manifest.now) ≤ at)
        (λ x. IsAt (descriptors_of manifest.now) at x.now) }
{
    if at == 0 {
        return Some(&manifest.config);
    }
    let layers = manifest.layers.as_slice();
    if at > layers.len() {
        return None;
    }
    Some(&layers[at - 1])
}

// Pulls each blob of the range.
fn each_blob<T: Transport, S: Sinks>(
    alloc: Global,
    transport: &mut T,
    call: &Call,
    access: &Access,
    manifest: &OciImageManifest,
    range: BlobRange,
    sinks: &mut S,
) -> Result<(), OciDistributionError>
    ensures run { (k : AuthStateOf) → MeetsIntoSinks (each_blob call.now.settings.now call.now.image.now
        access.now.registry.now access.now.token.now
        (range_of range.first range.end (descriptors_of manifest.now)) []) (T.state transport.old)
        (T.state transport.new) k k result }
    ensures took { AuthStateOf → TookBlobs S.fresh (range_of range.first range.end (descriptors_of manifest.now))
        (T.state transport.old) (T.state transport.new) (S.state sinks.old) (S.state sinks.new) result }
    ensures count { (S.state sinks.old).faults ≤ (S.state sinks.new).faults }
    ensures sink { AuthStateOf → SinksCounted (S.state sinks.old) (S.state sinks.new) result }
{
    let mut at = range.first;
    while at < range.end {
        let Some(x) = descriptor_at(manifest, at) else {
            return Ok(());
        };
        kept_blob(alloc, transport, call, access, x, sinks)?;
        at += 1;
    }
    Ok(())
}

// Obtains the token, and pulls each blob of the range.
#[tactic(none)]
fn pulled<T: Transport, S: Sinks>(
    alloc: Global,
    transport: &mut T,
    memory: &mut AuthState,
    call: &Call,
    manifest: &OciImageManifest,
    range: BlobRange,
    sinks: &mut S,
) -> Result<(), OciDistributionError>
    ensures run { MeetsIntoSinks (pull_blobs (context_of call.now) call.now.image.now
        (range_of range.first range.end (descriptors_of manifest.now))) (T.state transport.old)
        (T.state transport.new) memory.old memory.new result }
    ensures took { TookBlobs S.fresh (range_of range.first range.end (descriptors_of manifest.now))
        (T.state transport.old) (T.state transport.new) (S.state sinks.old) (S.state sinks.new) result }
    ensures causes { RefusedFor memory.old (context_of call.now) call.now.image.now
        (range_of range.first range.end (descriptors_of manifest.now)) (T.state transport.old) (T.state transport.new)
        result }
    ensures count { (S.state sinks.old).faults ≤ (S.state sinks.new).faults }
    ensures sink { SinksCounted (S.state sinks.old) (S.state sinks.new) result }
{
    if range.end <= range.first {
        return Ok(());
    }
    let Some(_) = descriptor_at(manifest, range.first) else {
        return Ok(());
    };
    let registry = registry_address(alloc, call.settings, call.image)?;
    let op = RegistryOperation::Pull;
    let token = authorized(alloc, transport, memory, call, op, &registry)?;
    let access = Access {
        registry: &registry,
        token: &token,
    };
    each_blob(alloc, transport, call, &access, manifest, range, sinks)?;
    Ok(())
}

/// Pulls the blobs of a range of an image's descriptors, in order, each into a sink that `sinks` opens for it: by its
/// digest, from the image's registry and, while the status is 4xx or 5xx, from the URLs of its descriptor, and at most
/// as many bytes as its descriptor states. The token of the requests to the registry is obtained once, before the first
/// blob; after a refusal for it (`UnauthorizedError`), obtain another one and call again for the blobs that are left.
#[tactic(none)]
pub fn pull_blobs<T: Transport, S: Sinks>(
    alloc: Global,
    transport: &mut T,
    memory: &mut AuthState,
    call: &Call,
    manifest: &OciImageManifest,
    range: BlobRange,
    sinks: &mut S,
) -> Result<(), OciDistributionError>
    ensures run { MeetsIntoSinks (pull_blobs (context_of call.now) call.now.image.now
        (range_of range.first range.end (descriptors_of manifest.now))) (T.state transport.old)
        (T.state transport.new) memory.old memory.new result }
    ensures confined { Told (Within (pulling memory.old (context_of call.now) call.now.image.now None)
        call.now.settings.now memory.new) (T.state transport.old) (T.state transport.new) }
    ensures blobs { TookBlobs S.fresh (range_of range.first range.end (descriptors_of manifest.now))
        (T.state transport.old) (T.state transport.new) (S.state sinks.old) (S.state sinks.new) result }
    ensures causes { RefusedFor memory.old (context_of call.now) call.now.image.now
        (range_of range.first range.end (descriptors_of manifest.now)) (T.state transport.old) (T.state transport.new)
        result }
    ensures fault { FaultCounted (T.state transport.old) (T.state transport.new) result }
    ensures count { (S.state sinks.old).faults ≤ (S.state sinks.new).faults }
    ensures sink { SinksCounted (S.state sinks.old) (S.state sinks.new) result }
{
    pulled(alloc, transport, memory, call, manifest, range, sinks)
}
