// The calls of the registry's client, with their errors converted to the errors of the calls here.
ghost use Rattle.std.specs.Prelude.{Some, None, IfOk, IsTrue, option_copied};
ghost use Rattle.engine_terms.specs.declared.settings.Settings.{Settings};
ghost use Rattle.engine_terms.specs.Contexts.{within};
ghost use Rattle.engine_requests.specs.Requests.{listed};
ghost use Rattle.engine_requests.specs.Sources.{described};
ghost use Rattle.registry_calls.specs.Calls.{digest_made, manifest_made, image_made, document_made, blob_made};
ghost use Rattle.registry_calls.specs.Calls.{referrers_made, push_made};
ghost use Rattle.sig_registry.specs.States.{PlainlyMade, engine_state};
ghost use Rattle.registry_calls.specs.Confinement.{StaysConfined, StaysForPush, StaysWithTag};
ghost use Rattle.registry_calls.specs.Error.{FaultCounted, NoSinkFault, registry_refusal};
ghost use Rattle.registry_calls.specs.Named.{is_named};

use json_values::{Blob, Text};
use oci_auth::{RegistryAuth, RegistryOperation};
use oci_engine::{Client, ImageData, PushResponse};
use oci_manifests::blob::Config;
use oci_manifests::{ImageLayer, OciDescriptor, OciImageIndex, OciImageManifest, OciManifest};
use oci_names::Reference;
use oci_transport::Transport;
use registry_calls::{Called, SigstoreError, with_error_context};
use std::alloc::Global;

/// Returns the digest of the image's manifest or index.
pub(crate) fn digest_made<T: Transport>(
    client: &mut Client,
    alloc: Global,
    transport: &mut T,
    moment: u64,
    image: &Reference,
    auth: &RegistryAuth,
) -> Result<Text, SigstoreError>
    ensures run { (s : Settings) → PlainlyMade s (digest_made (within s moment) image.now auth.now)
        client.old client.new
        (T.state transport.old) (T.state transport.new) result }
    ensures fault { FaultCounted registry_refusal (T.state transport.old) (T.state transport.new) result }
    ensures no_sink_fault { NoSinkFault registry_refusal result }
    ensures confined { StaysConfined (engine_state client.old None) (engine_state client.new None) moment image.now
        (Some auth.now) (T.state transport.old) (T.state transport.new) }
{
    let outcome = client.fetch_manifest_digest(alloc, transport, moment, image, auth);
    with_error_context(alloc, Called::FetchManifest, image, outcome)
}

/// Returns the image with its blobs.
pub(crate) fn image_made<T: Transport>(
    client: &mut Client,
    alloc: Global,
    transport: &mut T,
    moment: u64,
    image: &Reference,
    auth: &RegistryAuth,
    accepted_media_types: &[Text],
) -> Result<ImageData, SigstoreError>
    ensures run { (s : Settings) → PlainlyMade s
        (image_made (within s moment) image.now auth.now accepted_media_types.now) client.old client.new
        (T.state transport.old) (T.state transport.new) result }
    ensures fault { FaultCounted registry_refusal (T.state transport.old) (T.state transport.new) result }
    ensures no_sink_fault { NoSinkFault registry_refusal result }
    ensures confined { StaysConfined (engine_state client.old None) (engine_state client.new None) moment image.now
        (Some auth.now) (T.state transport.old) (T.state transport.new) }
    ensures named { IfOk result (λ image. IsTrue (is_named image)) }
{
    let outcome = client.pull(alloc, transport, moment, image, auth, accepted_media_types);
    with_error_context(alloc, Called::Pull, image, outcome)
}

/// Returns the image's manifest or index with its digest.
pub(crate) fn manifest_made<T: Transport>(
    client: &mut Client,
    alloc: Global,
    transport: &mut T,
    moment: u64,
    image: &Reference,
    auth: &RegistryAuth,
) -> Result<(OciManifest, Text), SigstoreError>
    ensures run { (s : Settings) → PlainlyMade s (manifest_made (within s moment) image.now auth.now)
        client.old client.new
        (T.state transport.old) (T.state transport.new) result }
    ensures fault { FaultCounted registry_refusal (T.state transport.old) (T.state transport.new) result }
    ensures no_sink_fault { NoSinkFault registry_refusal result }
    ensures confined { StaysConfined (engine_state client.old None) (engine_state client.new None) moment image.now
        (Some auth.now) (T.state transport.old) (T.state transport.new) }
{
    let outcome = client.pull_manifest(alloc, transport, moment, image, auth);
    with_error_context(alloc, Called::PullManifest, image, outcome)
}

/// Pushes an image.
pub(crate) fn push_made<T: Transport>(
    client: &mut Client,
    alloc: Global,
    transport: &mut T,
    moment: u64,
    image: &Reference,
    layers: &[ImageLayer],
    config: Config,
    auth: &RegistryAuth,
    manifest: Option<OciImageManifest>,
) -> Result<PushResponse, SigstoreError>
    ensures run { (s : Settings) → PlainlyMade s
        (push_made (within s moment) image.now layers.now config auth.now manifest) client.old client.new
        (T.state transport.old) (T.state transport.new) result }
    ensures fault { FaultCounted registry_refusal (T.state transport.old) (T.state transport.new) result }
    ensures no_sink_fault { NoSinkFault registry_refusal result }
    ensures confined { StaysForPush (engine_state client.old None) (engine_state client.new None) moment image.now
        (Some auth.now) (T.state transport.old) (T.state transport.new) }
{
    let outcome = client.push(
        alloc, transport, moment, image, layers, config, auth, manifest,
    );
    with_error_context(alloc, Called::Push, image, outcome)
}

/// Returns the index of the image digest's referrers; a token is obtained first.
pub(crate) fn referrers_made<T: Transport>(
    client: &mut Client,
    alloc: Global,
    transport: &mut T,
    moment: u64,
    image: &Reference,
    auth: &RegistryAuth,
    artifact_type: Option<&str>,
) -> Result<OciImageIndex, SigstoreError>
    ensures run { (s : Settings) → PlainlyMade s
        (referrers_made (within s moment) image.now auth.now (option_copied artifact_type.entry)) client.old client.new
        (T.state transport.old) (T.state transport.new) result }
    ensures fault { FaultCounted registry_refusal (T.state transport.old) (T.state transport.new) result }
    ensures no_sink_fault { NoSinkFault registry_refusal result }
    ensures confined { StaysWithTag (engine_state client.old None) (engine_state client.new None) moment image.now
        (Some auth.now) (T.state transport.old) (T.state transport.new) }
{
    let given = client.auth(
        alloc,
        transport,
        moment,
        image,
        auth,
        RegistryOperation::Pull,
    );
    let _token = with_error_context(alloc, Called::FetchManifest, image, given)?;
    let outcome = client.pull_referrers(alloc, transport, moment, image, artifact_type);
    with_error_context(alloc, Called::PullManifest, image, outcome)
}

/// Returns the bytes of the image's manifest or index with their digest.
pub(crate) fn document_made<T: Transport>(
    client: &mut Client,
    alloc: Global,
    transport: &mut T,
    moment: u64,
    image: &Reference,
    auth: &RegistryAuth,
    accepted_media_types: &[Text],
) -> Result<(Blob, Text), SigstoreError>
    ensures run { (s : Settings) → PlainlyMade s
        (document_made (within s moment) image.now auth.now (listed accepted_media_types.now)) client.old client.new
        (T.state transport.old) (T.state transport.new) result }
    ensures fault { FaultCounted registry_refusal (T.state transport.old) (T.state transport.new) result }
    ensures no_sink_fault { NoSinkFault registry_refusal result }
    ensures confined { StaysConfined (engine_state client.old None) (engine_state client.new None) moment image.now
        (Some auth.now) (T.state transport.old) (T.state transport.new) }
{
    let outcome = client.pull_manifest_raw(
        alloc,
        transport,
        moment,
        image,
        auth,
        accepted_media_types,
    );
    with_error_context(alloc, Called::Pull, image, outcome)
}

/// Returns the bytes of a descriptor's blob.
pub(crate) fn blob_made<T: Transport>(
    client: &mut Client,
    alloc: Global,
    transport: &mut T,
    moment: u64,
    image: &Reference,
    layer: &OciDescriptor,
) -> Result<Blob, SigstoreError>
    ensures run { (s : Settings) → PlainlyMade s (blob_made (within s moment) image.now (described layer.now))
        client.old client.new
        (T.state transport.old) (T.state transport.new) result }
    ensures fault { FaultCounted registry_refusal (T.state transport.old) (T.state transport.new) result }
    ensures no_sink_fault { NoSinkFault registry_refusal result }
    ensures confined { StaysConfined (engine_state client.old None) (engine_state client.new None) moment image.now None
        (T.state transport.old) (T.state transport.new) }
{
    let outcome = client.pulled_blob(alloc, transport, moment, image, layer);
    with_error_context(alloc, Called::Pull, image, outcome)
}
