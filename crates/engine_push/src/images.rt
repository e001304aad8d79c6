// Pushes whole images.
ghost use Rattle.std.specs.Prelude.{◌≡◌, IfOk, map};
ghost use Rattle.oci_protocol.specs.Runs.{Meets};
ghost use Rattle.engine_terms.specs.Contexts.{context_of};
ghost use Rattle.engine_terms.specs.Error.{is_memory};
ghost use Rattle.push_rows.specs.Images.{digest_of_layer, digest_of_entry, manifest_for, digests_for};
ghost use Rattle.push_rows.specs.Images.{layers_pushed, image_pushed, push};
ghost use Rattle.engine_push.specs.Plans.{IsPlan};
ghost use Rattle.oci_manifests.specs.declared.manifest.OciImageManifest.{OciImageManifest};

use crate::manifests::push_written;
use crate::push_blob;
use crate::written::{Written, write_image};
use engine_terms::{Call, OciDistributionError};
use json_values::{Copied, List, Text};
use oci_auth::{AuthState, RegistryAuth, store};
use oci_docs::blob::Config;
use oci_docs::{ImageLayer, OciDescriptor, OciImageManifest};
use oci_transport::Transport;
use push_rows::PushResponse;
use std::alloc::{AllocError, Global};

/// An image to push: its layers, its configuration, and its manifest unless that is to be built from them.
#[derive(Drop)]
pub struct PushedImage<'a> {
    pub layers: &'a [ImageLayer],
    pub config: &'a Config,
    pub manifest: Option<OciImageManifest>,
}

fn manifest_for(
    alloc: Global,
    given: Option<OciImageManifest>,
    layers: &[ImageLayer],
    config: &Config,
) -> Result<OciImageManifest, AllocError>
    ensures { IfOk result (λ manifest. manifest ≡ manifest_for given layers.now config.now) }
{
    match given {
        Some(manifest) => Ok(manifest),
        None => {
            let built = OciImageManifest::build(alloc, layers, config, None)?;
            Ok(built)
        }
    }
}

fn entry_digests(alloc: Global, entries: &[OciDescriptor]) -> Result<List<Text>, AllocError>
    ensures { IfOk result (λ digests. digests ≡ map digest_of_entry entries.now) }
{
    let mut digests = List::new(alloc);
    for entry in entries {
        let digest = entry.digest.copy(alloc)?;
        digests.push(digest)?;
    }
    Ok(digests)
}

fn layer_digests(alloc: Global, layers: &[ImageLayer]) -> Result<List<Text>, AllocError>
    ensures { IfOk result (λ digests. digests ≡ map digest_of_layer layers.now) }
{
    let mut digests = List::new(alloc);
    for layer in layers {
        let digest = layer.sha256_digest(alloc)?;
        digests.push(digest)?;
    }
    Ok(digests)
}

fn digests_for(
    alloc: Global,
    entries: &[OciDescriptor],
    layers: &[ImageLayer],
) -> Result<List<Text>, AllocError>
    ensures { IfOk result (λ digests. digests ≡ digests_for entries.now layers.now) }
{
    if entries.len() == layers.len() {
        let digests = entry_digests(alloc, entries)?;
        return Ok(digests);
    }
    let digests = layer_digests(alloc, layers)?;
    Ok(digests)
}

// Pushes each layer under its digest.
#[tactic(none)]
fn layers_pushed<T: Transport>(
    alloc: Global,
    transport: &mut T,
    memory: &mut AuthState,
    call: &Call,
    digests: &[Text],
    layers: &[ImageLayer],
) -> Result<(), OciDistributionError>
    ensures { Meets is_memory (layers_pushed (context_of call.now) call.now.image.now digests.now layers.now)
        (T.state transport.old) (T.state transport.new) memory.old memory.new result }
{
    let mut named = digests;
    let mut left = layers;
    while let (Some((digest, more)), Some((layer, others))) = (
        named.split_first(),
        left.split_first(),
    ) {
        let content = layer.content.as_slice();
        push_blob(alloc, transport, memory, call, content, digest.as_str())?;
        named = more;
        left = others;
    }
    Ok(())
}

// The text of a manifest, its content type, and the digests under which the blobs are pushed.
#[derive(Drop)]
struct Plan {
    digests: List<Text>,
    config_digest: Text,
    document: Written,
}

// Plans the pushes before the first request, so that the manifest is dropped before them.
fn plan_for(
    alloc: Global,
    manifest: OciImageManifest,
    layers: &[ImageLayer],
) -> Result<Plan, AllocError>
    ensures { IfOk result (IsPlan manifest layers.now) }
{
    let digests = digests_for(alloc, manifest.layers.as_slice(), layers)?;
    let config_digest = manifest.config.digest.copy(alloc)?;
    let document = write_image(alloc, manifest)?;
    Ok(Plan {
        digests,
        config_digest,
        document,
    })
}

// Pushes the blobs of an image, and then its manifest.
#[tactic(none)]
fn image_pushed<T: Transport>(
    alloc: Global,
    transport: &mut T,
    memory: &mut AuthState,
    call: &Call,
    layers: &[ImageLayer],
    config: &Config,
    plan: Plan,
) -> Result<PushResponse, OciDistributionError>
    ensures { (manifest : OciImageManifest) → IsPlan manifest layers.now plan → Meets is_memory
        (image_pushed (context_of call.now) call.now.image.now layers.now config.now manifest)
        (T.state transport.old) (T.state transport.new) memory.old memory.new result }
{
    let Plan {
        digests,
        config_digest,
        document,
    } = plan;
    layers_pushed(alloc, transport, memory, call, digests.as_slice(), layers)?;
    let content = config.content.as_slice();
    let digest = config_digest.as_str();
    let config_url = push_blob(alloc, transport, memory, call, content, digest)?;
    let manifest_url = push_written(alloc, transport, memory, call, document)?;
    Ok(PushResponse {
        config_url,
        manifest_url,
    })
}

/// Pushes an image, after storing the credentials unless some are stored for the registry already: its layers in order,
/// its configuration, then its manifest, which is the one that is passed in or is built from them without annotations.
/// Layers go under the manifest's digests if it has as many layers, else under their SHA-256 digests, and the
/// configuration under the manifest's digest of it; the bytes are not compared with these. Each part is pushed as
/// `push_blob` and `push_manifest` do, and refused as they are.
#[tactic(none)]
pub fn push<T: Transport>(
    alloc: Global,
    transport: &mut T,
    memory: &mut AuthState,
    call: &Call,
    auth: &RegistryAuth,
    image: PushedImage,
) -> Result<PushResponse, OciDistributionError>
    ensures { Meets is_memory (push (context_of call.now) call.now.image.now
        image.entry.layers.now image.entry.config.now auth.now image.entry.manifest)
        (T.state transport.old) (T.state transport.new) memory.old memory.new result }
{
    let PushedImage {
        layers,
        config,
        manifest,
    } = image;
    let manifest = manifest_for(alloc, manifest, layers, config)?;
    let plan = plan_for(alloc, manifest, layers)?;
    store(alloc, memory, call.image.resolve_registry(), auth)?;
    let pushed = image_pushed(alloc, transport, memory, call, layers, config, plan)?;
    Ok(pushed)
}
