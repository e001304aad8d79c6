// Pulls whole images.
ghost use Rattle.oci_auth.specs.declared.auth_state.AuthState.{AuthState};
ghost use Rattle.oci_protocol.specs.Runs.{Meets};
ghost use Rattle.engine_terms.specs.Contexts.{context_of};
ghost use Rattle.engine_terms.specs.Error.{is_memory};
ghost use Rattle.engine_pull.specs.Parts.{Parts, LeadsTo};
ghost use Rattle.engine_rows.specs.Image.{pull_layers, pull};
ghost use Rattle.engine_rows.specs.Rows.{Row};
ghost use Rattle.engine_rows.specs.declared.image.ImageData.{ImageData as ImageOf};

use crate::manifests::pull_image_manifest_and_list_digest;
use crate::pulled_blob;
use engine_requests::AsLayerDescriptor;
use engine_rows::{ImageData, config_of, layer_of, layers_accepted};
use engine_terms::{Call, OciDistributionError};
use json_values::{List, Text};
use oci_auth::{AuthState, RegistryAuth};
use oci_manifests::blob::Config;
use oci_manifests::{ImageLayer, OciDescriptor, OciImageManifest};
use oci_transport::Transport;
use std::alloc::Global;

// Pulls each descriptor's blob, and appends it to the layers so far.
fn pull_layers<T: Transport>(
    alloc: Global,
    transport: &mut T,
    memory: &mut AuthState,
    call: &Call,
    descriptors: &[OciDescriptor],
    mut layers: List<ImageLayer>,
) -> Result<List<ImageLayer>, OciDistributionError>
    ensures { Meets is_memory (pull_layers (context_of call.now) call.now.image.now descriptors.now layers)
        (T.state transport.old) (T.state transport.new) memory.old memory.new result }
{
    for descriptor in descriptors {
        let blob = descriptor.as_layer_descriptor();
        let content = pulled_blob(alloc, transport, memory, call, &blob)?;
        let layer = layer_of(alloc, descriptor, content)?;
        layers.push(layer)?;
    }
    Ok(layers)
}

// Pulls the configuration and the layers of a manifest. The manifest is borrowed, so that it is dropped in one place.
fn pull_parts<T: Transport>(
    alloc: Global,
    transport: &mut T,
    memory: &mut AuthState,
    call: &Call,
    accepted: &[Text],
    manifest: &OciImageManifest,
) -> Result<(Config, List<ImageLayer>), OciDistributionError>
    ensures { (next : Parts → Row ImageOf)
        → LeadsTo (context_of call.now) call.now.image.now accepted.now manifest.now
        (T.state transport.old) (T.state transport.new) memory.old memory.new result next }
{
    let blob = manifest.config.as_layer_descriptor();
    let content = pulled_blob(alloc, transport, memory, call, &blob)?;
    let config = config_of(alloc, manifest, content)?;
    layers_accepted(alloc, accepted, manifest.layers.as_slice())?;
    let layers = pull_layers(
        alloc,
        transport,
        memory,
        call,
        manifest.layers.as_slice(),
        List::new(alloc),
    )?;
    Ok((config, layers))
}

/// Returns an image whose layers have these media types.
pub fn pull<T: Transport>(
    alloc: Global,
    transport: &mut T,
    memory: &mut AuthState,
    call: &Call,
    auth: &RegistryAuth,
    accepted: &[Text],
) -> Result<ImageData, OciDistributionError>
    ensures { Meets is_memory (pull (context_of call.now) call.now.image.now auth.now accepted.now)
        (T.state transport.old) (T.state transport.new) memory.old memory.new result }
{
    let found = pull_image_manifest_and_list_digest(alloc, transport, memory, call, auth)?;
    let (manifest, digest, _) = found;
    match pull_parts(alloc, transport, memory, call, accepted, &manifest) {
        Ok((config, layers)) => Ok(ImageData {
            layers,
            digest: Some(digest),
            config,
            manifest: Some(manifest),
        }),
        Err(error) => Err(error),
    }
}
