// The parts of an image that are computed from its documents and blobs.
ghost use Rattle.std.specs.Prelude.{◌≡◌, IfOk};
ghost use Rattle.json_values.specs.Refusals.{Matches};
ghost use Rattle.engine_terms.specs.Error.{is_memory};
ghost use Rattle.engine_rows.specs.Image.{image_manifest, is_accepted, all_accepted};
ghost use Rattle.engine_rows.specs.Image.{layers_accepted, layer_of, config_of};

use engine_terms::OciDistributionError;
use json_values::{Blob, Copied, List, Text, copied, copy_all, row};
use oci_manifests::blob::Config;
use oci_manifests::{ImageLayer, OciDescriptor, OciImageManifest, OciManifest};
use std::alloc::{AllocError, Global};

/// An image that was pulled.
#[derive(Drop)]
pub struct ImageData {
    /// In the manifest's order.
    pub layers: List<ImageLayer>,
    /// The digest of the manifest.
    pub digest: Option<Text>,
    pub config: Config,
    pub manifest: Option<OciImageManifest>,
}

impl Copied for ImageData {
    fn copy(&self, alloc: Global) -> Result<ImageData, AllocError> {
        copied!(
            alloc,
            self,
            ImageData {
                layers,
                digest,
                config,
                manifest
            }
        )
    }
}

/// Returns the manifest of an image; an index is refused.
pub fn image_manifest(document: OciManifest) -> Result<OciImageManifest, OciDistributionError>
    ensures { Matches is_memory result (image_manifest document) }
{
    match document {
        OciManifest::Image(manifest) => Ok(manifest),
        OciManifest::ImageIndex(_) => {
            Err(OciDistributionError::ImageIndexParsingNoPlatformResolverError)
        }
    }
}

fn is_accepted(accepted: &[Text], kind: &str) -> bool
    ensures { result ≡ is_accepted accepted.now kind.now }
{
    for allowed in accepted {
        if allowed.as_str() == kind {
            return true;
        }
    }
    false
}

/// Checks that there is at least one layer, and that the media type of each is accepted.
pub fn layers_accepted(
    alloc: Global,
    accepted: &[Text],
    layers: &[OciDescriptor],
) -> Result<(), OciDistributionError>
    ensures { Matches is_memory result (layers_accepted accepted.now layers.now) }
{
    if layers.is_empty() {
        return Err(OciDistributionError::PullNoLayersError);
    }
    all_accepted(alloc, accepted, layers)?;
    Ok(())
}

fn all_accepted(
    alloc: Global,
    accepted: &[Text],
    layers: &[OciDescriptor],
) -> Result<(), OciDistributionError>
    ensures { Matches is_memory result (all_accepted accepted.now layers.now) }
{
    for layer in layers {
        if !is_accepted(accepted, layer.media_type.as_str()) {
            let kind = layer.media_type.copy(alloc)?;
            return Err(OciDistributionError::IncompatibleLayerMediaTypeError(kind));
        }
    }
    Ok(())
}

/// Returns a descriptor's blob as a layer.
pub fn layer_of(
    alloc: Global,
    descriptor: &OciDescriptor,
    content: Blob,
) -> Result<ImageLayer, AllocError>
    ensures { IfOk result (λ layer. layer ≡ layer_of descriptor.now content) }
{
    let row![media_type, annotations] = copy_all(
        alloc,
        row![&descriptor.media_type, &descriptor.annotations],
    )?;
    Ok(ImageLayer {
        content,
        media_type,
        annotations,
    })
}

/// Returns a manifest's configuration.
pub fn config_of(
    alloc: Global,
    manifest: &OciImageManifest,
    content: Blob,
) -> Result<Config, AllocError>
    ensures { IfOk result (λ config. config ≡ config_of manifest.now content) }
{
    let row![media_type, annotations] = copy_all(
        alloc,
        row![&manifest.config.media_type, &manifest.annotations],
    )?;
    Ok(Config {
        content,
        media_type,
        annotations,
    })
}
