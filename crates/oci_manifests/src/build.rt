//! Builds manifests from layers and a configuration.
ghost use Rattle.std.specs.Prelude.{◌≡◌, [], None, IfOk, map};
ghost use Rattle.oci_manifests.specs.Build.{descriptor_for, manifest_with, layer_descriptor, built};
ghost use Rattle.oci_manifests.specs.Descriptor.{empty_descriptor};

use crate::OciDescriptor;
use crate::blob::{Config, ImageLayer};
use crate::manifest::OciImageManifest;
use json_values::{Annotations, Blob, Copied, List, Text};
use std::alloc::{AllocError, Global};

impl OciImageManifest {
    /// Returns schema version 2 with the default descriptor as configuration, and nothing else.
    pub fn default(alloc: Global) -> Result<OciImageManifest, AllocError>
        ensures { IfOk result (λ manifest. manifest ≡ manifest_with empty_descriptor [] None) }
    {
        let config = OciDescriptor::default(alloc)?;
        Ok(manifest_of_parts(config, List::new(alloc), None))
    }

    /// Builds the manifest of these layers and this configuration from their lengths in bytes, SHA-256 digests, media
    /// types and the annotations of each layer, with these annotations of the manifest.
    pub fn build(
        alloc: Global,
        layers: &[ImageLayer],
        config: &Config,
        annotations: Option<Annotations>,
    ) -> Result<OciImageManifest, AllocError>
        ensures { IfOk result (λ manifest. manifest ≡ built layers.now config.now annotations) }
    {
        let config = descriptor_for(alloc, &config.content, &config.media_type, &None)?;
        let layers = layer_descriptors(alloc, layers)?;
        Ok(manifest_of_parts(config, layers, annotations))
    }
}

fn manifest_of_parts(
    config: OciDescriptor,
    layers: List<OciDescriptor>,
    annotations: Option<Annotations>,
) -> OciImageManifest
    ensures { result ≡ manifest_with config layers annotations }
{
    OciImageManifest {
        schema_version: 2,
        media_type: None,
        config,
        layers,
        subject: None,
        artifact_type: None,
        annotations,
    }
}

fn layer_descriptors(
    alloc: Global,
    layers: &[ImageLayer],
) -> Result<List<OciDescriptor>, AllocError>
    ensures { IfOk result (λ descriptors. descriptors ≡ map layer_descriptor layers.now) }
{
    let mut descriptors = List::new(alloc);
    for layer in layers {
        let descriptor = descriptor_for(
            alloc,
            &layer.content,
            &layer.media_type,
            &layer.annotations,
        )?;
        descriptors.push(descriptor)?;
    }
    Ok(descriptors)
}

fn descriptor_for(
    alloc: Global,
    content: &Blob,
    media_type: &Text,
    annotations: &Option<Annotations>,
) -> Result<OciDescriptor, AllocError>
    ensures { IfOk result (λ descriptor. descriptor ≡ descriptor_for content.now media_type.now annotations.now) }
{
    let digest = oci_digests::sha256_digest(alloc, content.as_slice())?;
    let media_type = media_type.copy(alloc)?;
    let annotations = annotations.copy(alloc)?;
    Ok(OciDescriptor {
        media_type,
        digest,
        size: content.as_slice().len() as i64,
        urls: None,
        annotations,
        artifact_type: None,
    })
}
