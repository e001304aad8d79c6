//! Layers and configurations: bytes with their media type.
ghost use Rattle.std.specs.Prelude.{◌≡◌, IfOk, codes};
ghost use Rattle.oci_digests.specs.Names.{digest_text};
ghost use Rattle.oci_names.specs.declared.algorithm.Algorithm.TheVariants.{Sha256};
ghost use Rattle.oci_manifests.specs.Blob.{typed_layer, typed_config};

use crate::{layer_types, media_types};
use json_values::{Annotations, Blob, Copied, Text, copied};
use std::alloc::{AllocError, Global};

/// The bytes of a layer, their media type, and the annotations of its descriptor.
#[derive(Debug, PartialEq, Eq, Drop)]
pub struct ImageLayer {
    pub content: Blob,
    pub media_type: Text,
    pub annotations: Option<Annotations>,
}

impl ImageLayer {
    /// Creates a layer of these parts.
    pub fn new(content: Blob, media_type: Text, annotations: Option<Annotations>) -> ImageLayer
        ensures { result
            ≡ record { content = content; media_type = media_type; annotations = annotations } }
    {
        ImageLayer {
            content,
            media_type,
            annotations,
        }
    }

    /// Creates a layer with OCI's uncompressed media type.
    pub fn oci_v1(
        alloc: Global,
        content: Blob,
        annotations: Option<Annotations>,
    ) -> Result<ImageLayer, AllocError>
        ensures { IfOk result (λ made. made ≡ typed_layer
            (codes "application/vnd.oci.image.layer.v1.tar") content annotations) }
    {
        let media_type = Text::new(alloc, layer_types::IMAGE_LAYER_MEDIA_TYPE)?;
        Ok(ImageLayer::new(content, media_type, annotations))
    }

    /// Creates a layer with OCI's gzip media type. The caller passes compressed bytes.
    pub fn oci_v1_gzip(
        alloc: Global,
        content: Blob,
        annotations: Option<Annotations>,
    ) -> Result<ImageLayer, AllocError>
        ensures { IfOk result (λ made. made ≡ typed_layer
            (codes "application/vnd.oci.image.layer.v1.tar+gzip") content annotations) }
    {
        let media_type = Text::new(alloc, layer_types::IMAGE_LAYER_GZIP_MEDIA_TYPE)?;
        Ok(ImageLayer::new(content, media_type, annotations))
    }

    /// Returns the SHA-256 text of the bytes.
    pub fn sha256_digest(&self, alloc: Global) -> Result<Text, AllocError>
        ensures { IfOk result (λ text. text ≡ digest_text Sha256 self.now.content) }
    {
        oci_digests::sha256_digest(alloc, self.content.as_slice())
    }
}

impl Copied for ImageLayer {
    fn copy(&self, alloc: Global) -> Result<ImageLayer, AllocError> {
        copied!(
            alloc,
            self,
            ImageLayer {
                content,
                media_type,
                annotations
            }
        )
    }
}

/// The bytes of a configuration, their media type, and the annotations of its descriptor.
#[derive(Debug, Drop)]
pub struct Config {
    pub content: Blob,
    pub media_type: Text,
    pub annotations: Option<Annotations>,
}

impl Config {
    /// Creates a configuration of these parts.
    pub fn new(content: Blob, media_type: Text, annotations: Option<Annotations>) -> Config
        ensures { result
            ≡ record { content = content; media_type = media_type; annotations = annotations } }
    {
        Config {
            content,
            media_type,
            annotations,
        }
    }

    /// Creates a configuration with OCI's media type.
    pub fn oci_v1(
        alloc: Global,
        content: Blob,
        annotations: Option<Annotations>,
    ) -> Result<Config, AllocError>
        ensures { IfOk result (λ made. made ≡ typed_config
            (codes "application/vnd.oci.image.config.v1+json") content annotations) }
    {
        let media_type = Text::new(alloc, media_types::IMAGE_CONFIG_MEDIA_TYPE)?;
        Ok(Config::new(content, media_type, annotations))
    }

    /// Returns the SHA-256 text of the bytes.
    pub fn sha256_digest(&self, alloc: Global) -> Result<Text, AllocError>
        ensures { IfOk result (λ text. text ≡ digest_text Sha256 self.now.content) }
    {
        oci_digests::sha256_digest(alloc, self.content.as_slice())
    }
}

impl Copied for Config {
    fn copy(&self, alloc: Global) -> Result<Config, AllocError> {
        copied!(
            alloc,
            self,
            Config {
                content,
                media_type,
                annotations
            }
        )
    }
}
