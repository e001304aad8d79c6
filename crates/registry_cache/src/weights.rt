// The weights of responses in bytes.
ghost use Rattle.std.specs.Prelude.{◌≡◌, ℕ, ◌+◌};
ghost use Rattle.registry_cache.specs.Weights as weights;
ghost use Rattle.registry_cache.specs.Weights.{counted, text_weight, optional_weight, list_weight, pair_weight};

use crate::answer::Answer;
use engine_rows::ImageData;
use json_values::{Annotations, Blob, List, Text, row};
use oci_manifests::blob::Config;
use oci_manifests::{
    ImageIndexEntry, ImageLayer, OciDescriptor, OciImageIndex, OciImageManifest, OciManifest,
    Platform,
};

// The weight of a text's or other bytes' container, besides their length.
const HELD: u128 = 32;

/// A value with a weight in bytes.
pub(crate) trait Weighs {
    ghost weight: { Self → ℕ };

    fn weight(&self) -> u128
        ensures { result ≡ counted (weight self.now) };
}

fn bytes_weight(bytes: &[u8]) -> u128
    ensures { result ≡ counted (text_weight bytes.now) }
{
    bytes.len() as u128 + HELD
}

impl Weighs for Text {
    ghost weight = { text_weight };

    fn weight(&self) -> u128 {
        bytes_weight(self.as_str().as_bytes())
    }
}

impl Weighs for Blob {
    ghost weight = { text_weight };

    fn weight(&self) -> u128 {
        bytes_weight(self.as_slice())
    }
}

impl<T: Weighs> Weighs for Option<T> {
    ghost weight = { optional_weight T.weight };

    fn weight(&self) -> u128 {
        match self {
            Some(x) => x.weight(),
            None => 0,
        }
    }
}

impl Weighs for (Text, Text) {
    ghost weight = { pair_weight };

    fn weight(&self) -> u128 {
        row![&self.0, &self.1].weight()
    }
}

fn items_weight<T: Weighs>(items: &[T]) -> u128
    ensures { result ≡ counted (list_weight T.weight items.now) }
{
    let mut weight = 0u128;
    for item in items {
        weight = weight.saturating_add(item.weight());
    }
    weight
}

impl<T: Weighs + Drop> Weighs for List<T> {
    ghost weight = { list_weight T.weight };

    fn weight(&self) -> u128 {
        items_weight(self.as_slice())
    }
}

impl Weighs for Annotations {
    ghost weight = { weights.annotations_weight };

    fn weight(&self) -> u128 {
        items_weight(self.entries())
    }
}

// Tuples of references: the sum of the weights.
impl Weighs for () {
    ghost weight = { λ _. 0 };

    fn weight(&self) -> u128 {
        0
    }
}

impl<'a, A: Weighs, B: Weighs> Weighs for (&'a A, B) {
    ghost weight = { λ row. A.weight row.0.now + B.weight row.1 };

    fn weight(&self) -> u128 {
        self.0.weight().saturating_add(self.1.weight())
    }
}

impl Weighs for OciDescriptor {
    ghost weight = { weights.descriptor_weight };

    fn weight(&self) -> u128 {
        row![
            &self.media_type,
            &self.digest,
            &self.urls,
            &self.annotations,
            &self.artifact_type
        ]
        .weight()
    }
}

impl Weighs for OciImageManifest {
    ghost weight = { weights.manifest_weight };

    fn weight(&self) -> u128 {
        row![
            &self.media_type,
            &self.config,
            &self.layers,
            &self.subject,
            &self.artifact_type,
            &self.annotations
        ]
        .weight()
    }
}

impl Weighs for Platform {
    ghost weight = { weights.platform_weight };

    fn weight(&self) -> u128 {
        let architecture = bytes_weight(self.architecture.as_str().as_bytes());
        let os = bytes_weight(self.os.as_str().as_bytes());
        let others = row![
            &self.os_version,
            &self.os_features,
            &self.variant,
            &self.features
        ];
        architecture.saturating_add(os.saturating_add(others.weight()))
    }
}

impl Weighs for ImageIndexEntry {
    ghost weight = { weights.index_entry_weight };

    fn weight(&self) -> u128 {
        row![
            &self.media_type,
            &self.digest,
            &self.platform,
            &self.annotations,
            &self.artifact_type
        ]
        .weight()
    }
}

impl Weighs for OciImageIndex {
    ghost weight = { weights.index_weight };

    fn weight(&self) -> u128 {
        row![
            &self.media_type,
            &self.manifests,
            &self.artifact_type,
            &self.annotations
        ]
        .weight()
    }
}

impl Weighs for OciManifest {
    ghost weight = { weights.document_weight };

    fn weight(&self) -> u128 {
        match self {
            OciManifest::Image(manifest) => manifest.weight(),
            OciManifest::ImageIndex(index) => index.weight(),
        }
    }
}

impl Weighs for ImageLayer {
    ghost weight = { weights.layer_weight };

    fn weight(&self) -> u128 {
        row![&self.content, &self.media_type, &self.annotations].weight()
    }
}

impl Weighs for Config {
    ghost weight = { weights.config_weight };

    fn weight(&self) -> u128 {
        row![&self.content, &self.media_type, &self.annotations].weight()
    }
}

impl Weighs for ImageData {
    ghost weight = { weights.image_weight };

    fn weight(&self) -> u128 {
        row![&self.layers, &self.digest, &self.config, &self.manifest].weight()
    }
}

impl Weighs for Answer {
    ghost weight = { weights.answer_weight };

    fn weight(&self) -> u128 {
        match self {
            Answer::Digest(digest) => digest.weight(),
            Answer::Manifest(document, digest) => row![document, digest].weight(),
            Answer::Image(image) => image.weight(),
            Answer::Referrers(index) => index.weight(),
        }
    }
}
