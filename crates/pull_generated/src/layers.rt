// The layers of the generated image.
ghost use Rattle.std.specs.Prelude.{◌≡◌, ◌++◌, ◌∷◌, [], IfOk, OnOk, map as each};
ghost use Rattle.std.specs.FinMap as map;
ghost use Rattle.pull_generated.specs.Shelf.{with_each};
ghost use Rattle.pull_generated.specs.Texts.{sha256_text, layer_content, layer_contents, layer_type, descriptor_of};

use crate::texts::{descriptor_text, layer_content};
use json_values::{List, Text, TextMap};
use oci_digests::sha256_digest;
use oci_link::ShelfBlobs;
use std::alloc::{AllocError, Global};

/// Layers, and the texts of their descriptors.
#[derive(Drop)]
pub(crate) struct Layers {
    pub blobs: ShelfBlobs,
    pub descriptors: List<Text>,
}

// Adds the layer at this index.
fn add_layer(alloc: Global, layers: &mut Layers, place: u32) -> Result<(), AllocError>
    ensures blobs { OnOk result (layers.new.blobs
        ≡ map.insert layers.old.blobs (sha256_text (layer_content place)) (layer_content place)) }
    ensures descriptors { OnOk result (layers.new.descriptors
        ≡ layers.old.descriptors ++ descriptor_of layer_type [] (layer_content place) ∷ []) }
{
    let content = layer_content(alloc, place)?;
    let bytes = content.as_slice();
    let digest = sha256_digest(alloc, bytes)?;
    let media_type = "application/vnd.oci.image.layer.v1.tar";
    let descriptor = descriptor_text(alloc, media_type, digest.as_str(), bytes.len(), "")?;
    layers.descriptors.push(descriptor)?;
    layers.blobs.insert(digest, content)?;
    Ok(())
}

/// Returns `count` layers.
#[tactic(auto, unfolding(crate::specs::Texts::layer_contents))]
pub(crate) fn first_layers(alloc: Global, count: u32) -> Result<Layers, AllocError>
    ensures blobs { IfOk result (λ made. made.blobs ≡ with_each map.empty (layer_contents count)) }
    ensures descriptors { IfOk result
        (λ made. made.descriptors ≡ each (descriptor_of layer_type []) (layer_contents count)) }
{
    let mut layers = Layers {
        blobs: TextMap::new(alloc),
        descriptors: List::new(alloc),
    };
    for place in 0..count {
        add_layer(alloc, &mut layers, place)?;
    }
    Ok(layers)
}
