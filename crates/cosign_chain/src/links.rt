//! Checks the links of a chain that depend on documents and blobs alone.
ghost use Rattle.std.specs.Prelude.{◌≡◌, ◌↔◌, IsTrue, bytes_eq, option_copied};
ghost use Rattle.std.specs.List.{list_all, list_any, zip};
ghost use Rattle.oci_names.specs.Reference.{digest_of};
ghost use Rattle.cosign_chain.specs.Links.{Links, named_by, same_annotations, has_manifest, has_config};
ghost use Rattle.cosign_chain.specs.Links.{is_layer_of, has_layers, is_linked};

use crate::image::VerifiedImage;
use json_values::{Annotations, Text};
use oci_digests::names_digest;
use oci_manifests::blob::Config;
use oci_manifests::{ImageLayer, OciDescriptor, OciImageManifest};
use oci_names::Reference;

/// Returns whether the parts of an image are linked by their digests, without parsing any document, checking any
/// signature or allocating memory.
///
/// The digest names the first document, as the reference's digest does if it has one. Without an index, the manifest is
/// that document; with one, the manifest's digest names its bytes, and the digest is the index's. The manifest's
/// descriptors name the configuration and the layers, of which there is at least one, in their order. Media types and
/// annotations are the descriptors' (the configuration has the manifest's annotations), and each layer's media type is
/// accepted.
pub fn check_links(image: &Reference, accepted_media_types: &[Text], found: &VerifiedImage) -> bool
    ensures { IsTrue result ↔ Links image.now accepted_media_types.now found.now }
{
    is_linked(image, accepted_media_types, found)
}

fn is_linked(image: &Reference, accepted: &[Text], found: &VerifiedImage) -> bool
    ensures { result ≡ is_linked image.now accepted.now found.now }
{
    let first = found.first.as_slice();
    let descriptors = found.manifest.layers.as_slice();
    let layers = found.layers.as_slice();
    names_digest(found.digest.as_str(), first)
        && named_by(image.digest(), first)
        && has_manifest(found)
        && has_config(&found.manifest, &found.config)
        && 0 < layers.len()
        && has_layers(accepted, descriptors, layers)
}

// A digest, if there is one, names the bytes.
fn named_by(digest: Option<&str>, bytes: &[u8]) -> bool
    ensures { result ≡ named_by (option_copied digest.entry) bytes.now }
{
    match digest {
        Some(digest) => names_digest(digest, bytes),
        None => true,
    }
}

// Without an index the manifest is the first document.
fn has_manifest(found: &VerifiedImage) -> bool
    ensures { result ≡ has_manifest found.now found.now.list_digest }
{
    match &found.list_digest {
        Some(digest) => {
            digest.as_str() == found.digest.as_str()
                && names_digest(
                    found.manifest_digest.as_str(),
                    found.manifest_bytes.as_slice(),
                )
        }
        None => {
            found.manifest_bytes.as_slice() == found.first.as_slice()
                && found.manifest_digest.as_str() == found.digest.as_str()
        }
    }
}

// The manifest's descriptor names the configuration.
fn has_config(manifest: &OciImageManifest, config: &Config) -> bool
    ensures { result ≡ has_config manifest.now config.now }
{
    names_digest(manifest.config.digest.as_str(), config.content.as_slice())
        && config.media_type.as_str() == manifest.config.media_type.as_str()
        && same_annotations(&config.annotations, &manifest.annotations)
}

// One layer for each descriptor.
fn has_layers(accepted: &[Text], descriptors: &[OciDescriptor], layers: &[ImageLayer]) -> bool
    ensures { result ≡ has_layers accepted.now descriptors.now layers.now }
{
    descriptors.len() == layers.len() && are_layers_of(accepted, descriptors, layers)
}

// Each descriptor names the layer at its index.
fn are_layers_of(accepted: &[Text], descriptors: &[OciDescriptor], layers: &[ImageLayer]) -> bool
    ensures { result ≡ list_all (λ p. is_layer_of accepted.now p.0 p.1) (zip descriptors.now layers.now) }
{
    descriptors.iter().zip(layers).all(|(descriptor, layer)| is_layer_of(
        accepted, descriptor, layer,
    ))
}

// The descriptor names the layer, whose media type is accepted.
fn is_layer_of(accepted: &[Text], descriptor: &OciDescriptor, layer: &ImageLayer) -> bool
    ensures { result ≡ is_layer_of accepted.now descriptor.now layer.now }
{
    names_digest(descriptor.digest.as_str(), layer.content.as_slice())
        && layer.media_type.as_str() == descriptor.media_type.as_str()
        && same_annotations(&layer.annotations, &descriptor.annotations)
        && is_accepted(accepted, layer.media_type.as_str())
}

fn is_accepted(accepted: &[Text], kind: &str) -> bool
    ensures { result ≡ list_any (bytes_eq kind.now) accepted.now }
{
    accepted.iter().any(|allowed| kind == allowed.as_str())
}

pub(crate) fn same_annotations(a: &Option<Annotations>, b: &Option<Annotations>) -> bool
    ensures { result ≡ same_annotations a.now b.now }
{
    match (a, b) {
        (Some(a), Some(b)) => a.entries() == b.entries(),
        (None, None) => true,
        _ => false,
    }
}
