//! The image that is pushed for signature layers.
ghost use Rattle.std.specs.Prelude.{◌≡◌, ◌++◌, IfOk, OnOk, List};
ghost use Rattle.cosign_client.specs.Signature.{AreLayersFor, IsLayerFor, IsPayloadText, IsSignatureImage};
ghost use Rattle.cosign_client.specs.Signature.{SignaturesAreFound, Signed};
ghost use Rattle.cosign_client.specs.Signature.{all_signed, critical_written, payload_written, signature_config};
ghost use Rattle.cosign_client.specs.Signature.{identity_written, image_written};
ghost use Rattle.cosign_client.specs.Signature.{signature_manifest, signature_notes, signed_in};

use cosign_parts::{SIMPLE_SIGNING_TYPE, SignatureLayer, SimpleSigning};
use json_tables::object;
use json_values::{Annotations, Blob, Copied, Json, List, Text};
use oci_manifests::blob::Config;
use oci_manifests::{ImageLayer, OCI_IMAGE_MEDIA_TYPE, OciImageManifest};
use std::alloc::{AllocError, Global};

const PAYLOAD_TYPE: &str = "cosign container image signature";

/// What is pushed for signature layers: a layer for each payload, a configuration, and the manifest of these.
#[derive(Drop)]
pub struct SignatureImage {
    pub layers: List<ImageLayer>,
    pub config: Config,
    pub manifest: OciImageManifest,
}

/// Builds the image of these signature layers, with these annotations of its manifest. Layers without a payload are left
/// out.
pub fn signature_image(
    alloc: Global,
    layers: &[SignatureLayer],
    annotations: Option<Annotations>,
) -> Result<SignatureImage, AllocError>
    ensures { IfOk result (IsSignatureImage layers.now annotations) }
{
    let layers = payload_layers(alloc, layers)?;
    let config = empty_config(alloc)?;
    let manifest = manifest_of(alloc, layers.as_slice(), &config, annotations)?;
    Ok(SignatureImage {
        layers,
        config,
        manifest,
    })
}

fn empty_config(alloc: Global) -> Result<Config, AllocError>
    ensures { IfOk result (λ config. config ≡ signature_config) }
{
    let content = Blob::new(alloc, b"{}")?;
    let config = Config::oci_v1(alloc, content, None)?;
    Ok(config)
}

fn manifest_of(
    alloc: Global,
    layers: &[ImageLayer],
    config: &Config,
    annotations: Option<Annotations>,
) -> Result<OciImageManifest, AllocError>
    ensures { config.now ≡ signature_config → IfOk result (λ manifest.
        manifest ≡ signature_manifest layers.now annotations) }
{
    let media_type = Text::new(alloc, OCI_IMAGE_MEDIA_TYPE)?;
    let mut manifest = OciImageManifest::build(alloc, layers, config, annotations)?;
    manifest.media_type = Some(media_type);
    Ok(manifest)
}

fn payload_layers(alloc: Global, layers: &[SignatureLayer]) -> Result<List<ImageLayer>, AllocError>
    ensures { IfOk result (AreLayersFor (all_signed layers.now)) }
{
    let mut images = List::new(alloc);
    for layer in layers {
        add_layer(alloc, &mut images, layer)?;
    }
    Ok(images)
}

// Adds the layer of a payload, if there is one.
fn add_layer(
    alloc: Global,
    images: &mut List<ImageLayer>,
    layer: &SignatureLayer,
) -> Result<(), AllocError>
    ensures { OnOk result ((before : List Signed) → AreLayersFor before images.old
        → AreLayersFor (before ++ signed_in layer.now) images.new) }
{
    let Some(signing) = &layer.simple_signing else {
        return Ok(());
    };
    let image = payload_layer(alloc, signing, &layer.signature)?;
    images.push(image)?;
    Ok(())
}

fn payload_layer(
    alloc: Global,
    signing: &SimpleSigning,
    signature: &Text,
) -> Result<ImageLayer, AllocError>
    ensures { IfOk result (IsLayerFor (signing.now, signature.now)) }
{
    let content = payload_text(alloc, signing)?;
    let media_type = Text::new(alloc, SIMPLE_SIGNING_TYPE)?;
    let annotations = signature_notes(alloc, signature)?;
    Ok(ImageLayer::new(content, media_type, Some(annotations)))
}

fn signature_notes(alloc: Global, signature: &Text) -> Result<Annotations, AllocError>
    ensures { IfOk result (λ notes. notes ≡ signature_notes signature.now) }
{
    let name = Text::new(alloc, "dev.cosignproject.cosign/signature")?;
    let signature = signature.copy(alloc)?;
    let mut notes = Annotations::new(alloc);
    notes.insert(name, signature)?;
    Ok(notes)
}

fn payload_text(alloc: Global, signing: &SimpleSigning) -> Result<Blob, AllocError>
    ensures { IfOk result (IsPayloadText signing.now) }
{
    let payload = payload_value(alloc, signing)?;
    let text = payload.value().to_vec(alloc)?;
    Ok(Blob::from_vec(text))
}

fn payload_value(alloc: Global, signing: &SimpleSigning) -> Result<Json, AllocError>
    ensures { IfOk result (λ json. json ≡ payload_written signing.now) }
{
    let critical = critical_value(alloc, signing)?;
    let value = object!(alloc, { "critical": &critical, "optional": &signing.optional })?;
    Ok(Json::new(value))
}

fn critical_value(alloc: Global, signing: &SimpleSigning) -> Result<Json, AllocError>
    ensures { IfOk result (λ json. json ≡ critical_written signing.now) }
{
    let identity = identity_value(alloc, &signing.docker_reference)?;
    let image = image_value(alloc, &signing.docker_manifest_digest)?;
    let value = object!(alloc, { "identity": &identity, "image": &image, "type": &PAYLOAD_TYPE })?;
    Ok(Json::new(value))
}

fn identity_value(alloc: Global, docker_reference: &Text) -> Result<Json, AllocError>
    ensures { IfOk result (λ json. json ≡ identity_written docker_reference.now) }
{
    let value = object!(alloc, { "docker-reference": docker_reference })?;
    Ok(Json::new(value))
}

fn image_value(alloc: Global, docker_manifest_digest: &Text) -> Result<Json, AllocError>
    ensures { IfOk result (λ json. json ≡ image_written docker_manifest_digest.now) }
{
    let value = object!(alloc, { "docker-manifest-digest": docker_manifest_digest })?;
    Ok(Json::new(value))
}

/// The layer that is pushed for a payload is read as a layer of this payload and signature, so that a search for
/// signatures finds it, if the payload holds no float and does not nest too deep, and its signature is in base64.
pub fn pushed_signatures_are_found()
    ensures { SignaturesAreFound }
{}
