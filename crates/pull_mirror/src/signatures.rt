// The manifest that is pushed for the signature of an image.
ghost use Rattle.std.specs.Prelude.{◌≡◌, IfOk, Some};
ghost use Rattle.pull_mirror.specs.Signatures.{document_type, type_of_kind, signature_layer, empty_config};
ghost use Rattle.pull_mirror.specs.Signatures.{layer_manifest, subject_of, signature_manifest, signature_text};
ghost use Rattle.cosign_parts.specs.declared.layer.LayerKind.TheVariants.{Bundle};

use cosign_chain::document_in;
use cosign_parts::{BUNDLE_TYPE, LayerKind, SIMPLE_SIGNING_TYPE, SignatureLayer};
use json_values::{Blob, Copied, List, Text};
use oci_docs::{OciManifest, manifest_text};
use oci_manifests::blob::Config;
use oci_manifests::{ImageLayer, OCI_IMAGE_MEDIA_TYPE, OciDescriptor, OciImageManifest};
use std::alloc::{AllocError, Global};

/// The content type of the document that these bytes parse as, or OCI's of a manifest if they are none.
pub(crate) fn document_type(alloc: Global, bytes: &Blob) -> Result<Text, AllocError>
    ensures { IfOk result (λ text. text ≡ document_type bytes.now) }
{
    let Some(document) = document_in(alloc, bytes)? else {
        let text = Text::new(alloc, OCI_IMAGE_MEDIA_TYPE)?;
        return Ok(text);
    };
    let text = Text::new(alloc, document.content_type())?;
    Ok(text)
}

fn type_of_kind(kind: LayerKind) -> &'static str
    ensures { result.now ≡ type_of_kind kind }
{
    match kind {
        LayerKind::Payload => SIMPLE_SIGNING_TYPE,
        LayerKind::Bundle => BUNDLE_TYPE,
    }
}

fn signature_layer(alloc: Global, layer: &SignatureLayer) -> Result<ImageLayer, AllocError>
    ensures { IfOk result (λ image. image ≡ signature_layer layer.now) }
{
    let content = layer.content.copy(alloc)?;
    let media_type = Text::new(alloc, type_of_kind(layer.kind))?;
    let annotations = layer.annotations.copy(alloc)?;
    Ok(ImageLayer::new(content, media_type, Some(annotations)))
}

fn empty_config(alloc: Global) -> Result<Config, AllocError>
    ensures { IfOk result (λ config. config ≡ empty_config) }
{
    let content = Blob::new(alloc, b"{}")?;
    let config = Config::oci_v1(alloc, content, None)?;
    Ok(config)
}

fn layer_manifest(alloc: Global, layer: &SignatureLayer) -> Result<OciImageManifest, AllocError>
    ensures { IfOk result (λ manifest. manifest ≡ layer_manifest layer.now) }
{
    let media_type = Text::new(alloc, OCI_IMAGE_MEDIA_TYPE)?;
    let config = empty_config(alloc)?;
    let layer = signature_layer(alloc, layer)?;
    let mut layers = List::new(alloc);
    layers.push(layer)?;
    let mut manifest = OciImageManifest::build(alloc, layers.as_slice(), &config, None)?;
    manifest.media_type = Some(media_type);
    Ok(manifest)
}

fn subject_of(alloc: Global, digest: &Text, first: &Blob) -> Result<OciDescriptor, AllocError>
    ensures { IfOk result (λ subject. subject ≡ subject_of digest.now first.now) }
{
    let media_type = document_type(alloc, first)?;
    let digest = digest.copy(alloc)?;
    Ok(OciDescriptor {
        media_type,
        digest,
        size: first.as_slice().len() as i64,
        urls: None,
        annotations: None,
        artifact_type: None,
    })
}

fn bundle_manifest(
    alloc: Global,
    layer: &SignatureLayer,
    digest: &Text,
    first: &Blob,
) -> Result<OciImageManifest, AllocError>
    ensures { IfOk result (λ manifest. manifest ≡ record (layer_manifest layer.now) {
      artifact_type = Some (type_of_kind Bundle);
      subject = Some (subject_of digest.now first.now);
    }) }
{
    let artifact_type = Text::new(alloc, BUNDLE_TYPE)?;
    let subject = subject_of(alloc, digest, first)?;
    let mut manifest = layer_manifest(alloc, layer)?;
    manifest.artifact_type = Some(artifact_type);
    manifest.subject = Some(subject);
    Ok(manifest)
}

fn signature_manifest(
    alloc: Global,
    layer: &SignatureLayer,
    digest: &Text,
    first: &Blob,
) -> Result<OciImageManifest, AllocError>
    ensures { IfOk result (λ manifest. manifest ≡ signature_manifest layer.now digest.now first.now) }
{
    match layer.kind {
        LayerKind::Payload => layer_manifest(alloc, layer),
        LayerKind::Bundle => bundle_manifest(alloc, layer, digest, first),
    }
}

/// Returns the text of the manifest that is pushed for the signature of the document of this digest: one layer, with the
/// bytes and annotations that were pulled. A bundle's names the document as its subject.
pub fn signature_text(
    alloc: Global,
    layer: &SignatureLayer,
    digest: &Text,
    first: &Blob,
) -> Result<Blob, AllocError>
    ensures { IfOk result (λ text. text ≡ signature_text layer.now digest.now first.now) }
{
    let manifest = signature_manifest(alloc, layer, digest, first)?;
    let document = OciManifest::Image(manifest);
    let text = manifest_text(alloc, &document)?;
    Ok(text)
}
