// The texts of the generated image.
ghost use Rattle.std.specs.Prelude.{◌≡◌, ◌++◌, IfOk, OnOk, codes, flat_map};
ghost use Rattle.pull_generated.specs.Texts.{thousandfold, layer_content, joined};
ghost use Rattle.pull_generated.specs.Texts.{descriptor_around, descriptor_text};
ghost use Rattle.pull_generated.specs.Texts.{manifest_around, plain_manifest, payload_text, signatures_text};

use json_values::{Blob, List, Text, write_decimal};
use oci_digests::sha256_digest;
use std::alloc::{AllocError, Global};

#[tactic(auto, unfolding(crate::specs::Texts::thousandfold))]
fn thousandfold(alloc: Global, line: &str) -> Result<Blob, AllocError>
    ensures { IfOk result (λ lines. lines ≡ thousandfold line.now) }
{
    let lines = line.repeat(alloc, 1000)?;
    Blob::new(alloc, lines.as_bytes())
}

/// Returns the layer at this index.
#[tactic(auto, unfolding(crate::specs::Texts::layer_content))]
pub(crate) fn layer_content(alloc: Global, place: u32) -> Result<Blob, AllocError>
    ensures { IfOk result (λ content. content ≡ layer_content place) }
{
    let digits = write_decimal(alloc, place as u64)?;
    let line = ["layer ", digits.as_str(), "\n"].concat(alloc)?;
    thousandfold(alloc, line.as_str())
}

fn descriptor_around(
    alloc: Global,
    media_type: &str,
    digest: &str,
    size: &str,
    more: &str,
) -> Result<Text, AllocError>
    ensures { IfOk result (λ text. text ≡ descriptor_around media_type.now digest.now size.now more.now) }
{
    let text = [
        "{\"mediaType\":\"",
        media_type,
        "\",\"digest\":\"",
        digest,
        "\",\"size\":",
        size,
        more,
        "}",
    ]
    .concat(alloc)?;
    Text::new(alloc, text.as_str())
}

/// Returns the descriptor of a blob, with these members at its end.
pub(crate) fn descriptor_text(
    alloc: Global,
    media_type: &str,
    digest: &str,
    size: usize,
    more: &str,
) -> Result<Text, AllocError>
    ensures { IfOk result (λ text. text ≡ descriptor_text media_type.now digest.now size more.now) }
{
    let size = write_decimal(alloc, size as u64)?;
    descriptor_around(alloc, media_type, digest, size.as_str(), more)
}

// The texts, separated by commas.
fn joined(alloc: Global, texts: &[Text]) -> Result<Text, AllocError>
    ensures { IfOk result (λ text. text ≡ joined texts.now) }
{
    let Some((first, others)) = texts.split_first() else {
        return Text::new(alloc, "");
    };
    let mut text = Text::new(alloc, first.as_str())?;
    push_behind(&mut text, others)?;
    Ok(text)
}

fn push_one(text: &mut Text, one: &Text) -> Result<(), AllocError>
    ensures { OnOk result (text.new ≡ text.old ++ (codes "," ++ one.now)) }
{
    text.push_str(",")?;
    text.push_str(one.as_str())?;
    Ok(())
}

// Appends a comma and each text.
fn push_behind(text: &mut Text, others: &[Text]) -> Result<(), AllocError>
    ensures { OnOk result (text.new ≡ text.old ++ flat_map (λ one. codes "," ++ one) others.now) }
{
    for one in others {
        push_one(text, one)?;
    }
    Ok(())
}

fn manifest_around(alloc: Global, config: &str, layers: &str) -> Result<Text, AllocError>
    ensures { IfOk result (λ text. text ≡ manifest_around config.now layers.now) }
{
    let text = [
        "{\"schemaVersion\":2,\"mediaType\":\"application/vnd.oci.image.manifest.v1+json\",\"config\":",
        config,
        ",\"layers\":[",
        layers,
        "]}",
    ]
    .concat(alloc)?;
    Text::new(alloc, text.as_str())
}

const CONFIG: &str = "{}";

/// Returns a manifest with these texts of descriptors, whose configuration is `{}`.
pub(crate) fn plain_manifest(alloc: Global, layers: &[Text]) -> Result<Text, AllocError>
    ensures { IfOk result (λ text. text ≡ plain_manifest layers.now) }
{
    let digest = sha256_digest(alloc, CONFIG.as_bytes())?;
    let media_type = "application/vnd.oci.image.config.v1+json";
    let config = descriptor_text(alloc, media_type, digest.as_str(), CONFIG.len(), "")?;
    let layers = joined(alloc, layers)?;
    manifest_around(alloc, config.as_str(), layers.as_str())
}

/// Returns the payload that the signature of an image signs.
#[tactic(auto, unfolding(crate::specs::Texts::payload_text))]
pub(crate) fn payload_text(alloc: Global, digest: &str) -> Result<Text, AllocError>
    ensures { IfOk result (λ text. text ≡ payload_text digest.now) }
{
    let text = [
        "{\"critical\":{\"identity\":{\"docker-reference\":\"localhost:5000/gen\"},",
        "\"image\":{\"docker-manifest-digest\":\"",
        digest,
        "\"},\"type\":\"cosign container image signature\"},\"optional\":null}",
    ]
    .concat(alloc)?;
    Text::new(alloc, text.as_str())
}

/// Returns the manifest of a payload, with its signature.
#[tactic(auto, unfolding(crate::specs::Texts::signatures_text))]
pub(crate) fn signatures_text(alloc: Global, payload: &str) -> Result<Text, AllocError>
    ensures { IfOk result (λ text. text ≡ signatures_text payload.now) }
{
    let digest = sha256_digest(alloc, payload.as_bytes())?;
    let media_type = "application/vnd.dev.cosign.simplesigning.v1+json";
    let note = ",\"annotations\":{\"dev.cosignproject.cosign/signature\":\"c2lnMQ==\"}";
    let layer = descriptor_text(alloc, media_type, digest.as_str(), payload.len(), note)?;
    let mut layers = List::new(alloc);
    layers.push(layer)?;
    plain_manifest(alloc, layers.as_slice())
}
