// Sending an image.
ghost use Rattle.std.specs.Prelude.{IfErr, OnOk};
ghost use Rattle.live_host.specs.HostErrors.{GiveCause, TellCause};
ghost use Rattle.live_host.specs.Wire.{wire, SendsFrame};
ghost use Rattle.live_host.specs.Items.{WereTold, blobs_sent, config_sent, image_sent};

use crate::heads::pulled_head;
use crate::items::{give, give_index, give_layers, give_manifest};
use crate::streams::{HostError, Streams, tell};
use byte_streams::{Sink, Source};
use cosign_chain::VerifiedImage;
use std::alloc::Global;

fn give_config<S: Source, K: Sink>(
    alloc: Global,
    streams: &mut Streams<S, K>,
    image: &VerifiedImage,
) -> Result<(), HostError>
    ensures told { OnOk result (SendsFrame (config_sent image.now).0 (config_sent image.now).1
        (wire S.state K.state streams.old) (wire S.state K.state streams.new)) }
    ensures cause { IfErr result (λ e. TellCause (config_sent image.now) e
        (wire S.state K.state streams.old) (wire S.state K.state streams.new)) }
{
    let config = &image.config;
    let digest = &image.manifest.config.digest;
    give(
        alloc,
        streams,
        "blob",
        "config",
        &config.media_type,
        digest,
        &config.content,
    )?;
    Ok(())
}

// The layers, if blobs are requested.
fn give_blobs<S: Source, K: Sink>(
    alloc: Global,
    streams: &mut Streams<S, K>,
    image: &VerifiedImage,
    blobs: bool,
) -> Result<(), HostError>
    ensures told { OnOk result (WereTold (blobs_sent blobs image.now) (wire S.state K.state streams.old)
        (wire S.state K.state streams.new)) }
    ensures cause { IfErr result (λ e. GiveCause (blobs_sent blobs image.now) e
        (wire S.state K.state streams.old) (wire S.state K.state streams.new)) }
{
    if !blobs {
        return Ok(());
    }
    let descriptors = image.manifest.layers.as_slice();
    give_layers(alloc, streams, descriptors, image.layers.as_slice())?;
    Ok(())
}

/// Sends the documents of an image, its configuration and, if `blobs`, its layers; then that it was pulled.
pub fn give_image<S: Source, K: Sink>(
    alloc: Global,
    streams: &mut Streams<S, K>,
    image: &VerifiedImage,
    blobs: bool,
) -> Result<(), HostError>
    ensures told { OnOk result
        (WereTold (image_sent blobs image.now) (wire S.state K.state streams.old) (wire S.state K.state streams.new)) }
    ensures cause { IfErr result (λ e. GiveCause (image_sent blobs image.now) e
        (wire S.state K.state streams.old) (wire S.state K.state streams.new)) }
{
    give_index(alloc, streams, &image.list_digest, &image.first)?;
    give_manifest(
        alloc,
        streams,
        &image.manifest_digest,
        &image.manifest_bytes,
    )?;
    give_config(alloc, streams, image)?;
    give_blobs(alloc, streams, image, blobs)?;
    let head = pulled_head(
        alloc,
        &image.digest,
        &image.manifest_digest,
        &image.signature.oci_digest,
    )?;
    tell(alloc, streams, &head, &[])?;
    Ok(())
}
