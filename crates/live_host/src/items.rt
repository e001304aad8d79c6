// Sending the parts of an image.
ghost use Rattle.std.specs.Prelude.{IfErr, OnOk, length};
ghost use Rattle.live_host.specs.Heads.{item_head as head_of_item};
ghost use Rattle.live_host.specs.HostErrors.{GiveCause, TellCause};
ghost use Rattle.live_host.specs.Wire.{wire, SendsFrame};
ghost use Rattle.live_host.specs.Items.{WereTold, codes_document, document, index_sent, item, layers_sent, manifest_sent};
ghost use Rattle.live_host.specs.Items.{media_type_of};

use crate::heads::item_head;
use crate::media_type::media_type_of;
use crate::streams::{HostError, Streams, tell};
use byte_streams::{Sink, Source};
use json_values::{Blob, Text};
use oci_manifests::{ImageLayer, OciDescriptor};
use std::alloc::Global;

const INDEX_TYPE: &str = "application/vnd.oci.image.index.v1+json";

const MANIFEST_TYPE: &str = "application/vnd.oci.image.manifest.v1+json";

/// Sends bytes of an image under their digest.
pub(crate) fn give<S: Source, K: Sink>(
    alloc: Global,
    streams: &mut Streams<S, K>,
    frame: &str,
    kind: &str,
    media_type: &Text,
    digest: &Text,
    bytes: &Blob,
) -> Result<(), HostError>
    ensures told { OnOk result (SendsFrame
        (head_of_item frame.now kind.now media_type.now digest.now (length bytes.now)) bytes.now
        (wire S.state K.state streams.old) (wire S.state K.state streams.new)) }
    ensures cause { IfErr result (λ e. TellCause
        (item frame.now kind.now media_type.now digest.now bytes.now) e
        (wire S.state K.state streams.old) (wire S.state K.state streams.new)) }
{
    let head = item_head(alloc, frame, kind, media_type, digest, bytes)?;
    tell(alloc, streams, &head, bytes.as_slice())?;
    Ok(())
}

/// Sends a document under its digest, with the media type that it has, or the default.
pub(crate) fn give_document<S: Source, K: Sink>(
    alloc: Global,
    streams: &mut Streams<S, K>,
    kind: &str,
    usual: &str,
    digest: &Text,
    bytes: &Blob,
) -> Result<(), HostError>
    ensures told { OnOk result (SendsFrame
        (head_of_item codes_document kind.now (media_type_of usual.now bytes.now) digest.now (length bytes.now))
        bytes.now (wire S.state K.state streams.old) (wire S.state K.state streams.new)) }
    ensures cause { IfErr result (λ e. TellCause (document kind.now usual.now digest.now bytes.now) e
        (wire S.state K.state streams.old) (wire S.state K.state streams.new)) }
{
    let media_type = media_type_of(alloc, usual, bytes.as_slice())?;
    give(alloc, streams, "document", kind, &media_type, digest, bytes)?;
    Ok(())
}

/// Sends the index, if one led to the manifest.
pub(crate) fn give_index<S: Source, K: Sink>(
    alloc: Global,
    streams: &mut Streams<S, K>,
    list: &Option<Text>,
    bytes: &Blob,
) -> Result<(), HostError>
    ensures told { OnOk result (WereTold (index_sent list.now bytes.now)
        (wire S.state K.state streams.old) (wire S.state K.state streams.new)) }
    ensures cause { IfErr result (λ e. GiveCause (index_sent list.now bytes.now) e
        (wire S.state K.state streams.old) (wire S.state K.state streams.new)) }
{
    let Some(digest) = list else {
        return Ok(());
    };
    give_document(alloc, streams, "index", INDEX_TYPE, digest, bytes)?;
    Ok(())
}

/// Sends the manifest.
pub(crate) fn give_manifest<S: Source, K: Sink>(
    alloc: Global,
    streams: &mut Streams<S, K>,
    digest: &Text,
    bytes: &Blob,
) -> Result<(), HostError>
    ensures told { OnOk result (SendsFrame (manifest_sent digest.now bytes.now).0 (manifest_sent digest.now bytes.now).1
        (wire S.state K.state streams.old) (wire S.state K.state streams.new)) }
    ensures cause { IfErr result (λ e. TellCause (manifest_sent digest.now bytes.now) e
        (wire S.state K.state streams.old) (wire S.state K.state streams.new)) }
{
    give_document(alloc, streams, "manifest", MANIFEST_TYPE, digest, bytes)?;
    Ok(())
}

/// Sends each layer under the digest of its descriptor.
pub(crate) fn give_layers<S: Source, K: Sink>(
    alloc: Global,
    streams: &mut Streams<S, K>,
    descriptors: &[OciDescriptor],
    layers: &[ImageLayer],
) -> Result<(), HostError>
    ensures told { OnOk result
        (WereTold (layers_sent descriptors.now layers.now) (wire S.state K.state streams.old)
        (wire S.state K.state streams.new)) }
    ensures cause { IfErr result (λ e. GiveCause (layers_sent descriptors.now layers.now) e
        (wire S.state K.state streams.old) (wire S.state K.state streams.new)) }
{
    let mut named = descriptors;
    let mut rest = layers;
    while let (Some((descriptor, more)), Some((layer, others))) = (
        named.split_first(),
        rest.split_first(),
    ) {
        give(
            alloc,
            streams,
            "blob",
            "layer",
            &layer.media_type,
            &descriptor.digest,
            &layer.content,
        )?;
        named = more;
        rest = others;
    }
    Ok(())
}
