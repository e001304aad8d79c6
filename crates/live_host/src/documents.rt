// Sending the documents of an image.
ghost use Rattle.std.specs.Prelude.{◌≡◌, IfErr, OnOk};
ghost use Rattle.live_host.specs.Heads.{kind_name};
ghost use Rattle.live_host.specs.HostErrors.{GiveCause, TellCause};
ghost use Rattle.live_host.specs.Wire.{wire, SendsFrame};
ghost use Rattle.live_host.specs.Items.{WereTold, decided_sent, documents_sent, signature_sent};

use crate::heads::{pulled_head, signature_head};
use crate::items::{give_index, give_manifest};
use crate::streams::{HostError, Streams, tell};
use byte_streams::{Sink, Source};
use cosign_chain::VerifiedDocuments;
use cosign_parts::{LayerKind, SignatureLayer};
use std::alloc::Global;

// The name of a signature layer's form.
fn kind_name(kind: LayerKind) -> &'static str
    ensures { result.now ≡ kind_name kind }
{
    match kind {
        LayerKind::Payload => "payload",
        LayerKind::Bundle => "bundle",
    }
}

fn give_signature<S: Source, K: Sink>(
    alloc: Global,
    streams: &mut Streams<S, K>,
    layer: &SignatureLayer,
) -> Result<(), HostError>
    ensures told { OnOk result (SendsFrame (signature_sent layer.now).0 (signature_sent layer.now).1
        (wire S.state K.state streams.old) (wire S.state K.state streams.new)) }
    ensures cause { IfErr result (λ e. TellCause (signature_sent layer.now) e
        (wire S.state K.state streams.old) (wire S.state K.state streams.new)) }
{
    let head = signature_head(
        alloc,
        kind_name(layer.kind),
        &layer.oci_digest,
        &layer.annotations,
        &layer.content,
    )?;
    tell(alloc, streams, &head, layer.content.as_slice())?;
    Ok(())
}

/// Sends the documents of an image, and the signature layer that stands for its digest.
pub fn give_documents<S: Source, K: Sink>(
    alloc: Global,
    streams: &mut Streams<S, K>,
    documents: &VerifiedDocuments,
) -> Result<(), HostError>
    ensures told { OnOk result (WereTold (documents_sent documents.now)
        (wire S.state K.state streams.old) (wire S.state K.state streams.new)) }
    ensures cause { IfErr result (λ e. GiveCause (documents_sent documents.now) e
        (wire S.state K.state streams.old) (wire S.state K.state streams.new)) }
{
    give_index(alloc, streams, &documents.list_digest, &documents.first)?;
    give_manifest(
        alloc,
        streams,
        &documents.manifest_digest,
        &documents.manifest_bytes,
    )?;
    give_signature(alloc, streams, &documents.signature)?;
    Ok(())
}

/// Sends that the documents of an image were pulled, after which nothing is sent.
pub fn give_end<S: Source, K: Sink>(
    alloc: Global,
    streams: &mut Streams<S, K>,
    documents: &VerifiedDocuments,
) -> Result<(), HostError>
    ensures told { OnOk result (SendsFrame (decided_sent documents.now).0 (decided_sent documents.now).1
        (wire S.state K.state streams.old) (wire S.state K.state streams.new)) }
    ensures cause { IfErr result (λ e. TellCause (decided_sent documents.now) e
        (wire S.state K.state streams.old) (wire S.state K.state streams.new)) }
{
    let head = pulled_head(
        alloc,
        &documents.digest,
        &documents.manifest_digest,
        &documents.signature.oci_digest,
    )?;
    tell(alloc, streams, &head, &[])?;
    Ok(())
}
