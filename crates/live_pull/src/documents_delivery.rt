// How the result of a pull of documents is sent.
ghost use Rattle.std.specs.Prelude.{◌≡◌, Ok, Err, IfErr, OnOk};
ghost use Rattle.live_host.specs.Wire.{wire};
ghost use Rattle.live_pull.specs.Parts.{DeliversBy};
ghost use Rattle.live_pull.specs.Course.{DocumentsCut, DocumentsTold};

use crate::{Status, deliver_refusal};
use byte_streams::{Sink, Source};
use cosign_chain::VerifiedDocuments;
use cosign_client::PullRefusal;
use live_host::{HostError, Streams, give_documents, give_end};
use std::alloc::Global;

/// Sends documents, the signature layer that stands for their digest, and that they were pulled.
pub fn give_decided<S: Source, K: Sink>(
    alloc: Global,
    streams: &mut Streams<S, K>,
    documents: &VerifiedDocuments,
) -> Result<(), HostError>
    ensures told { OnOk result (DocumentsTold (Ok documents.now)
        (wire S.state K.state streams.old) (wire S.state K.state streams.new)) }
    ensures cause { IfErr result (λ e. DocumentsCut (Ok documents.now) e
        (wire S.state K.state streams.old) (wire S.state K.state streams.new)) }
{
    give_documents(alloc, streams, documents)?;
    give_end(alloc, streams, documents)?;
    Ok(())
}

fn deliver_documents<S: Source, K: Sink>(
    alloc: Global,
    streams: &mut Streams<S, K>,
    documents: &VerifiedDocuments,
) -> Status
    ensures { DeliversBy DocumentsTold DocumentsCut (Ok documents.now) result
        (wire S.state K.state streams.old) (wire S.state K.state streams.new) }
{
    match give_decided(alloc, streams, documents) {
        Ok(()) => Status::Pulled,
        Err(error) => Status::from(error),
    }
}

/// Sends why no documents were pulled, unless memory ran out. Returns the exit status.
pub fn deliver_error<S: Source, K: Sink>(
    alloc: Global,
    streams: &mut Streams<S, K>,
    refusal: &PullRefusal,
) -> Status
    ensures { DeliversBy DocumentsTold DocumentsCut (Err refusal.now) result
        (wire S.state K.state streams.old) (wire S.state K.state streams.new) }
{
    deliver_refusal(alloc, streams, refusal)
}

/// Sends the result of a pull of documents, unless memory ran out. Returns the exit status.
pub(crate) fn deliver<S: Source, K: Sink>(
    alloc: Global,
    streams: &mut Streams<S, K>,
    outcome: &Result<VerifiedDocuments, PullRefusal>,
) -> Status
    ensures { DeliversBy DocumentsTold DocumentsCut outcome.now result
        (wire S.state K.state streams.old) (wire S.state K.state streams.new) }
{
    match outcome {
        Ok(documents) => deliver_documents(alloc, streams, documents),
        Err(refusal) => deliver_error(alloc, streams, refusal),
    }
}
