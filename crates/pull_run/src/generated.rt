// The pull of the generated image over its shelf.
ghost use Rattle.std.specs.Prelude.{◌≡◌, IfOk};
ghost use Rattle.cosign_laws.specs.Shelves.{OkOrMemory};
ghost use Rattle.byte_streams.specs.Source.{SourceState};
ghost use Rattle.pull_generated.specs.Terms.{IsCount};
ghost use Rattle.pull_run.specs.Generated.{generated_lines, WritesGenerated, Generated, GeneratedStatusMeans};

use crate::output::deliver;
use crate::status::Status;
use byte_streams::Sink;
use cosign_client::{PullRefusal, VerifiedImage};
use json_values::{Blob, write_decimal};
use oci_link::ShelfTransport;
use pull_generated::{generated_shelf, pull_generated};
use pull_report::{drop_outcome, text_line};
use pulled_cases::Report;
use std::alloc::{AllocError, Global};

// The lines of an image that took this number of requests.
fn lines(alloc: Global, requests: usize, image: &VerifiedImage) -> Result<Blob, AllocError>
    ensures { IfOk result (λ bytes. bytes ≡ generated_lines requests image.now) }
{
    let count = write_decimal(alloc, requests as u64)?;
    let layers = write_decimal(alloc, image.layers.as_slice().len() as u64)?;
    let mut bytes = Blob::empty(alloc);
    text_line(&mut bytes, "requests", count.as_str())?;
    text_line(&mut bytes, "layers", layers.as_str())?;
    text_line(&mut bytes, "ok", image.digest.as_str())?;
    Ok(bytes)
}

// The output of the pull, which fails only if memory runs out.
fn written(
    alloc: Global,
    requests: usize,
    outcome: &Result<VerifiedImage, PullRefusal>,
) -> Result<Report, AllocError>
    requires { OkOrMemory outcome.now }
    ensures { IfOk result (WritesGenerated requests outcome.now) }
{
    match outcome {
        Ok(image) => {
            let bytes = lines(alloc, requests, image)?;
            Ok(Report {
                bytes,
                refused: false,
            })
        }
        Err(refusal) if refusal.is_memory() => Err(AllocError),
        Err(_) => unreachable!(),
    }
}

// Pulls the image with `layers` layers over a new transport of its shelf, which has everything.
fn generated(alloc: Global, layers: u32) -> Result<Report, AllocError>
    requires { IsCount layers }
    ensures { IfOk result (Generated layers) }
{
    let shelf = generated_shelf(alloc, layers)?;
    let mut transport = ShelfTransport::new(alloc, shelf);
    let outcome = pull_generated(alloc, layers, &mut transport);
    let requests = transport.conversation().as_slice().len();
    let report = written(alloc, requests, &outcome);
    drop_outcome(outcome);
    report
}

/// Writes the output of the pull of the image with `layers` layers.
pub(crate) fn serve_generated<K: Sink>(alloc: Global, layers: u32, sink: &mut K) -> Status
    requires { IsCount layers }
    ensures { (source : SourceState)
        → GeneratedStatusMeans layers result source source (K.state sink.old) (K.state sink.new) }
{
    match generated(alloc, layers) {
        Ok(report) => deliver(sink, &report),
        Err(_) => Status::WantOfMemory,
    }
}
