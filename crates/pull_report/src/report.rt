// The report of a pull.
ghost use Rattle.std.specs.Prelude.{◌≡◌, ◌++◌, OnOk};
ghost use Rattle.pull_report.specs.Report.{image_lines, search_lines, refusal_lines, outcome_lines, report};

use crate::lines::{Line, print_line, text_line, write_lines};
use cosign_chain::VerifiedImage;
use cosign_parts::SignatureLayer;
use cosign_rows::{PullRefusal, Skipped};
use json_values::{Blob, write_decimal};
use oci_manifests::OciDescriptor;
use oci_transport::Exchange;
use std::alloc::{AllocError, Global};

impl Line for OciDescriptor {
    ghost use Rattle.pull_report.specs.Report.{layer_line};

    ghost line = { layer_line };

    fn write_line(&self, _alloc: Global, out: &mut Blob) -> Result<(), AllocError> {
        text_line(out, "layer", self.digest.as_str())
    }
}

impl Line for SignatureLayer {
    ghost use Rattle.pull_report.specs.Report.{collected_line};

    ghost line = { collected_line };

    fn write_line(&self, _alloc: Global, out: &mut Blob) -> Result<(), AllocError> {
        text_line(out, "collected", self.oci_digest.as_str())
    }
}

impl Line for Skipped {
    ghost use Rattle.pull_report.specs.Report.{skipped_line};

    ghost line = { skipped_line };

    fn write_line(&self, alloc: Global, out: &mut Blob) -> Result<(), AllocError> {
        print_line(alloc, out, "skipped", self)
    }
}

fn write_image(alloc: Global, out: &mut Blob, image: &VerifiedImage) -> Result<(), AllocError>
    ensures { OnOk result (out.new ≡ out.old ++ image_lines image.now) }
{
    text_line(out, "ok", image.digest.as_str())?;
    text_line(out, "manifest", image.manifest_digest.as_str())?;
    text_line(out, "config", image.manifest.config.digest.as_str())?;
    write_lines(alloc, out, image.manifest.layers.as_slice())?;
    text_line(out, "signature", image.signature.oci_digest.as_str())?;
    Ok(())
}

fn write_search(alloc: Global, out: &mut Blob, refusal: &PullRefusal) -> Result<(), AllocError>
    ensures { OnOk result (out.new ≡ out.old ++ search_lines refusal.now) }
{
    let PullRefusal::Unsatisfied {
        collected,
        skipped,
        ..
    } = refusal
    else {
        return Ok(());
    };
    write_lines(alloc, out, collected.as_slice())?;
    write_lines(alloc, out, skipped.as_slice())?;
    Ok(())
}

/// Appends the lines of an error to `out`: its print after `refused`, and for a search without a layer that satisfies
/// the policy what was collected and what was skipped.
pub fn write_refusal(alloc: Global, out: &mut Blob, refusal: &PullRefusal) -> Result<(), AllocError>
    ensures { OnOk result (out.new ≡ out.old ++ refusal_lines refusal.now) }
{
    print_line(alloc, out, "refused", refusal)?;
    write_search(alloc, out, refusal)?;
    Ok(())
}

/// Appends the lines of a result to `out`: those of the image, or those of the error.
pub fn write_outcome(
    alloc: Global,
    out: &mut Blob,
    outcome: &Result<VerifiedImage, PullRefusal>,
) -> Result<(), AllocError>
    ensures { OnOk result (out.new ≡ out.old ++ outcome_lines outcome.now) }
{
    match outcome {
        Ok(image) => write_image(alloc, out, image),
        Err(refusal) => write_refusal(alloc, out, refusal),
    }
}

/// Appends the report of a pull to `out`: its moment in seconds since 1970, a line for each exchange of its
/// conversation, and its result. If memory runs out, the bytes appended for it are unspecified.
pub fn write_report(
    alloc: Global,
    out: &mut Blob,
    moment: u64,
    conversation: &[Exchange],
    outcome: &Result<VerifiedImage, PullRefusal>,
) -> Result<(), AllocError>
    ensures { OnOk result (out.new ≡ out.old ++ report moment conversation.now outcome.now) }
{
    let digits = write_decimal(alloc, moment)?;
    text_line(out, "moment", digits.as_str())?;
    write_lines(alloc, out, conversation)?;
    write_outcome(alloc, out, outcome)?;
    Ok(())
}

/// Drops a result. If one is dropped beside other values, each of its many cases is proved with them again; here it
/// is alone.
pub fn drop_outcome(_outcome: Result<VerifiedImage, PullRefusal>) {}
