// The verdict that a decision about documents leads to.
ghost use Rattle.std.specs.Prelude.{◌≡◌, Err, IfOk};
ghost use Rattle.pull_report.specs.Prints.{refusal_print};
ghost use Rattle.live_admit.specs.Clients.{Gives};
ghost use Rattle.live_admit.specs.Decided.{VerdictOf};

use cosign_chain::VerifiedDocuments;
use cosign_client::PullRefusal;
use json_values::{Blob, Copied, Text};
use live_pull::Status;
use pod_reviews::{Denial, Verdict};
use pull_report::Printed;
use std::alloc::{AllocError, Global};

// The print of an error. Every print is UTF-8; if one were not, this would return an error, so that nothing is allowed.
fn refusal_text(alloc: Global, refusal: &PullRefusal) -> Result<Text, AllocError>
    ensures { IfOk result (λ text. text ≡ refusal_print refusal.now) }
{
    let mut print = Blob::empty(alloc);
    refusal.write_print(alloc, &mut print)?;
    match std::str::from_utf8(print.as_slice()) {
        Ok(text) => Text::new(alloc, text),
        Err(_) => Err(AllocError),
    }
}

fn refused(alloc: Global, refusal: &PullRefusal) -> Result<Verdict, AllocError>
    ensures { IfOk result (λ v. VerdictOf (Err refusal.now) v) }
{
    if refusal.is_memory() {
        return Err(AllocError);
    }
    let print = refusal_text(alloc, refusal)?;
    Ok(Verdict::Denied(Denial::Refused(print)))
}

fn judge(
    alloc: Global,
    outcome: &Result<VerifiedDocuments, PullRefusal>,
) -> Result<Verdict, AllocError>
    ensures { IfOk result (λ v. VerdictOf outcome.now v) }
{
    match outcome {
        Ok(documents) => {
            let digest = documents.digest.copy(alloc)?;
            Ok(Verdict::Allowed(digest))
        }
        Err(refusal) => refused(alloc, refusal),
    }
}

/// Returns the verdict that documents, or an error, lead to, unless memory ran out.
pub(crate) fn verdict_of(
    alloc: Global,
    outcome: &Result<VerifiedDocuments, PullRefusal>,
) -> Result<Verdict, Status>
    ensures { Gives (VerdictOf outcome.now) (λ e. ⊥) result }
{
    let Ok(verdict) = judge(alloc, outcome) else {
        return Err(Status::WantOfMemory);
    };
    Ok(verdict)
}
