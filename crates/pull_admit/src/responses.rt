// The response to a review over the responses of a recorded registry.
ghost use Rattle.std.specs.Prelude.{◌≡◌, false, length, IfOk, IsErr};
ghost use Rattle.recorded_case.specs.Policy.{constraints_by};
ghost use Rattle.recorded_case.specs.Registry.{Leads};
ghost use Rattle.cosign_client.specs.State.{client_state};
ghost use Rattle.pulled_cases.specs.Opening.{Opens};
ghost use Rattle.pull_admit.specs.Input.{IsForReview};
ghost use Rattle.pull_admit.specs.ReviewResponses.{IsResponse, ReportsReview};
ghost use Rattle.pull_admit.specs.Replayed.{RespondsOver, terms_for};
ghost use Rattle.recorded_case.specs.declared.case.Case.{Case};

use crate::input::ReviewInput;
use crate::{Decision, Review, all_allowed, response, review};
use cosign_client::Client;
use cosign_layers::Constraint;
use json_values::{Blob, List};
use pulled_cases::{Opened, Report, Terms, open_case};
use recorded_case::{Registry, Replay, constraints_from};
use std::alloc::{AllocError, Global};

// The response with a line feed.
fn respond(alloc: Global, asked: &Review, decisions: &List<Decision>) -> Result<Report, AllocError>
    requires { length decisions.now ≡ length asked.now.images }
    ensures { IfOk result (IsResponse asked.now decisions.now) }
{
    let text = response(alloc, asked, decisions)?;
    let mut bytes = Blob::new(alloc, text.as_str().as_bytes())?;
    bytes.append("\n".as_bytes())?;
    Ok(Report {
        bytes,
        refused: !all_allowed(decisions.as_slice()),
    })
}

// Drops the decisions, which hold whole images, in a function without other facts.
fn drop_decisions(_decisions: List<Decision>) {}

// The same for a client and its terms.
fn drop_both(_client: Client, _terms: Terms) {}

// The response to a review over the responses of this registry.
fn review_over(
    alloc: Global,
    client: &mut Client,
    registry: Registry,
    terms: &Terms,
    moment: u64,
    asked: &Review,
) -> Result<Report, AllocError>
    requires { Leads registry }
    ensures { IfOk result (RespondsOver (terms_for (λ b. accepts (b.vtable, b.value)) terms.now
        client.old.rekor_pub_keys (client_state client.old).settings moment) registry
        (client_state client.old).kept asked.now) }
{
    let mut replay = Replay::new(alloc, registry);
    let decisions = review(
        alloc,
        client,
        &mut replay,
        moment,
        &terms.auth,
        terms.accepted.as_slice(),
        &terms.policy,
        &terms.verifier,
        &terms.judge,
        asked.images.as_slice(),
    )?;
    let _calm = replay.conversation();
    let report = respond(alloc, asked, &decisions);
    drop_decisions(decisions);
    report
}

// The response to a review by these settings.
fn review_opened(alloc: Global, opened: Opened, asked: &Review) -> Result<Report, AllocError>
    requires leads { Leads opened.registry }
    requires once { length opened.moments ≡ 1 }
    ensures { (case : Case) → case.caching ≡ false → Opens case opened
        → IfOk result (ReportsReview (record { settings = case; review = asked.now })) }
{
    let Opened {
        mut client,
        terms,
        registry,
        moments,
    } = opened;
    let moment = moments.as_slice()[0];
    let report = review_over(alloc, &mut client, registry, &terms, moment, asked);
    drop_both(client, terms);
    report
}

// The response to a review by its settings, under these constraints.
fn review_under(
    alloc: Global,
    constraints: List<Constraint>,
    input: ReviewInput,
) -> Result<Report, AllocError>
    requires ready { IsForReview input }
    requires constraints { constraints ≡ constraints_by input.settings.constraints }
    ensures { IfOk result (ReportsReview input) }
{
    let ReviewInput { settings, review } = input;
    match open_case(alloc, constraints, settings) {
        Ok(opened) => review_opened(alloc, opened, &review),
        Err(_) => Err(AllocError),
    }
}

/// Decides about the images of a review over the responses of the registry of its settings, and writes the response
/// with a line feed. It is refused if an image is denied.
pub fn review_case(alloc: Global, input: ReviewInput) -> Result<Report, AllocError>
    requires { IsForReview input }
    ensures { IfOk result (ReportsReview input) }
{
    match constraints_from(alloc, input.settings.constraints.as_slice()) {
        Ok(constraints) => review_under(alloc, constraints, input),
        Err(_) => without_memory(input),
    }
}

fn without_memory(_input: ReviewInput) -> Result<Report, AllocError>
    ensures { IsErr result }
{
    Err(AllocError)
}
