// The pulls of a case.
ghost use Rattle.std.specs.Prelude.{◌≡◌, ◌++◌, ◌||◌, false, not, IsErr, IfOk, OnOk};
ghost use Rattle.oci_protocol.specs.Runs.{Meets};
ghost use Rattle.cosign_rows.specs.Refusal.{is_memory};
ghost use Rattle.cosign_client.specs.State.{client_state};
ghost use Rattle.recorded_case.specs.Case.{IsReady};
ghost use Rattle.recorded_case.specs.Policy.{constraints_by};
ghost use Rattle.recorded_case.specs.Registry.{Leads};
ghost use Rattle.recorded_case.specs.Replay.{FaultsOnlyWhereRecorded, state_of};
ghost use Rattle.pull_report.specs.Report.{report as lines_of};
ghost use Rattle.pulled_cases.specs.Opening.{ForCase};
ghost use Rattle.pulled_cases.specs.Pulls.{is_answered, is_wanting, ReportsCase};
ghost use Rattle.pulled_cases.specs.PullsAt.{row_for, OneMorePull, Replayed};

use crate::opening::{Opened, Terms, open_case};
use crate::report::Report;
use cosign_client::{Client, PullRefusal, VerifiedImage};
use cosign_layers::Constraint;
use json_values::{Blob, List};
use oci_transport::Exchange;
use pull_report::{drop_outcome, write_report};
use recorded_case::{Case, Registry, Replay, constraints_from};
use std::alloc::{AllocError, Global};

/// Returns whether memory ran out.
pub fn is_wanting(outcome: &Result<VerifiedImage, PullRefusal>) -> bool
    ensures { result ≡ is_wanting outcome.now }
{
    match outcome {
        Ok(_) => false,
        Err(refusal) => refusal.is_memory(),
    }
}

// Appends the report of a pull, unless memory ran out in it.
fn add_report(
    alloc: Global,
    report: &mut Report,
    moment: u64,
    conversation: &[Exchange],
    outcome: &Result<VerifiedImage, PullRefusal>,
) -> Result<(), AllocError>
    ensures bytes { OnOk result
        (report.new.bytes ≡ report.old.bytes ++ lines_of moment conversation.now outcome.now) }
    ensures refused { OnOk result
        (report.new.refused ≡ (report.old.refused || not (is_answered outcome.now))) }
    ensures whole { OnOk result (is_wanting outcome.now ≡ false) }
{
    if is_wanting(outcome) {
        return Err(AllocError);
    }
    write_report(alloc, &mut report.bytes, moment, conversation, outcome)?;
    report.refused = report.refused || outcome.is_err();
    Ok(())
}

/// One pull by these terms over a replay, whose conversation it extends. Returns the image, or the error of
/// `Client::verified_pull`.
pub fn pull_over(
    alloc: Global,
    client: &mut Client,
    replay: &mut Replay,
    terms: &Terms,
    moment: u64,
) -> Result<VerifiedImage, PullRefusal>
    ensures run { Meets is_memory (row_for (λ b. accepts (b.vtable, b.value)) terms.now
        (client_state client.old).settings client.old.rekor_pub_keys moment)
        (state_of replay.old) (state_of replay.new) (client_state client.old).kept (client_state client.new).kept
        result }
    ensures settings { (client_state client.new).settings ≡ (client_state client.old).settings }
    ensures log_keys { client.new.rekor_pub_keys ≡ client.old.rekor_pub_keys }
{
    client.verified_pull(
        alloc,
        replay,
        moment,
        &terms.image,
        &terms.auth,
        terms.accepted.as_slice(),
        &terms.policy,
        &terms.verifier,
        &terms.judge,
    )
}

// One pull, whose report is appended.
fn pull_at(
    alloc: Global,
    client: &mut Client,
    replay: &mut Replay,
    terms: &Terms,
    moment: u64,
    report: &mut Report,
) -> Result<(), AllocError>
    ensures round { OnOk result (OneMorePull (row_for (λ b. accepts (b.vtable, b.value)) terms.now
        (client_state client.old).settings client.old.rekor_pub_keys)
        moment (state_of replay.old) (state_of replay.new)
        (client_state client.old).kept (client_state client.new).kept report.old report.new) }
    ensures settings { (client_state client.new).settings ≡ (client_state client.old).settings }
    ensures log_keys { client.new.rekor_pub_keys ≡ client.old.rekor_pub_keys }
    ensures faults_recorded { OnOk result (FaultsOnlyWhereRecorded replay.new) }
{
    let before = replay.conversation().as_slice().len();
    let outcome = pull_over(alloc, client, replay, terms, moment);
    let conversation = replay.conversation().as_slice();
    let added = add_report(alloc, report, moment, &conversation[before..], &outcome);
    drop_outcome(outcome);
    added
}

// One pull at each moment, in order, over the responses of this registry.
fn pull_each(
    alloc: Global,
    client: &mut Client,
    registry: Registry,
    terms: &Terms,
    moments: &[u64],
) -> Result<Report, AllocError>
    requires { Leads registry }
    ensures { IfOk result (Replayed (row_for (λ b. accepts (b.vtable, b.value)) terms.now
        (client_state client.old).settings client.old.rekor_pub_keys)
        registry moments.now (client_state client.old).kept (client_state client.new).kept) }
{
    let mut replay = Replay::new(alloc, registry);
    let mut report = Report {
        bytes: Blob::empty(alloc),
        refused: false,
    };
    for moment in moments {
        pull_at(alloc, client, &mut replay, terms, *moment, &mut report)?;
    }
    Ok(report)
}

// The pulls of an opened case.
fn pull_opened(alloc: Global, opened: Opened) -> Result<Report, AllocError>
    requires { Leads opened.registry }
    ensures { ForCase opened (λ case. IfOk result (ReportsCase case)) }
{
    let Opened {
        mut client,
        terms,
        registry,
        moments,
    } = opened;
    let report = pull_each(alloc, &mut client, registry, &terms, moments.as_slice());
    drop_both(client, terms);
    report
}

// The pulls of a case under these constraints.
fn pull_under(
    alloc: Global,
    constraints: List<Constraint>,
    case: Case,
) -> Result<Report, AllocError>
    requires ready { IsReady case }
    requires constraints { constraints ≡ constraints_by case.constraints }
    ensures { IfOk result (ReportsCase case) }
{
    match open_case(alloc, constraints, case) {
        Ok(opened) => pull_opened(alloc, opened),
        Err(_) => Err(AllocError),
    }
}

/// Performs the pulls of a case over the responses of its registry, and writes their report.
pub fn pull_case(alloc: Global, case: Case) -> Result<Report, AllocError>
    requires { IsReady case }
    ensures { IfOk result (ReportsCase case) }
{
    match constraints_from(alloc, case.constraints.as_slice()) {
        Ok(constraints) => pull_under(alloc, constraints, case),
        Err(_) => without_memory(case),
    }
}

fn without_memory(_case: Case) -> Result<Report, AllocError>
    ensures { IsErr result }
{
    Err(AllocError)
}

/// Drops both in a function without other facts, so that each of their many parts is dropped once.
pub fn drop_both(_client: Client, _terms: Terms) {}
