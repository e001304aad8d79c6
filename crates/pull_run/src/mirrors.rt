// A mirror of a case's image, over the responses of two recorded registries.
ghost use Rattle.std.specs.Prelude.{◌≡◌, false, length, Ok, Err, IfOk, IsErr};
ghost use Rattle.cosign_client.specs.State.{client_state};
ghost use Rattle.recorded_case.specs.Case.{IsReady};
ghost use Rattle.recorded_case.specs.Policy.{constraints_by};
ghost use Rattle.recorded_case.specs.Registry.{Leads};
ghost use Rattle.pulled_cases.specs.Opening.{Opens};
ghost use Rattle.pulled_cases.specs.PullsAt.{row_for};
ghost use Rattle.pull_run.specs.MirrorInput.{IsForMirror};
ghost use Rattle.pull_run.specs.Mirrors.{ReportsOver};
ghost use Rattle.pull_run.specs.Replayed.{PullsOver};
ghost use Rattle.pull_run.specs.Reports.{ReportsMirror};
ghost use Rattle.pull_run.specs.Targets.{OpensTarget, side_of};
ghost use Rattle.recorded_case.specs.declared.case.Case.{Case};
ghost use Rattle.pull_run.specs.declared.mirror_input.Target.{Target};

use crate::mirror_input::MirrorInput;
use crate::mirror_output::report_outcome;
use crate::target::{OpenedTarget, open_target};
use cosign_client::Client;
use cosign_layers::Constraint;
use json_values::List;
use oci_engine::Client as TargetClient;
use pull_mirror::mirror;
use pulled_cases::{Opened, Report, Terms, open_case};
use recorded_case::{Case, Registry, Replay, constraints_from};
use sig_registry::{Auth, OciReference};
use std::alloc::{AllocError, Global};

// Drops a client with its terms in a function without other facts.
fn drop_both(_client: Client, _terms: Terms) {}

// The same for the parts of a target.
fn drop_target(_client: TargetClient, _image: OciReference, _auth: Auth) {}

// The mirror by these clients over the responses of these registries.
fn mirror_over(
    alloc: Global,
    client: &mut Client,
    registry: Registry,
    terms: &Terms,
    moment: u64,
    target: OpenedTarget,
) -> Result<Report, AllocError>
    requires { Leads registry }
    ensures { IfOk result (ReportsOver (PullsOver (row_for (λ b. accepts (b.vtable, b.value)) terms.now
        (client_state client.old).settings client.old.rekor_pub_keys moment) registry (client_state client.old).kept)
        (side_of target moment) moment) }
{
    let OpenedTarget {
        client: mut target_client,
        image,
        auth,
        answers,
    } = target;
    let mut source = Replay::new(alloc, registry);
    let mut replay = Replay::new(alloc, Registry::Answers(answers));
    let outcome = mirror(
        alloc,
        client,
        &mut source,
        moment,
        &terms.image,
        &terms.auth,
        terms.accepted.as_slice(),
        &terms.policy,
        &terms.verifier,
        &terms.judge,
        &mut target_client,
        &mut replay,
        &image,
        &auth,
    );
    drop_target(target_client, image, auth);
    let pull = source.conversation();
    let pushes = replay.conversation();
    report_outcome(alloc, moment, pull.as_slice(), pushes.as_slice(), outcome)
}

// The mirror of an opened case to an opened target.
fn mirror_opened(alloc: Global, opened: Opened, target: OpenedTarget) -> Result<Report, AllocError>
    requires leads { Leads opened.registry }
    requires once { length opened.moments ≡ 1 }
    ensures { (case : Case) → Opens case opened → (to : Target) → OpensTarget to target
        → IfOk result (ReportsMirror (record { case = case; target = to })) }
{
    let Opened {
        mut client,
        terms,
        registry,
        moments,
    } = opened;
    let moment = moments.as_slice()[0];
    let report = mirror_over(alloc, &mut client, registry, &terms, moment, target);
    drop_both(client, terms);
    report
}

// The mirror of a case, under these constraints, to an opened target.
fn mirror_from(
    alloc: Global,
    constraints: List<Constraint>,
    case: Case,
    target: OpenedTarget,
) -> Result<Report, AllocError>
    requires ready { IsReady case }
    requires once { length case.moments ≡ 1 }
    requires constraints { constraints ≡ constraints_by case.constraints }
    ensures { (to : Target) → OpensTarget to target
        → IfOk result (ReportsMirror (record { case = case; target = to })) }
{
    match open_case(alloc, constraints, case) {
        Ok(opened) => mirror_opened(alloc, opened, target),
        Err(_) => without_target(target),
    }
}

fn without_target(_target: OpenedTarget) -> Result<Report, AllocError>
    ensures { IsErr result }
{
    Err(AllocError)
}

// The mirror of an input under these constraints, which are its case's.
fn mirror_under(
    alloc: Global,
    constraints: List<Constraint>,
    input: MirrorInput,
) -> Result<Report, AllocError>
    requires ready { IsForMirror input }
    requires constraints { constraints ≡ constraints_by input.case.constraints }
    ensures { IfOk result (ReportsMirror input) }
{
    let MirrorInput { case, target } = input;
    match open_target(alloc, target) {
        Ok(target) => mirror_from(alloc, constraints, case, target),
        Err(_) => without_case(constraints, case),
    }
}

fn without_case(_constraints: List<Constraint>, _case: Case) -> Result<Report, AllocError>
    ensures { IsErr result }
{
    Err(AllocError)
}

/// Pulls the image of a case, pushes its bytes and its signature to the target, over the responses of the registries of
/// both, and writes the report: that of the pull, then each request to the target, then each digest that was pushed and
/// where the image is now. If the target refuses a push, the last line says which and why; if the pull is refused, the
/// report is that of the pull alone; if the target's reference is refused, nothing is requested, and one line says so.
pub fn mirror_case(alloc: Global, input: MirrorInput) -> Result<Report, AllocError>
    requires { IsForMirror input }
    ensures { IfOk result (ReportsMirror input) }
{
    match constraints_from(alloc, input.case.constraints.as_slice()) {
        Ok(constraints) => mirror_under(alloc, constraints, input),
        Err(_) => without_memory(input),
    }
}

fn without_memory(_input: MirrorInput) -> Result<Report, AllocError>
    ensures { IsErr result }
{
    Err(AllocError)
}
