// One pull of a case.
ghost use Rattle.std.specs.Prelude.{◌≡◌, false, IsErr, OnOk, IfOk, length, get_or};
ghost use Rattle.recorded_case.specs.Case.{IsReady};
ghost use Rattle.recorded_case.specs.Policy.{constraints_by};
ghost use Rattle.recorded_case.specs.Registry.{Leads};
ghost use Rattle.pulled_cases.specs.Opening.{ForCase};
ghost use Rattle.pulled_cases.specs.Once.{HasOneMoment, PulledOnce};
ghost use Rattle.pulled_cases.specs.Pulls.{is_wanting as wants_memory};

use crate::opening::{Opened, open_case};
use crate::pulls::{drop_both, is_wanting, pull_over};
use cosign_client::{PullRefusal, VerifiedImage};
use cosign_layers::Constraint;
use json_values::List;
use pull_report::drop_outcome;
use recorded_case::{Case, Replay, constraints_from};
use std::alloc::{AllocError, Global};

/// One pull: what it returned, and the registry with the conversation of the pull.
#[derive(Drop)]
pub struct OnePull {
    /// An error other than `WantOfMemory`, or the image.
    pub outcome: Result<VerifiedImage, PullRefusal>,
    /// Its `conversation()` is that of the pull.
    pub replay: Replay,
}

// The pull with its result, unless memory ran out in it.
fn unless_wanting(
    outcome: Result<VerifiedImage, PullRefusal>,
    replay: Replay,
) -> Result<OnePull, AllocError>
    ensures parts { IfOk result (λ made. (made.outcome ≡ outcome) × (made.replay ≡ replay)) }
    ensures whole { OnOk result (wants_memory outcome ≡ false) }
{
    if is_wanting(&outcome) {
        drop_outcome(outcome);
        return Err(AllocError);
    }
    Ok(OnePull { outcome, replay })
}

// The first moment; 0 if there is none.
fn first_of(moments: &[u64]) -> u64
    ensures { result ≡ get_or moments.now 0 0 }
{
    match moments.first() {
        Some(moment) => *moment,
        None => 0,
    }
}

// The pull of an opened case at its one moment.
fn pull_first(alloc: Global, opened: Opened) -> Result<OnePull, AllocError>
    requires leads { Leads opened.registry }
    requires one { length opened.moments ≡ 1 }
    ensures { ForCase opened (λ case. IfOk result (PulledOnce case)) }
{
    let Opened {
        mut client,
        terms,
        registry,
        moments,
    } = opened;
    let moment = first_of(moments.as_slice());
    let mut replay = Replay::new(alloc, registry);
    let outcome = pull_over(alloc, &mut client, &mut replay, &terms, moment);
    drop_both(client, terms);
    unless_wanting(outcome, replay)
}

// The pull of a case under these constraints.
fn pull_once_under(
    alloc: Global,
    constraints: List<Constraint>,
    case: Case,
) -> Result<OnePull, AllocError>
    requires ready { IsReady case }
    requires one { HasOneMoment case }
    requires constraints { constraints ≡ constraints_by case.constraints }
    ensures { IfOk result (PulledOnce case) }
{
    match open_case(alloc, constraints, case) {
        Ok(opened) => pull_first(alloc, opened),
        Err(_) => Err(AllocError),
    }
}

/// Pulls the image of a case at its one moment with a new client, over the responses of the case's registry. Returns
/// an error if memory runs out, also in the pull.
pub fn pull_once(alloc: Global, case: Case) -> Result<OnePull, AllocError>
    requires ready { IsReady case }
    requires one { HasOneMoment case }
    ensures { IfOk result (PulledOnce case) }
{
    match constraints_from(alloc, case.constraints.as_slice()) {
        Ok(constraints) => pull_once_under(alloc, constraints, case),
        Err(_) => without_memory(case),
    }
}

fn without_memory(_case: Case) -> Result<OnePull, AllocError>
    ensures { IsErr result }
{
    Err(AllocError)
}
