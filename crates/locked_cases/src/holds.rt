// Whether a written chain holds.
ghost use Rattle.std.specs.Prelude.{◌≡◌, ◌↔◌, IfOk, IsOk, IsTrue, Ok, option_copied};
ghost use Rattle.oci_names.specs.Reference.{reference_of};
ghost use Rattle.cosign_layers.specs.Satisfying.{policy_context};
ghost use Rattle.cosign_parts.specs.Trust.{trust};
ghost use Rattle.cosign_parts.specs.Judge.{vouched_in};
ghost use Rattle.cosign_parts.specs.Verifier.{valid_in};
ghost use Rattle.recorded_case.specs.Case.{IsReady};
ghost use Rattle.locked_cases.specs.Holds.{Holds, HoldsUnder};

use crate::built::image_of;
use crate::chain_input::{ChainInput, WrittenChain};
use cosign_chain::check_chain;
use cosign_layers::{Constraint, PullPolicy};
use cosign_parts::{LogKeys, TableJudge, TableVerifier};
use json_values::{List, Text};
use oci_manifests::{PlatformResolver, ResolverPromise};
use oci_names::{ParseError, Reference};
use recorded_case::{Case, constraints_from};
use std::alloc::{AllocError, Global};

// The terms that a chain is checked against.
#[derive(Drop)]
struct Terms {
    image: Reference,
    accepted: List<Text>,
    platform: Option<PlatformResolver>,
    policy: PullPolicy,
    log_keys: LogKeys,
    verifier: TableVerifier,
    judge: TableJudge,
}

// The reference that a text parses as.
fn image_in(alloc: Global, text: &str) -> Result<Reference, AllocError>
    requires { IsOk (reference_of text.now) }
    ensures { IfOk result (λ image. reference_of text.now ≡ Ok image) }
{
    match Reference::parse(alloc, text) {
        Ok(image) => Ok(image),
        Err(ParseError::WantOfMemory) => Err(AllocError),
        Err(_) => unreachable!(),
    }
}

// The promise of a resolver, if there is one.
fn promise_of(platform: &Option<PlatformResolver>) -> Option<&ResolverPromise>
    ensures { option_copied result ≡ platform.now }
{
    match platform {
        Some(resolver) => Some(resolver.promise()),
        None => None,
    }
}

// Whether an image can be built from what is written, and its chain holds under these terms.
fn holds_under(alloc: Global, terms: &Terms, chain: &WrittenChain) -> Result<bool, AllocError>
    ensures { IfOk result (λ holds. IsTrue holds ↔ HoldsUnder
        (policy_context terms.now.policy (λ b. accepts (b.vtable, b.value))
        (trust (valid_in terms.now.verifier) (vouched_in terms.now.judge) terms.now.log_keys))
        terms.now.image terms.now.accepted terms.now.platform chain.now) }
{
    let found = image_of(alloc, &terms.log_keys, &terms.verifier, &terms.judge, chain)?;
    let Some(found) = found else {
        return Ok(false);
    };
    let promise = promise_of(&terms.platform);
    check_chain(
        alloc,
        &terms.image,
        terms.accepted.as_slice(),
        promise,
        &terms.policy,
        &terms.log_keys,
        &terms.verifier,
        &terms.judge,
        &found,
    )
}

fn terms_in(case: Case, image: Reference, constraints: List<Constraint>) -> Terms
    ensures { result ≡ record {
      image = image;
      accepted = case.accepted;
      platform = case.platform;
      policy = record { keys = case.keys; constraints = constraints };
      log_keys = case.log_keys;
      verifier = record { rows = case.signatures };
      judge = case.vouched;
    } }
{
    Terms {
        image,
        accepted: case.accepted,
        platform: case.platform,
        policy: PullPolicy {
            keys: case.keys,
            constraints,
        },
        log_keys: case.log_keys,
        verifier: TableVerifier {
            rows: case.signatures,
        },
        judge: case.vouched,
    }
}

// Drops both in a function without other facts, so that each of their many parts is dropped once.
fn drop_both(_terms: Terms, _chain: WrittenChain) {}

/// Returns whether the written chain holds: whether an image can be built from it for which `check_chain` returns true
/// under the policy, the tables, the keys of logs, the accepted media types and the platform of the case.
pub fn chain_holds(alloc: Global, input: ChainInput) -> Result<bool, AllocError>
    requires { IsReady input.case }
    ensures { IfOk result (λ holds. IsTrue holds ↔ Holds input) }
{
    let image = image_in(alloc, input.case.reference.as_str())?;
    let constraints = constraints_from(alloc, input.case.constraints.as_slice())?;
    let ChainInput { case, chain } = input;
    let terms = terms_in(case, image, constraints);
    let held = holds_under(alloc, &terms, &chain);
    drop_both(terms, chain);
    held
}
