// The pull of the generated image.
ghost use Rattle.std.specs.Prelude.{◌≡◌, None, IfOk, IfErr};
ghost use Rattle.oci_auth.specs.declared.auth.RegistryAuth.TheVariants.{Anonymous};
ghost use Rattle.oci_protocol.specs.Runs.{Told};
ghost use Rattle.cosign_chain.specs.Chain.{Chain};
ghost use Rattle.cosign_chain.specs.Links.{Links};
ghost use Rattle.registry_calls.specs.Error.{FaultCounted, NoSinkFault};
ghost use Rattle.cosign_rows.specs.Refusal.{client_refusal};
ghost use Rattle.cosign_rows.specs.Skips.{CountsFaults, HoldsNoMemoryNorSink, OnSkipped};
ghost use Rattle.cosign_laws.specs.Shelves.{AnswersFrom, OkOrMemory};
ghost use Rattle.cosign_rows.specs.Sound.{Backed};
ghost use Rattle.pull_generated.specs.Shelf.{generated_shelf, HasTwoDigests};
ghost use Rattle.pull_generated.specs.Terms.{generated_context, fresh, generated_reference};
ghost use Rattle.pull_generated.specs.Terms.{generated_types, generated_meaning, PullsGenerated, IsCaused, IsConfined, IsCount};

use crate::terms::{fresh_client, terms_for};
use cosign_client::{PullRefusal, VerifiedImage};
use cosign_parts::NoCertificates;
use oci_transport::Transport;
use sig_registry::Auth;
use std::alloc::Global;

// The same, with the row that it performs and its results over the shelf.
fn pulled<T: Transport>(
    alloc: Global,
    layers: u32,
    transport: &mut T,
) -> Result<VerifiedImage, PullRefusal>
    ensures run { PullsGenerated layers (T.state transport.old) (T.state transport.new) result }
    ensures completes { IsCount layers → HasTwoDigests layers
        → AnswersFrom (generated_shelf layers) (T.state transport.old) → OkOrMemory result }
{
    let terms = terms_for(alloc, layers)?;
    let mut client = fresh_client(alloc)?;
    client.verified_pull(
        alloc,
        transport,
        100,
        &terms.image,
        &Auth::Anonymous,
        terms.accepted.as_slice(),
        &terms.policy,
        &terms.verifier,
        &NoCertificates,
    )
}

/// Pulls the generated image with `layers` layers over this transport with a new client: `localhost:5000/gen:v1` over
/// `http`, without credentials, at the moment 100. The policy has one key, `k1`, and one signature is valid: the one on
/// the image's shelf.
pub fn pull_generated<T: Transport>(
    alloc: Global,
    layers: u32,
    transport: &mut T,
) -> Result<VerifiedImage, PullRefusal>
    ensures run { PullsGenerated layers (T.state transport.old) (T.state transport.new) result }
    ensures completes { IsCount layers → HasTwoDigests layers
        → AnswersFrom (generated_shelf layers) (T.state transport.old) → OkOrMemory result }
    ensures chain { IfOk result (λ v. Chain (generated_meaning layers) generated_reference generated_types None v) }
    ensures backed { IfOk result (λ v. Told
        (λ c. Backed fresh generated_context generated_reference Anonymous c v)
        (T.state transport.old) (T.state transport.new)) }
    ensures links { IfOk result (λ v. Links generated_reference generated_types v) }
    ensures causes { IsCaused layers (T.state transport.old) (T.state transport.new) result }
    ensures fault { FaultCounted client_refusal (T.state transport.old) (T.state transport.new) result }
    ensures no_sink_fault { NoSinkFault client_refusal result }
    ensures no_memory { IfErr result (λ e. OnSkipped HoldsNoMemoryNorSink e) }
    ensures faults { IfErr result (λ e. OnSkipped
        (CountsFaults (T.state transport.old).faults (T.state transport.new).faults) e) }
    ensures confined { IsConfined (T.state transport.old) (T.state transport.new) }
{
    pulled(alloc, layers, transport)
}
