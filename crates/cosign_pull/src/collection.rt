//! The first part: the policy, the reference, and the search.
ghost use Rattle.std.specs.Prelude.{◌≡◌, true, false, Err, IsErr, IsTrue};
ghost use Rattle.engine_terms.specs.Contexts.{within};
ghost use Rattle.engine_terms.specs.declared.settings.Settings.{Settings};
ghost use Rattle.oci_names.specs.Reference.{reads_back};
ghost use Rattle.json_values.specs.Refusals.{Matches};
ghost use Rattle.cosign_layers.specs.Satisfying.{policy_context};
ghost use Rattle.cosign_parts.specs.Trust.{trust_of};
ghost use Rattle.registry_calls.specs.Clients.{ClientMeets};
ghost use Rattle.cosign_rows.specs.Refusal.{is_memory};
ghost use Rattle.cosign_rows.specs.Verified.{constrained, is_unconstrained, readable};
ghost use Rattle.cosign_rows.specs.Rows.{collected};

use crate::search;
use cosign_layers::PullPolicy;
use cosign_parts::{Offline, SignatureVerifier, Trusted};
use cosign_rows::{Asked, PullRefusal, TrustedLayers};
use oci_names::Reference;
use oci_transport::Transport;
use registry_calls::ClientCapabilities;
use std::alloc::Global;

// Refuses a policy without a constraint.
pub(crate) fn constrained(policy: &PullPolicy) -> Result<(), PullRefusal>
    ensures { result ≡ constrained (is_unconstrained policy.now) }
{
    if policy.constraints.as_slice().is_empty() {
        return Err(PullRefusal::EmptyPolicy);
    }
    Ok(())
}

// Refuses a reference that does not round-trip.
fn readable(alloc: Global, image: &Reference) -> Result<(), PullRefusal>
    ensures { Matches is_memory result (readable image.now) }
{
    let reads_back = image.reads_back(alloc)?;
    if reads_back {
        return Ok(());
    }
    let reference = image.whole(alloc)?;
    Err(PullRefusal::OciReferenceNotValidError { reference })
}

/// Returns the digest of an image, and what the search for its signatures found under this trust. A policy without a
/// constraint is refused before memory is allocated.
///
/// Fails with `EmptyPolicy` if the policy has no constraint, with `OciReferenceNotValidError` if the reference, or the
/// one by the returned digest, does not round-trip, and with `RegistryFetchManifestError` if the digest is not
/// returned. All other errors are causes in `skipped`.
pub fn collect<C: ClientCapabilities, T: Transport, V: SignatureVerifier, O: Offline>(
    alloc: Global,
    client: &mut C,
    transport: &mut T,
    asked: &Asked<'_>,
    policy: &PullPolicy,
    trusted: &Trusted<'_, V, O>,
) -> Result<TrustedLayers, PullRefusal>
    ensures run { (s : Settings) → ClientMeets is_memory s
        (collected (policy_context policy.now (λ b. accepts (b.vtable, b.value))
        (trust_of V.valid O.vouched trusted.now))
        (within s asked.now.moment) asked.now.image.now asked.now.auth.now)
        (C.state client.old) (C.state client.new) (T.state transport.old) (T.state transport.new) result }
    ensures unconstrained { IsTrue (is_unconstrained policy.now) →
        (result ≡ Err PullRefusal.EmptyPolicy) × (T.state transport.new ≡ T.state transport.old) }
    ensures unread { reads_back asked.now.image.now ≡ false →
        IsErr result × (T.state transport.new ≡ T.state transport.old) }
{
    constrained(policy)?;
    readable(alloc, asked.image)?;
    let found = search(alloc, client, transport, asked, trusted)?;
    Ok(found)
}
