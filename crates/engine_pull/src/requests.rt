// Builds requests that list no types.
ghost use Rattle.oci_auth.specs.declared.auth_state.AuthState.{AuthState};
ghost use Rattle.oci_protocol.specs.Runs.{Meets};
ghost use Rattle.engine_terms.specs.Contexts.{context_of};
ghost use Rattle.engine_terms.specs.Error.{is_memory};
ghost use Rattle.engine_pull.specs.Listings.{bare};

use engine_requests::request_of;
use engine_steps::authorized;
use engine_terms::{Call, OciDistributionError};
use oci_auth::{AuthState, RegistryOperation};
use oci_transport::{Method, Request, Transport};
use std::alloc::Global;
use url::Url;

/// Returns a request for this URL with its token, which may be requested before it.
#[tactic(none)]
pub(crate) fn bare<T: Transport>(
    alloc: Global,
    transport: &mut T,
    memory: &mut AuthState,
    call: &Call,
    method: Method,
    url: &Url,
) -> Result<Request, OciDistributionError>
    ensures { Meets is_memory (bare (context_of call.now) call.now.image.now method url.now)
        (T.state transport.old) (T.state transport.new) memory.old memory.new result }
{
    let pull = RegistryOperation::Pull;
    let token = authorized(alloc, transport, memory, call, pull, url)?;
    let request = request_of(alloc, call.settings, method, url, None, &token)?;
    Ok(request)
}
