// The token step, and the calls that make it.
ghost use Rattle.std.specs.Prelude.{◌≡◌, IfOk};
ghost use Rattle.url.specs.Parts.{serialize};
ghost use Rattle.oci_auth.specs.declared.auth_state.AuthState.{AuthState};
ghost use Rattle.oci_transport.specs.Urls.{request_url};
ghost use Rattle.oci_protocol.specs.Runs.{Meets};
ghost use Rattle.engine_terms.specs.Contexts.{context_of};
ghost use Rattle.engine_terms.specs.Error.{is_memory};
ghost use Rattle.engine_rows.specs.Rows.{realm_asked, fetched, registry_asked, token_step, passed_over};
ghost use Rattle.engine_rows.specs.Rows.{token_asked, token_for, authorized, goes_to, prepared};
ghost use Rattle.engine_steps.specs.BodyUnread.{IfNoBearer, LastBodyUnread};

use crate::asking::{head_after, whole};
use engine_requests::{
    Wanted, base_url, read_challenge, read_url, realm_request, registry_address, request_of,
    token_read,
};
use engine_terms::{Call, OciDistributionError};
use json_values::Copied;
use oci_auth::{AuthState, BearerChallenge, RegistryAuth, RegistryOperation, RegistryTokenType};
use oci_transport::{Method, Request, Transport, UrlError, request_url, targets};
use std::alloc::{AllocError, Global};
use url::Url;

// Requests a token from the realm of a challenge.
#[tactic(none)]
fn realm_asked<T: Transport>(
    alloc: Global,
    transport: &mut T,
    call: &Call,
    auth: &RegistryAuth,
    op: RegistryOperation,
    challenge: BearerChallenge,
) -> Result<Option<RegistryTokenType>, OciDistributionError>
    ensures run { (k : AuthState) → Meets is_memory
        (realm_asked call.now.settings.now call.now.image.now auth.now op challenge)
        (T.state transport.old) (T.state transport.new) k k result }
    ensures bearer { IfOk result (IfNoBearer ⊥) }
{
    let BearerChallenge { realm, service } = challenge;
    let url = read_url(alloc, realm)?;
    let request = realm_request(alloc, call.settings, call.image, auth, op, &service, url)?;
    let got = whole(alloc, transport, 0, &request, call.settings.max_body_bytes)?;
    let token = token_read(alloc, got.answer)?;
    Ok(token)
}

// Obtains what the registry requires.
#[tactic(none)]
fn fetched<T: Transport>(
    alloc: Global,
    transport: &mut T,
    call: &Call,
    auth: &RegistryAuth,
    op: RegistryOperation,
    wanted: Wanted,
) -> Result<Option<RegistryTokenType>, OciDistributionError>
    ensures run { (k : AuthState) → Meets is_memory
        (fetched call.now.settings.now call.now.image.now auth.now op wanted)
        (T.state transport.old) (T.state transport.new) k k result }
    ensures unchanged { IfOk result (IfNoBearer (T.state transport.new ≡ T.state transport.old)) }
{
    match wanted {
        Wanted::Nothing => Ok(None),
        Wanted::Credentials => {
            let token = auth.own_token(alloc)?;
            Ok(token)
        }
        Wanted::Token(challenge) => {
            let token = realm_asked(alloc, transport, call, auth, op, challenge)?;
            Ok(token)
        }
    }
}

// Requests `/v2/`, and obtains what the registry requires.
#[tactic(none)]
fn registry_asked<T: Transport>(
    alloc: Global,
    transport: &mut T,
    call: &Call,
    auth: &RegistryAuth,
    op: RegistryOperation,
) -> Result<Option<RegistryTokenType>, OciDistributionError>
    ensures run { (k : AuthState) → Meets is_memory
        (registry_asked call.now.settings.now call.now.image.now auth.now op)
        (T.state transport.old) (T.state transport.new) k k result }
    ensures body_unread { IfOk result (IfNoBearer (LastBodyUnread (T.state transport.old) (T.state transport.new))) }
{
    let url = base_url(alloc, call.settings, call.image)?;
    let request = request_of(alloc, call.settings, Method::Get, &url, None, &None)?;
    let head = head_after(alloc, transport, 0, &request)?;
    let wanted = read_challenge(alloc, &head)?;
    let token = fetched(alloc, transport, call, auth, op, wanted)?;
    Ok(token)
}

/// Returns the token that is sent to the registry of an image: the one that needs no request, or else the one that the
/// registry's challenge requires.
#[tactic(none)]
pub fn token_step<T: Transport>(
    alloc: Global,
    transport: &mut T,
    call: &Call,
    auth: &RegistryAuth,
    op: RegistryOperation,
) -> Result<Option<RegistryTokenType>, OciDistributionError>
    ensures run { (k : AuthState) → Meets is_memory (token_step call.now.settings.now call.now.image.now auth.now op)
        (T.state transport.old) (T.state transport.new) k k result }
    ensures body_unread { IfOk result (IfNoBearer (LastBodyUnread (T.state transport.old) (T.state transport.new))) }
{
    match auth.unasked(alloc)? {
        Some(unasked) => Ok(Some(unasked)),
        None => {
            let token = registry_asked(alloc, transport, call, auth, op)?;
            Ok(token)
        }
    }
}

// Stores a token that was obtained, and ignores a refusal of the token step.
#[tactic(none)]
fn token_asked<T: Transport>(
    alloc: Global,
    transport: &mut T,
    memory: &mut AuthState,
    call: &Call,
    op: RegistryOperation,
    auth: &RegistryAuth,
) -> Result<Option<RegistryTokenType>, OciDistributionError>
    ensures { Meets is_memory (token_asked (context_of call.now) call.now.image.now op auth.now)
        (T.state transport.old) (T.state transport.new) memory.old memory.new result }
{
    match token_step(alloc, transport, call, auth, op) {
        Ok(Some(token)) => {
            let kept = token.copy(alloc)?;
            memory.tokens.insert(call.image, op, kept, call.moment)?;
            Ok(Some(token))
        }
        Ok(None) => Ok(None),
        Err(error) => passed_over(error),
    }
}

// A refusal other than out of memory gives no token.
fn passed_over(
    error: OciDistributionError,
) -> Result<Option<RegistryTokenType>, OciDistributionError>
    ensures { result ≡ passed_over error }
{
    if error.is_memory() {
        return Err(OciDistributionError::WantOfMemory);
    }
    Ok(None)
}

// Only if credentials are stored for the registry.
#[tactic(none)]
fn token_for<T: Transport>(
    alloc: Global,
    transport: &mut T,
    memory: &mut AuthState,
    call: &Call,
    op: RegistryOperation,
) -> Result<Option<RegistryTokenType>, OciDistributionError>
    ensures { Meets is_memory (token_for (context_of call.now) call.now.image.now op)
        (T.state transport.old) (T.state transport.new) memory.old memory.new result }
{
    let auth = match memory.credentials.get(call.image.resolve_registry()) {
        Some(auth) => auth.copy(alloc)?,
        None => return Ok(None),
    };
    match memory.tokens.get(call.image, op, call.moment)? {
        Some(token) => Ok(Some(token)),
        None => {
            let token = token_asked(alloc, transport, memory, call, op, &auth)?;
            Ok(token)
        }
    }
}

// Whether the URL, as a request has its text, is at the registry.
fn goes_to(alloc: Global, url: &Url, registry: &Url) -> Result<bool, AllocError>
    ensures { IfOk result (λ goes. goes ≡ goes_to (request_url (serialize url.now)) registry.now) }
{
    match request_url(alloc, url.as_str()) {
        Ok(url) => Ok(targets(&url, registry)),
        Err(UrlError::Refused) => Ok(false),
        Err(UrlError::WantOfMemory) => Err(AllocError),
    }
}

/// Returns the token of a request to this URL, requesting one if needed. `None` if the URL is not at the image's
/// registry, or if no credentials are stored for that.
#[tactic(none)]
pub fn authorized<T: Transport>(
    alloc: Global,
    transport: &mut T,
    memory: &mut AuthState,
    call: &Call,
    op: RegistryOperation,
    url: &Url,
) -> Result<Option<RegistryTokenType>, OciDistributionError>
    ensures { Meets is_memory (authorized (context_of call.now) call.now.image.now op url.now)
        (T.state transport.old) (T.state transport.new) memory.old memory.new result }
{
    let registry = registry_address(alloc, call.settings, call.image)?;
    let goes = goes_to(alloc, url, &registry)?;
    if !goes {
        return Ok(None);
    }
    let token = token_for(alloc, transport, memory, call, op)?;
    Ok(token)
}

/// The target of a request: the URL, and the method.
#[derive(Clone, Copy)]
pub struct Target<'a> {
    pub method: Method,
    pub url: &'a Url,
}

/// Returns a request for this target and these types, as the header `accept` lists them, with its token, which may be
/// requested before it.
#[tactic(none)]
pub fn prepared<T: Transport>(
    alloc: Global,
    transport: &mut T,
    memory: &mut AuthState,
    call: &Call,
    op: RegistryOperation,
    target: &Target,
    types: &str,
) -> Result<Request, OciDistributionError>
    ensures { Meets is_memory (prepared
        (context_of call.now) call.now.image.now op target.now.method target.now.url.now types.now)
        (T.state transport.old) (T.state transport.new) memory.old memory.new result }
{
    let token = authorized(alloc, transport, memory, call, op, target.url)?;
    let request = request_of(
        alloc,
        call.settings,
        target.method,
        target.url,
        Some(types),
        &token,
    )?;
    Ok(request)
}
