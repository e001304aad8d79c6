// Builds the requests for tokens, and parses the responses.
ghost use Rattle.std.specs.Prelude.{◌≡◌, ◌∷◌, [], Some, IfOk};
ghost use Rattle.url.specs.Setters.{append_query_pairs};
ghost use Rattle.oci_auth.specs.Token.{token_of};
ghost use Rattle.json_values.specs.Refusals.{Matches};
ghost use Rattle.engine_terms.specs.Error.{is_memory};
ghost use Rattle.engine_requests.specs.Tokens.{wanted_in, wanted, allowed, scope_of, with_scope};
ghost use Rattle.engine_requests.specs.Tokens.{with_service, realm_url, realm_request, decoded};
ghost use Rattle.engine_requests.specs.Tokens.{token_read};

use crate::requests::request_of;
use engine_terms::{OciDistributionError, Settings, TokenBody};
use json_values::{Blob, Text};
use oci_auth::{
    BearerChallenge, ChallengeError, RegistryAuth, RegistryOperation, RegistryToken,
    RegistryTokenType, TokenError,
};
use oci_names::Reference;
use oci_transport::{Answer, AnswerHead, Method, Request};
use std::alloc::{AllocError, Global};
use url::Url;

/// What a registry requires in the head of a response.
#[derive(Drop)]
pub enum Wanted {
    Nothing,
    /// The credentials themselves.
    Credentials,
    /// A token of the challenge's realm.
    Token(BearerChallenge),
}

// Any refusal but out of memory means that there is no challenge of the scheme Bearer with a realm.
fn wanted_by(alloc: Global, value: &[u8]) -> Result<Wanted, AllocError>
    ensures { IfOk result (λ found. found ≡ wanted_in (Some value.now)) }
{
    match BearerChallenge::from_header(alloc, value) {
        Ok(challenge) => Ok(Wanted::Token(challenge)),
        Err(ChallengeError::WantOfMemory) => Err(AllocError),
        Err(ChallengeError::NotText) => Ok(Wanted::Credentials),
        Err(ChallengeError::NoBearer) => Ok(Wanted::Credentials),
        Err(ChallengeError::OtherScheme) => Ok(Wanted::Credentials),
        Err(ChallengeError::NoRealm) => Ok(Wanted::Credentials),
    }
}

/// Returns what the head of a response requires, by its first value of `www-authenticate`.
#[tactic(auto, unfolding(crate::specs::Tokens::wanted))]
pub fn read_challenge(alloc: Global, head: &AnswerHead) -> Result<Wanted, AllocError>
    ensures { IfOk result (λ found. found ≡ wanted head.now) }
{
    match head.headers.first("www-authenticate") {
        Some(value) => {
            let found = wanted_by(alloc, value)?;
            Ok(found)
        }
        None => Ok(Wanted::Nothing),
    }
}

fn allowed(op: RegistryOperation) -> &'static str
    ensures { result.now ≡ allowed op }
{
    match op {
        RegistryOperation::Pull => ":pull",
        RegistryOperation::Push => ":pull,push",
    }
}

fn scope_of(alloc: Global, image: &Reference, op: RegistryOperation) -> Result<Text, AllocError>
    ensures { IfOk result (λ text. text ≡ scope_of image.now op) }
{
    let mut text = Text::new(alloc, "repository:")?;
    text.push_str(image.repository())?;
    text.push_str(allowed(op))?;
    Ok(text)
}

/// Returns the URL with one more pair in its query.
pub fn with_pair(mut url: Url, name: &str, value: &str) -> Result<Url, AllocError>
    ensures { IfOk result (λ made. made ≡ append_query_pairs url ((name.now, value.now) ∷ [])) }
{
    match url.append_query_pairs(&[(name, value)]) {
        Ok(()) => Ok(url),
        Err(_) => Err(AllocError),
    }
}

fn with_service(url: Url, service: &Option<Text>) -> Result<Url, AllocError>
    ensures { IfOk result (λ made. made ≡ with_service service.now url) }
{
    match service {
        Some(service) => {
            let url = with_pair(url, "service", service.as_str())?;
            Ok(url)
        }
        None => Ok(url),
    }
}

fn realm_url(
    alloc: Global,
    image: &Reference,
    op: RegistryOperation,
    service: &Option<Text>,
    url: Url,
) -> Result<Url, AllocError>
    ensures { IfOk result (λ made. made ≡ realm_url image.now op service.now url) }
{
    let scope = scope_of(alloc, image, op)?;
    let url = with_pair(url, "scope", scope.as_str())?;
    let url = with_service(url, service)?;
    Ok(url)
}

/// Returns the request for a token: `url` is the realm's, whose query then contains the scope and the service.
/// Credentials of a user are sent to the realm.
#[tactic(auto, unfolding(crate::specs::Tokens::realm_request))]
pub fn realm_request(
    alloc: Global,
    settings: &Settings,
    image: &Reference,
    auth: &RegistryAuth,
    op: RegistryOperation,
    service: &Option<Text>,
    url: Url,
) -> Result<Request, OciDistributionError>
    ensures { Matches is_memory result (realm_request settings.now image.now auth.now op service.now url) }
{
    let url = realm_url(alloc, image, op, service, url)?;
    let token = auth.own_token(alloc)?;
    let request = request_of(alloc, settings, Method::Get, &url, None, &token)?;
    Ok(request)
}

// Parses the token in a body.
fn decoded(alloc: Global, body: Blob) -> Result<Option<RegistryTokenType>, OciDistributionError>
    ensures { Matches is_memory result (decoded body (token_of body)) }
{
    match RegistryToken::read(alloc, body.as_slice()) {
        Ok(token) => Ok(Some(RegistryTokenType::Bearer(token))),
        Err(TokenError::Unreadable) => Err(OciDistributionError::RegistryTokenDecodeError(
            TokenBody::new(body),
        )),
        Err(TokenError::WantOfMemory) => Err(OciDistributionError::WantOfMemory),
    }
}

/// Returns the token in a realm's response. `AuthenticationFailure` if the status is not 200,
/// `RegistryTokenDecodeError` if the body contains no token.
pub fn token_read(
    alloc: Global,
    answer: Answer,
) -> Result<Option<RegistryTokenType>, OciDistributionError>
    ensures { Matches is_memory result (token_read answer) }
{
    if answer.status != 200 {
        return Err(OciDistributionError::AuthenticationFailure(TokenBody::new(answer.body)));
    }
    let token = decoded(alloc, answer.body)?;
    Ok(token)
}
