// Challenges of the scheme Bearer.
ghost use Rattle.std.specs.Prelude.{◌≡◌, true, List, Some, None, Ok, Err, IfOk, IfErr, option_copied};
ghost use Rattle.oci_auth.specs.Bearer.{is_named, last_value, bearer_of, first_bearer, is_text, text_of};
ghost use Rattle.oci_auth.specs.Bearer.{in_header};
ghost use Rattle.oci_auth.specs.Bearer.{IsRefusal};
ghost use Rattle.oci_auth.specs.Words.{AreChallenges};
ghost use Rattle.oci_auth.specs.declared.challenge.Challenge.{Challenge as OneChallenge};
ghost use Rattle.oci_auth.specs.declared.bearer.ChallengeError.TheVariants.{WantOfMemory as out_of_memory};

use crate::challenge::{Challenge, challenges};
use json_values::{Copied, Text, copied};
use std::alloc::{AllocError, Global};
use thiserror::Error;

/// Where to request a token (RFC 6750, section 3).
#[derive(Drop)]
pub struct BearerChallenge {
    /// The URL of the token service.
    pub realm: Text,
    /// The service that the token is for, if it is named.
    pub service: Option<Text>,
}

/// Why a Bearer challenge could not be parsed.
#[derive(Clone, Copy, Debug, PartialEq, Eq, Error)]
pub enum ChallengeError {
    /// The header has a byte that is neither a tab nor from 0x20 to 0x7E.
    #[error("the header `www-authenticate` is not text: the registry must send visible ASCII")]
    NotText,
    /// No challenge in the header has the scheme Bearer and a realm.
    #[error("no challenge has the scheme Bearer and a realm: send credentials in another way")]
    NoBearer,
    /// The challenge has another scheme than Bearer.
    #[error("the challenge does not have the scheme Bearer: send credentials in another way")]
    OtherScheme,
    /// The challenge has no parameter `realm`.
    #[error("the challenge has no realm: there is no URL to request a token from")]
    NoRealm,
    /// The allocator is out of memory.
    #[error("out of memory: free some and try again")]
    WantOfMemory,
}

impl Copied for BearerChallenge {
    fn copy(&self, alloc: Global) -> Result<BearerChallenge, AllocError> {
        copied!(alloc, self, BearerChallenge { realm, service })
    }
}

impl Copied for ChallengeError {
    fn copy(&self, _alloc: Global) -> Result<ChallengeError, AllocError> {
        Ok(*self)
    }
}

impl From<AllocError> for ChallengeError {
    ghost from_gives = { λ _ e. e ≡ out_of_memory };

    fn from(_: AllocError) -> Self {
        ChallengeError::WantOfMemory
    }
}

fn is_named(name: &str, text: &str) -> bool
    ensures { result ≡ is_named name.now text.now }
{
    text.eq_ignore_ascii_case(name)
}

// Returns the last value with this name.
fn last_value<'a>(name: &str, params: &'a [(Text, Text)]) -> Option<&'a str>
    ensures { option_copied result ≡ last_value name.now params.now }
{
    let mut value = None;
    for parameter in params {
        if is_named(name, parameter.0.as_str()) {
            value = Some(parameter.1.as_str());
        }
    }
    value
}

fn copied(alloc: Global, text: Option<&str>) -> Result<Option<Text>, AllocError>
    ensures { IfOk result (λ copy. copy ≡ option_copied text.entry) }
{
    match text {
        Some(text) => {
            let copy = Text::new(alloc, text)?;
            Ok(Some(copy))
        }
        None => Ok(None),
    }
}

fn is_text(value: &[u8]) -> bool
    ensures { result ≡ is_text value.now }
{
    value
        .iter()
        .all(|byte| *byte == 9 || (32 <= *byte && *byte <= 126))
}

// Returns the first of these challenges that has the scheme Bearer and a realm.
fn first_bearer(alloc: Global, challenges: &[Challenge]) -> Result<BearerChallenge, ChallengeError>
    ensures ok { IfOk result (λ bearer. first_bearer challenges.now ≡ Ok bearer) }
    ensures refused { IfErr result (IsRefusal (first_bearer challenges.now)) }
{
    for challenge in challenges {
        match BearerChallenge::from_challenge(alloc, challenge) {
            Ok(bearer) => return Ok(bearer),
            Err(ChallengeError::WantOfMemory) => return Err(ChallengeError::WantOfMemory),
            Err(_) => {}
        }
    }
    Err(ChallengeError::NoBearer)
}

impl BearerChallenge {
    /// Parses the first challenge with the scheme Bearer and a realm in the value of a `www-authenticate` header.
    ///
    /// Returns `NotText` if the value is not text, otherwise `NoBearer` if there is no such challenge.
    #[tactic(auto, using(crate::proofs::HeaderChallenges::header_list), unfolding(crate::specs::Bearer::in_header))]
    pub fn from_header(alloc: Global, value: &[u8]) -> Result<BearerChallenge, ChallengeError>
        ensures ok { IfOk result (λ bearer. in_header value.now ≡ Ok bearer) }
        ensures refused { IfErr result (IsRefusal (in_header value.now)) }
        ensures listed { (list : List OneChallenge) → is_text value.now ≡ true
            → AreChallenges value.now list → in_header value.now ≡ first_bearer list }
    {
        let Some(text) = text_of(value) else {
            return Err(ChallengeError::NotText);
        };
        let challenges = challenges(alloc, text)?;
        let bearer = first_bearer(alloc, challenges.as_slice())?;
        Ok(bearer)
    }

    /// Returns the last realm and the last service of a Bearer challenge. The case of the scheme and of parameter names
    /// is ignored.
    ///
    /// Returns `OtherScheme` if the scheme is another one, otherwise `NoRealm` if there is no realm.
    #[tactic(auto, unfolding(crate::specs::Bearer::bearer_of))]
    pub fn from_challenge(
        alloc: Global,
        challenge: &Challenge,
    ) -> Result<BearerChallenge, ChallengeError>
        ensures ok { IfOk result (λ bearer. bearer_of challenge.now ≡ Ok bearer) }
        ensures refused { IfErr result (IsRefusal (bearer_of challenge.now)) }
    {
        if !is_named("bearer", challenge.scheme.as_str()) {
            return Err(ChallengeError::OtherScheme);
        }
        let Some(realm) = last_value("realm", challenge.params.as_slice()) else {
            return Err(ChallengeError::NoRealm);
        };
        let realm = Text::new(alloc, realm)?;
        let service = copied(alloc, last_value("service", challenge.params.as_slice()))?;
        Ok(BearerChallenge { realm, service })
    }
}

// Returns the value as text.
fn text_of(value: &[u8]) -> Option<&str>
    ensures { option_copied result ≡ text_of value.now }
{
    if !is_text(value) {
        return None;
    }
    match std::str::from_utf8(value) {
        Ok(text) => Some(text),
        Err(_) => None,
    }
}
