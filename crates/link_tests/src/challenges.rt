// The challenges of a registry (RFC 9110, 11.6.1).
use json_values::{Copied, Text};
use oci_link::{BearerChallenge, Challenge, ChallengeError, challenges};
use std::alloc::{AllocError, Global};

// The scheme, each parameter as name, `=` and value, and a semicolon.
fn show(shown: &mut Text, challenge: &Challenge) -> Result<(), AllocError> {
    shown.push_str(challenge.scheme.as_str())?;
    for parameter in challenge.params.as_slice() {
        shown.push_str(" ")?;
        shown.push_str(parameter.0.as_str())?;
        shown.push_str("=")?;
        shown.push_str(parameter.1.as_str())?;
    }
    shown.push_str(";")
}

fn shown(alloc: Global, text: &str) -> Result<Text, AllocError> {
    let list = challenges(alloc, text)?;
    let mut shown = Text::new(alloc, "")?;
    for challenge in list.as_slice() {
        show(&mut shown, challenge)?;
    }
    Ok(shown)
}

fn is_shown(alloc: Global, text: &str, want: &str) -> bool {
    match shown(alloc, text) {
        Ok(shown) => shown.as_str() == want,
        Err(_) => false,
    }
}

#[test]
fn challenges_are_read_as_the_grammar_says(rt: HostRuntime) {
    for (text, want) in [
        (
            "Basic realm=\"a\", Bearer realm=\"https://x/t\",service=s",
            "Basic realm=a;Bearer realm=https://x/t service=s;",
        ),
        ("", ""),
        (
            "Bearer realm=\"a,b\" ,\tscope=\"x,y\"",
            "Bearer realm=a,b scope=x,y;",
        ),
        (" , ,Basic,, ,Bearer realm=r,,", "Basic;Bearer realm=r;"),
        ("A x=\"a\\\"b\\\\c\\d\"", "A x=a\"b\\cd;"),
    ] {
        assert!(rt; is_shown(rt.alloc(), text, want), "{text}");
    }
}

// Whether the header names this realm and this service.
fn asks(alloc: Global, header: &[u8], realm: &str, service: &str) -> bool {
    match BearerChallenge::from_header(alloc, header) {
        Ok(bearer) => {
            let named = bearer.service.is_some_and(|text| text.as_str() == service);
            bearer.realm.as_str() == realm && named
        }
        Err(_) => false,
    }
}

fn is_refused(alloc: Global, header: &[u8], want: ChallengeError) -> bool {
    match BearerChallenge::from_header(alloc, header) {
        Ok(_) => false,
        Err(refusal) => refusal == want,
    }
}

#[test]
fn the_first_bearer_challenge_with_a_realm_is_asked(rt: HostRuntime) {
    let header = b"Bearer service=s, bEARER rEALM=a,service=s,realm=b,SERVICE=t, Bearer realm=c";
    assert!(rt; asks(rt.alloc(), header, "b", "t"));
    assert!(rt; is_refused(rt.alloc(), b"Basic realm=\"a\"", ChallengeError::NoBearer));
    assert!(rt; is_refused(rt.alloc(), b"\x80", ChallengeError::NotText));
}

// Why the first challenge in a header is refused.
fn refusal(alloc: Global, text: &str) -> Option<ChallengeError> {
    let list = challenges(alloc, text).ok()?;
    let first = list.as_slice().first()?;
    let copy = first.copy(alloc).ok()?;
    BearerChallenge::from_challenge(alloc, &copy).err()
}

#[test]
fn a_challenge_is_refused_by_its_scheme_and_then_its_realm(rt: HostRuntime) {
    assert!(rt; refusal(rt.alloc(), "Basic realm=a") == Some(ChallengeError::OtherScheme));
    assert!(rt; refusal(rt.alloc(), "Bearer a=b") == Some(ChallengeError::NoRealm));
    assert!(rt; refusal(rt.alloc(), "bearer realm=a").is_none());
}
