// Credentials and tokens.
use json_values::{Copied, Text};
use oci_auth::{
    AuthState, RegistryAuth, RegistryOperation, RegistryToken, RegistryTokenType, TokenCache,
    TokenError, bearer_token_cache_expiration, store,
};
use oci_names::Reference;
use std::alloc::{AllocError, Global};

fn holds(answer: Result<bool, AllocError>) -> bool {
    match answer {
        Ok(holds) => holds,
        Err(_) => false,
    }
}

fn is_bearer(alloc: Global, body: &str, want: &str) -> bool {
    let Ok(token) = RegistryToken::read(alloc, body.as_bytes()) else {
        return false;
    };
    match token.bearer_token(alloc) {
        Ok(text) => text.as_str() == want,
        Err(_) => false,
    }
}

fn is_no_token(alloc: Global, body: &str) -> bool {
    match RegistryToken::read(alloc, body.as_bytes()) {
        Ok(_) => false,
        Err(refusal) => refusal == TokenError::Unreadable,
    }
}

#[test]
fn bodies_are_read_as_these_tokens(rt: HostRuntime) {
    assert!(rt; is_bearer(rt.alloc(), r#"{"access_token":"t"}"#, "Bearer t"));
    assert!(rt;
        is_bearer(
            rt.alloc(),
            r#"{"access_token":"t","token":"u"}"#,
            "Bearer u"
        )
    );
    assert!(rt; is_no_token(rt.alloc(), r#"{"token":1}"#));
    assert!(rt; is_no_token(rt.alloc(), r#"{"token":"t","expires_in":1.5}"#));
}

fn expires(alloc: Global, token: &str) -> Option<u64> {
    match bearer_token_cache_expiration(alloc, token, 60, 1000) {
        Ok(until) => until,
        Err(_) => None,
    }
}

#[test]
fn tokens_expire_at_these_moments(rt: HostRuntime) {
    for (token, want) in [
        ("opaque", Some(1060)),
        ("e30.eyJleHAiOjk5OTk5OTk5OTl9.signature", Some(87400)),
        ("e30.eyJleHAiOjIwMDB9.s", Some(2000)),
        ("e30.eyJleHAiOm51bGx9.s", Some(1060)),
        ("e30.eyJleHAiOi0xfQ.signature", None),
        ("e30.W10.s", None),
        ("..", None),
    ] {
        assert!(rt; expires(rt.alloc(), token) == want, "at {token}");
    }
}

fn insert_token(cache: &mut TokenCache, image: &str, moment: u64) -> Result<(), AllocError> {
    let alloc = cache.alloc();
    let token = Text::new(alloc, "t1")?;
    let bearer = RegistryTokenType::Bearer(RegistryToken::Token { token });
    match Reference::parse(alloc, image) {
        Ok(image) => cache.insert(&image, RegistryOperation::Pull, bearer, moment),
        Err(_) => Ok(()),
    }
}

fn kept(alloc: Global) -> Result<TokenCache, AllocError> {
    let mut cache = TokenCache::new(alloc, 60);
    insert_token(&mut cache, "r.example/app:v1", 1000)?;
    Ok(cache)
}

fn gives(cache: &TokenCache, image: &Reference, op: RegistryOperation, moment: u64) -> bool {
    match cache.get(image, op, moment) {
        Ok(token) => token.is_some(),
        Err(_) => false,
    }
}

fn is_given(
    alloc: Global,
    image: &str,
    op: RegistryOperation,
    moment: u64,
) -> Result<bool, AllocError> {
    let cache = kept(alloc)?;
    match Reference::parse(alloc, image) {
        Ok(image) => Ok(gives(&cache, &image, op, moment)),
        Err(_) => Ok(false),
    }
}

#[test]
fn a_token_is_given_up_to_its_expiration(rt: HostRuntime) {
    let pull = RegistryOperation::Pull;
    assert!(rt; holds(is_given(rt.alloc(), "r.example/app:v2", pull, 1060)));
    assert!(rt; !holds(is_given(rt.alloc(), "r.example/app:v1", pull, 1061)));
    assert!(rt; !holds(is_given(rt.alloc(), "s.example/app:v1", pull, 1000)));
    assert!(rt;
        !holds(is_given(
            rt.alloc(),
            "r.example/app:v1",
            RegistryOperation::Push,
            1000
        ))
    );
}

fn gives_for(cache: &TokenCache, image: &str, moment: u64) -> bool {
    match Reference::parse(cache.alloc(), image) {
        Ok(image) => gives(cache, &image, RegistryOperation::Pull, moment),
        Err(_) => false,
    }
}

fn latest_two_stay(alloc: Global) -> Result<bool, AllocError> {
    let mut cache = TokenCache::new(alloc, 60);
    cache.bound(2);
    insert_token(&mut cache, "r.example/a:v1", 1000)?;
    insert_token(&mut cache, "r.example/b:v1", 1000)?;
    insert_token(&mut cache, "r.example/c:v1", 1000)?;
    let first = gives_for(&cache, "r.example/a:v1", 1000);
    let second = gives_for(&cache, "r.example/b:v1", 1000);
    Ok(!first && second && gives_for(&cache, "r.example/c:v1", 1000))
}

fn latest_stays_without_room(alloc: Global) -> Result<bool, AllocError> {
    let mut cache = kept(alloc)?;
    cache.bound(0);
    Ok(gives_for(&cache, "r.example/app:v1", 1060))
}

// The first token has expired when the second one is stored, so it is not returned after the clock went back.
fn expired_is_dropped(alloc: Global) -> Result<bool, AllocError> {
    let mut cache = kept(alloc)?;
    insert_token(&mut cache, "r.example/b:v1", 1061)?;
    Ok(!gives_for(&cache, "r.example/app:v1", 1060))
}

fn unexpired_stays(alloc: Global) -> Result<bool, AllocError> {
    let mut cache = kept(alloc)?;
    insert_token(&mut cache, "r.example/b:v1", 1060)?;
    Ok(gives_for(&cache, "r.example/app:v1", 1060))
}

#[test]
fn stored_tokens_are_few(rt: HostRuntime) {
    assert!(rt; holds(latest_two_stay(rt.alloc())));
    assert!(rt; holds(latest_stays_without_room(rt.alloc())));
    assert!(rt; holds(expired_is_dropped(rt.alloc())));
    assert!(rt; holds(unexpired_stays(rt.alloc())));
}

fn stored_once(alloc: Global) -> Result<bool, AllocError> {
    let mut memory = AuthState::new(alloc, 60);
    let auth = RegistryAuth::Bearer(Text::new(alloc, "t1")?);
    store(alloc, &mut memory, "r.example", &auth)?;
    store(alloc, &mut memory, "r.example", &RegistryAuth::Anonymous)?;
    match memory.credentials.get("r.example") {
        Some(stored) => Ok(*stored == auth),
        None => Ok(false),
    }
}

#[test]
fn credentials_are_stored_once(rt: HostRuntime) {
    assert!(rt; holds(stored_once(rt.alloc())));
    assert!(rt; RegistryOperation::Push < RegistryOperation::Pull);
}

fn basic(alloc: Global) -> Result<RegistryAuth, AllocError> {
    Ok(RegistryAuth::Basic(Text::new(alloc, "user")?, Text::new(alloc, "secret")?))
}

fn password_is_hidden(alloc: Global) -> Result<bool, AllocError> {
    let auth = basic(alloc)?.copy(alloc)?;
    let shown = format!(in alloc; "{auth:?}")?;
    Ok(shown.as_str() == "Basic(\"user\", \"<redacted>\")")
}

fn header_is_basic(alloc: Global) -> Result<bool, AllocError> {
    let auth = basic(alloc)?;
    let Some(token) = auth.own_token(alloc)? else {
        return Ok(false);
    };
    let header = token.authorization(alloc)?;
    Ok(header.as_str() == "Basic dXNlcjpzZWNyZXQ=")
}

#[test]
fn credentials_are_shown_to_registries_alone(rt: HostRuntime) {
    assert!(rt; holds(password_is_hidden(rt.alloc())));
    assert!(rt; holds(header_is_basic(rt.alloc())));
}
