// The references that the search for signatures accepts.
use json_values::{Copied, Text};
use oci_auth::RegistryAuth;
use recorded_answers::LAYER_DIGEST;
use sig_registry::{Auth, OciReference, SigstoreError};
use std::alloc::{AllocError, Global};

fn holds(answer: Result<bool, AllocError>) -> bool {
    match answer {
        Ok(holds) => holds,
        Err(_) => false,
    }
}

fn is_printed(alloc: Global, reference: &OciReference, want: &str) -> Result<bool, AllocError> {
    let shown = format!(in alloc; "{reference}")?;
    let whole = reference.whole(alloc)?;
    Ok(shown.as_str() == want && whole.as_str() == want)
}

fn parsed(alloc: Global, text: &str) -> Option<OciReference> {
    match OciReference::parse(alloc, text) {
        Ok(reference) => Some(reference),
        Err(_) => None,
    }
}

fn is_read(alloc: Global, text: &str, want: &str) -> bool {
    match parsed(alloc, text) {
        Some(reference) => holds(is_printed(alloc, &reference, want)),
        None => false,
    }
}

fn is_refused(alloc: Global, text: &str) -> bool {
    match OciReference::parse(alloc, text) {
        Err(SigstoreError::OciReferenceNotValidError { reference }) => reference.as_str() == text,
        _ => false,
    }
}

#[test]
fn references_are_printed_whole(rt: HostRuntime) {
    assert!(rt; is_read(rt.alloc(), "busybox", "docker.io/library/busybox:latest"));
    assert!(rt; is_refused(rt.alloc(), "a:t/b"));
}

fn tag_is_shown(alloc: Global) -> Result<bool, AllocError> {
    let registry = Text::new(alloc, "docker.io")?;
    let name = Text::new(alloc, "library/app")?;
    let tagged = OciReference::with_tag(registry, name, Text::new(alloc, "v1")?);
    let copy = tagged.copy(alloc)?;
    let parts = tagged.registry() == "docker.io" && tagged.repository() == "library/app";
    Ok(parts && tagged.tag() == Some("v1") && tagged.digest().is_none() && copy == tagged)
}

fn digest_is_shown(alloc: Global) -> Result<bool, AllocError> {
    let registry = Text::new(alloc, "docker.io")?;
    let name = Text::new(alloc, "library/app")?;
    let named = OciReference::with_digest(registry, name, Text::new(alloc, LAYER_DIGEST)?);
    let place = named.resolve_registry() == "index.docker.io";
    Ok(place && named.digest() == Some(LAYER_DIGEST) && named.tag().is_none())
}

fn auth_is_handed_on(alloc: Global) -> Result<bool, AllocError> {
    let auth = Auth::Anonymous.to_registry(alloc)?;
    Ok(auth == RegistryAuth::Anonymous)
}

#[test]
fn references_show_their_parts(rt: HostRuntime) {
    assert!(rt; holds(tag_is_shown(rt.alloc())));
    assert!(rt; holds(digest_is_shown(rt.alloc())));
    assert!(rt; holds(auth_is_handed_on(rt.alloc())));
}
