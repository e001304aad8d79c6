// The keys of cached responses.
use json_values::{Blob, List, Text};
use oci_auth::RegistryAuth;
use oci_names::Reference;
use registry_cache::{PullManifestSettings, PullReferrersSettings, PullSettings};
use std::alloc::Global;

const IMAGE: &str = "localhost:5000/app:1";

fn basic(alloc: Global, user: &str, password: &str) -> Option<RegistryAuth> {
    let user = Text::new(alloc, user).ok()?;
    let password = Text::new(alloc, password).ok()?;
    Some(RegistryAuth::Basic(user, password))
}

fn bearer(alloc: Global, token: &str) -> Option<RegistryAuth> {
    let token = Text::new(alloc, token).ok()?;
    Some(RegistryAuth::Bearer(token))
}

fn manifest_settings(alloc: Global, auth: Option<RegistryAuth>) -> Option<PullManifestSettings> {
    let image = Reference::parse(alloc, IMAGE).ok()?;
    PullManifestSettings::new(alloc, &image, &auth?).ok()
}

fn pull_key(alloc: Global, types: &[&str]) -> Option<Blob> {
    let image = Reference::parse(alloc, IMAGE).ok()?;
    let mut accepted = List::new(alloc);
    for kind in types {
        accepted.push(Text::new(alloc, kind).ok()?).ok()?;
    }
    let settings = PullSettings::new(
        alloc,
        &image,
        &RegistryAuth::Anonymous,
        accepted.as_slice(),
    ).ok()?;
    settings.key_text(alloc).ok()
}

fn referrers_key(alloc: Global, artifact_type: Option<&str>) -> Option<Blob> {
    let image = Reference::parse(alloc, IMAGE).ok()?;
    let auth = RegistryAuth::Anonymous;
    let settings = PullReferrersSettings::new(alloc, &image, &auth, artifact_type).ok()?;
    settings.key_text(alloc).ok()
}

fn is(key: Option<Blob>, want: &str) -> bool {
    key.is_some_and(|key| key.as_slice() == want.as_bytes())
}

fn is_manifest_key(alloc: Global, auth: Option<RegistryAuth>, want: &str) -> bool {
    match manifest_settings(alloc, auth) {
        Some(settings) => is(settings.key_text(alloc).ok(), want),
        None => false,
    }
}

#[test]
fn credentials_are_part_of_the_key(rt: HostRuntime) {
    let alloc = rt.alloc();
    let plain = "{\"auth\":\"Anonymous\",\"image\":\"localhost:5000/app:1\"}";
    let user = "{\"auth\":{\"Basic\":[\"u\",\"p\\\"w\"]},\"image\":\"localhost:5000/app:1\"}";
    let token = "{\"auth\":{\"Bearer\":\"t\"},\"image\":\"localhost:5000/app:1\"}";
    assert!(rt; is_manifest_key(alloc, Some(RegistryAuth::Anonymous), plain));
    assert!(rt; is_manifest_key(alloc, basic(alloc, "u", "p\"w"), user));
    assert!(rt; is_manifest_key(alloc, bearer(alloc, "t"), token));
}

#[test]
fn media_types_stand_in_the_key_in_their_order(rt: HostRuntime) {
    let alloc = rt.alloc();
    let rest = ",\"auth\":\"Anonymous\",\"image\":\"localhost:5000/app:1\"}";
    for (types, want) in [
        (["b", "a"], "{\"accepted_media_types\":[\"b\",\"a\"]"),
        (["a", "b"], "{\"accepted_media_types\":[\"a\",\"b\"]"),
    ] {
        assert!(rt;
            starts_and_ends(pull_key(alloc, &types), want, rest),
            "{want}"
        );
    }
}

fn starts_and_ends(key: Option<Blob>, front: &str, back: &str) -> bool {
    key.is_some_and(|key| {
        let text = key.as_slice();
        text.starts_with(front.as_bytes()) && text.ends_with(back.as_bytes())
    })
}

#[test]
fn no_artifact_type_is_null(rt: HostRuntime) {
    let alloc = rt.alloc();
    let none = "{\"artifact_type\":null,\"auth\":\"Anonymous\",\"image\":\"localhost:5000/app:1\"}";
    let some =
        "{\"artifact_type\":\"a\",\"auth\":\"Anonymous\",\"image\":\"localhost:5000/app:1\"}";
    assert!(rt; is(referrers_key(alloc, None), none));
    assert!(rt; is(referrers_key(alloc, Some("a")), some));
}

fn has_hash(alloc: Global, want: &str) -> bool {
    match manifest_settings(alloc, Some(RegistryAuth::Anonymous)) {
        Some(settings) => match settings.hash(alloc) {
            Ok(digits) => digits.as_str() == want,
            Err(_) => false,
        },
        None => false,
    }
}

#[test]
fn the_hash_is_that_of_the_key(rt: HostRuntime) {
    let digits = "291976109f3f62b0c90c6d781e5c8371868e4529ce5f057c14648b383967cf03";
    assert!(rt; has_hash(rt.alloc(), digits));
}
