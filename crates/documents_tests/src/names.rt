// References and platforms.
use json_values::{Copied, Text};
use oci_names::{Arch, Os, ParseError, Reference};
use recorded_answers::holds;
use std::alloc::{AllocError, Global};

const DIGEST: &str = "sha256:b94d27b9934d3e08a52e52d7da7dabfac484efe37a5380ee9088f7ace2efcde9";

fn is_whole(alloc: Global, reference: &Reference, whole: &str) -> Result<bool, AllocError> {
    let text = reference.whole(alloc)?;
    let again = reference.reads_back(alloc)?;
    Ok(again && text.as_str() == whole && reference.namespace().is_none())
}

fn is_read(alloc: Global, text: &str, whole: &str, resolved: &str) -> bool {
    match Reference::parse(alloc, text) {
        Ok(reference) => {
            let same = reference.resolve_registry() == resolved;
            same && holds(is_whole(alloc, &reference, whole))
        }
        Err(_) => false,
    }
}

#[test]
fn texts_are_read_as_these_references(rt: HostRuntime) {
    for (text, whole, resolved) in [
        (
            "busybox",
            "docker.io/library/busybox:latest",
            "index.docker.io",
        ),
        (
            "index.docker.io/busybox",
            "docker.io/library/busybox:latest",
            "index.docker.io",
        ),
        ("team/app", "docker.io/team/app:latest", "index.docker.io"),
        (
            "test.com:5000",
            "docker.io/library/test.com:5000",
            "index.docker.io",
        ),
        ("localhost/app", "localhost/app:latest", "localhost"),
        ("test:5000/repo:tag", "test:5000/repo:tag", "test:5000"),
        (
            "r.io/a.b_c__d--e---f:_T.x-y",
            "r.io/a.b_c__d--e---f:_T.x-y",
            "r.io",
        ),
        ("R.IO/app", "R.IO/app:latest", "R.IO"),
    ] {
        assert!(rt; is_read(rt.alloc(), text, whole, resolved), "at {text}");
    }
}

fn is_refused(alloc: Global, text: &str, want: ParseError) -> bool {
    match Reference::parse(alloc, text) {
        Ok(_) => false,
        Err(refusal) => refusal == want,
    }
}

#[test]
fn texts_are_refused_for_these_causes(rt: HostRuntime) {
    assert!(rt; is_refused(rt.alloc(), "", ParseError::NameEmpty));
    assert!(rt; is_refused(rt.alloc(), "app@SHA256:ab", ParseError::DigestUnsupported));
    assert!(rt; is_refused(rt.alloc(), "app@sha256:ab", ParseError::DigestInvalidLength));
}

fn mirror_is_asked(alloc: Global, reference: Reference) -> Result<bool, AllocError> {
    let mut reference = reference;
    reference.set_mirror_registry(Text::new(alloc, "docker.mirror.io")?);
    let asked = reference.resolve_registry() == "docker.mirror.io";
    let space = reference.namespace() == Some("r.example");
    Ok(asked && space && !reference.reads_back(alloc)?)
}

fn digest_is_named(alloc: Global, reference: &Reference) -> Result<bool, AllocError> {
    let named = reference.clone_with_digest(alloc, Text::new(alloc, DIGEST)?)?;
    let copy = named.copy(alloc)?;
    Ok(named.tag().is_none() && named.digest() == Some(DIGEST) && copy == named)
}

fn mirrored(alloc: Global) -> Result<bool, AllocError> {
    let Ok(reference) = Reference::parse(alloc, "r.example/app:v1") else {
        return Ok(false);
    };
    let named = digest_is_named(alloc, &reference)?;
    Ok(named && mirror_is_asked(alloc, reference)?)
}

#[test]
fn a_mirror_is_asked_for_the_registry(rt: HostRuntime) {
    assert!(rt; holds(mirrored(rt.alloc())));
}

fn tag_is_shown(alloc: Global) -> Result<bool, AllocError> {
    let registry = Text::new(alloc, "docker.io")?;
    let name = Text::new(alloc, "busybox")?;
    let tagged = Reference::with_tag(registry, name, Text::new(alloc, "v1")?);
    let whole = tagged.whole(alloc)?;
    Ok(whole.as_str() == "docker.io/busybox:v1" && tagged.tag() == Some("v1"))
}

fn digest_is_shown(alloc: Global) -> Result<bool, AllocError> {
    let registry = Text::new(alloc, "docker.io")?;
    let name = Text::new(alloc, "busybox")?;
    let named = Reference::with_digest(registry, name, Text::new(alloc, DIGEST)?);
    let parts = named.registry() == "docker.io" && named.repository() == "busybox";
    Ok(parts && named.tag().is_none() && named.digest() == Some(DIGEST))
}

#[test]
fn made_references_show_their_parts(rt: HostRuntime) {
    assert!(rt; holds(tag_is_shown(rt.alloc())));
    assert!(rt; holds(digest_is_shown(rt.alloc())));
}

fn architectures(alloc: Global) -> Result<bool, AllocError> {
    let architecture = Arch::new(Text::new(alloc, Arch::ARM64)?);
    let other = Arch::new(Text::new(alloc, Arch::AMD64)?);
    let copy = architecture.copy(alloc)?;
    Ok(architecture.as_str() == "arm64" && architecture != other && copy == architecture)
}

fn systems(alloc: Global) -> Result<bool, AllocError> {
    let system = Os::new(Text::new(alloc, Os::LINUX)?);
    let other = Os::new(Text::new(alloc, Os::WINDOWS)?);
    let copy = system.copy(alloc)?;
    Ok(system.as_str() == "linux" && system != other && copy == system)
}

#[test]
fn platforms_are_named_by_texts(rt: HostRuntime) {
    assert!(rt; holds(architectures(rt.alloc())));
    assert!(rt; holds(systems(rt.alloc())));
}
