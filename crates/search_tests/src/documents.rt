// The verified pull of documents, whole and in its two parts.
use crate::pulls::{Asked, all_asked, client, script_of};
use cosign_client::{Client, PullRefusal, TrustedLayers, VerifiedDocuments, check_documents};
use cosign_parts::{LogKeys, NoCertificates, TableVerifier, Trusted};
use json_values::List;
use oci_transport::Script;
use sig_registry::Auth;
use std::alloc::Global;

fn documents(
    alloc: Global,
    client: &mut Client,
    script: &mut Script,
    asked: &Asked,
) -> Result<VerifiedDocuments, PullRefusal> {
    client.verified_documents(
        alloc,
        script,
        100,
        &asked.image,
        &Auth::Anonymous,
        &asked.policy,
        &asked.verifier,
        &NoCertificates,
    )
}

// Whether documents were pulled, and hold.
fn holds(
    alloc: Global,
    found: &Result<VerifiedDocuments, PullRefusal>,
    asked: &Asked,
) -> Option<bool> {
    let log_keys = LogKeys::new(alloc);
    let trusted = Trusted {
        log_keys: &log_keys,
        verifier: &asked.verifier,
        judge: &NoCertificates,
    };
    let Ok(found) = found else {
        return None;
    };
    let image = asked.image.reference();
    check_documents(alloc, image, None, &asked.policy, &trusted, found).ok()
}

// Drops pulled documents in a function without other facts.
fn drop_documents(_found: Result<VerifiedDocuments, PullRefusal>) {}

fn held_over(
    alloc: Global,
    client: &mut Client,
    script: &mut Script,
    asked: &Asked,
) -> Option<bool> {
    let found = documents(alloc, client, script, asked);
    let held = holds(alloc, &found, asked);
    drop_documents(found);
    held
}

fn held_of(alloc: Global, client: &mut Client, asked: &Asked, count: usize) -> Option<bool> {
    let mut script = script_of(alloc, count)?;
    held_over(alloc, client, &mut script, asked)
}

fn held_by(alloc: Global, client: &mut Client, count: usize) -> Option<bool> {
    let asked = all_asked(alloc)?;
    held_of(alloc, client, &asked, count)
}

fn held(alloc: Global, count: usize) -> Option<bool> {
    let mut client = client(alloc)?;
    held_by(alloc, &mut client, count)
}

#[test]
fn documents_come_where_a_layer_stands_and_hold(rt: HostRuntime) {
    assert!(rt; held(rt.alloc(), 15) == Some(true));
}

// ---- the two parts

// A verifier for which no key signs anything.
fn no_verifier(alloc: Global) -> TableVerifier {
    TableVerifier {
        rows: List::new(alloc),
    }
}

fn collect(
    alloc: Global,
    client: &mut Client,
    script: &mut Script,
    asked: &Asked,
    verifier: &TableVerifier,
) -> Option<TrustedLayers> {
    let found = client.collect(
        alloc,
        script,
        100,
        &asked.image,
        &Auth::Anonymous,
        &asked.policy,
        verifier,
        &NoCertificates,
    );
    found.ok()
}

fn decide(
    alloc: Global,
    client: &mut Client,
    script: &mut Script,
    asked: &Asked,
    found: TrustedLayers,
) -> Result<VerifiedDocuments, PullRefusal> {
    client.decide(
        alloc,
        script,
        100,
        &asked.image,
        &Auth::Anonymous,
        &asked.policy,
        &asked.verifier,
        &NoCertificates,
        found,
    )
}

fn decided_over(
    alloc: Global,
    client: &mut Client,
    script: &mut Script,
    asked: &Asked,
    verifier: &TableVerifier,
) -> Option<bool> {
    let collected = collect(alloc, client, script, asked, verifier)?;
    let found = decide(alloc, client, script, asked, collected);
    let held = holds(alloc, &found, asked);
    drop_documents(found);
    held
}

fn decided_of(alloc: Global, client: &mut Client, asked: &Asked, count: usize) -> Option<bool> {
    let verifier = no_verifier(alloc);
    let mut script = script_of(alloc, count)?;
    decided_over(alloc, client, &mut script, asked, &verifier)
}

fn decided_by(alloc: Global, client: &mut Client, count: usize) -> Option<bool> {
    let asked = all_asked(alloc)?;
    decided_of(alloc, client, &asked, count)
}

fn decided(alloc: Global, count: usize) -> Option<bool> {
    let mut client = client(alloc)?;
    decided_by(alloc, &mut client, count)
}

#[test]
fn what_was_collected_under_no_key_is_decided_under_one(rt: HostRuntime) {
    assert!(rt; decided(rt.alloc(), 15) == Some(true));
}
