// The search for signatures, and the verified pull.
use cosign_client::{
    Client, ClientBuilder, PullRefusal, TrustedLayers, VerifiedImage, check_links,
};
use cosign_layers::{AnnotationVerifier, Constraint, PullPolicy};
use cosign_parts::{NoCertificates, SignedRow, TableVerifier};
use json_values::{Annotations, Blob, List, Text};
use oci_transport::Script;
use recorded_answers::{
    CONFIG_DIGEST, LAYER_DIGEST, LAYER_TYPE, MANIFEST, MANIFEST_DIGEST, script,
};
use sig_registry::{Auth, OciReference, SigstoreError};
use std::alloc::{AllocError, Global};

const IMAGE: &str = "localhost:5000/app:v1";

/// The image by another digest than its own.
const OTHER: &str =
    "localhost:5000/app@sha256:bec3f566a399bddd277a387434dcaf295311323236c6b1e2b5dd93ccd6795098";

const PAYLOAD: &str = "{\"critical\":{\"identity\":{\"docker-reference\":\"localhost:5000/app\"},\
        \"image\":{\"docker-manifest-digest\":\"sha256:517b86da29754bfa57e312c35d4cf22caa38dbce39ecd24684830c1f9\
        777a635\"},\"type\":\"cosign container image signature\"},\"optional\":null}";

const PAYLOAD_DIGEST: &str =
    "sha256:bec3f566a399bddd277a387434dcaf295311323236c6b1e2b5dd93ccd6795098";

const SIGNATURES: &str =
    "{\"schemaVersion\":2,\"mediaType\":\"application/vnd.oci.image.manifest.v1+json\",\
        \"config\":{\"mediaType\":\"application/vnd.oci.image.config.v1+json\",\
        \"digest\":\"sha256:44136fa355b3678a1146ad16f7e8649e94fb4fc21fe77e8310c060f61caaff8a\",\"size\":2},\
        \"layers\":[{\"mediaType\":\"application/vnd.dev.cosign.simplesigning.v1+json\",\
        \"digest\":\"sha256:bec3f566a399bddd277a387434dcaf295311323236c6b1e2b5dd93ccd6795098\",\"size\":234,\
        \"annotations\":{\"dev.cosignproject.cosign/signature\":\"c2lnMQ==\"}}]}";

const SIGNATURES_DIGEST: &str =
    "sha256:352d647271ccfc459018f388cb2644fbd32245e9370879879ec72ddc20ee8327";

const NO_REFERRERS: &str =
    r#"{"schemaVersion":2,"mediaType":"application/vnd.oci.image.index.v1+json","manifests":[]}"#;

/// Each answer, after the one to the request for a token: those of the search, and those of the image. A token is
/// requested once more before the referrers are.
pub(crate) const ANSWERS: [(&str, &str); 19] = [
    ("", ""),
    (MANIFEST_DIGEST, ""),
    ("", ""),
    (SIGNATURES_DIGEST, SIGNATURES),
    ("", ""),
    (SIGNATURES_DIGEST, SIGNATURES),
    ("", ""),
    (CONFIG_DIGEST, "{}"),
    ("", ""),
    (PAYLOAD_DIGEST, PAYLOAD),
    ("", ""),
    ("", ""),
    ("", NO_REFERRERS),
    ("", ""),
    (MANIFEST_DIGEST, MANIFEST),
    ("", ""),
    (CONFIG_DIGEST, "{}"),
    ("", ""),
    (LAYER_DIGEST, "hello world"),
];

// The arguments of a pull.
#[derive(Drop)]
pub(crate) struct Asked {
    pub(crate) image: OciReference,
    pub(crate) accepted: List<Text>,
    pub(crate) policy: PullPolicy,
    pub(crate) verifier: TableVerifier,
}

// One key, and one constraint that each layer satisfies.
fn policy(alloc: Global) -> Result<PullPolicy, AllocError> {
    let mut keys = List::new(alloc);
    keys.push(Blob::new(alloc, b"k1")?)?;
    let mut constraints = List::new(alloc);
    let annotations = Annotations::new(alloc);
    constraints.push(Constraint::Annotations(AnnotationVerifier { annotations }))?;
    Ok(PullPolicy { keys, constraints })
}

// A verifier for which the key `k1` signs the payload by `sig1`.
fn verifier(alloc: Global) -> Result<TableVerifier, AllocError> {
    let key = Blob::new(alloc, b"k1")?;
    let message = Text::new(alloc, PAYLOAD_DIGEST)?;
    let signature = Blob::new(alloc, b"sig1")?;
    let mut rows = List::new(alloc);
    rows.push(SignedRow {
        key,
        message,
        signature,
    })?;
    Ok(TableVerifier { rows })
}

fn accepted(alloc: Global) -> Result<List<Text>, AllocError> {
    let mut accepted = List::new(alloc);
    accepted.push(Text::new(alloc, LAYER_TYPE)?)?;
    Ok(accepted)
}

pub(crate) fn all_asked(alloc: Global) -> Option<Asked> {
    let image = OciReference::parse(alloc, IMAGE).ok()?;
    let accepted = accepted(alloc).ok()?;
    let verifier = verifier(alloc).ok()?;
    let policy = policy(alloc).ok()?;
    Some(Asked {
        image,
        accepted,
        policy,
        verifier,
    })
}

// Each function below holds one value of many parts, and the next one borrows it.
pub(crate) fn client(alloc: Global) -> Option<Client> {
    ClientBuilder::new().build(alloc).ok()
}

fn pull(
    alloc: Global,
    client: &mut Client,
    script: &mut Script,
    asked: &Asked,
) -> Result<VerifiedImage, PullRefusal> {
    client.verified_pull(
        alloc,
        script,
        100,
        &asked.image,
        &Auth::Anonymous,
        asked.accepted.as_slice(),
        &asked.policy,
        &asked.verifier,
        &NoCertificates,
    )
}

// Whether the pulled image's parts are linked for these two references.
fn is_linked(
    found: &Result<VerifiedImage, PullRefusal>,
    asked: &Asked,
    other: &OciReference,
) -> (bool, bool) {
    match found {
        Ok(image) => (
            check_links(asked.image.reference(), asked.accepted.as_slice(), image),
            check_links(other.reference(), asked.accepted.as_slice(), image),
        ),
        Err(_) => (false, false),
    }
}

// Drops a pulled image in a function without other facts.
fn drop_image(_found: Result<VerifiedImage, PullRefusal>) {}

fn links_over(
    alloc: Global,
    client: &mut Client,
    script: &mut Script,
    asked: &Asked,
) -> Option<(bool, bool)> {
    let other = OciReference::parse(alloc, OTHER).ok()?;
    let found = pull(alloc, client, script, asked);
    let linked = is_linked(&found, asked, &other);
    drop_image(found);
    Some(linked)
}

fn links_of(alloc: Global, client: &mut Client, asked: &Asked) -> Option<(bool, bool)> {
    let mut script = script(alloc, &ANSWERS).ok()?;
    links_over(alloc, client, &mut script, asked)
}

fn links_by(alloc: Global, client: &mut Client) -> Option<(bool, bool)> {
    let asked = all_asked(alloc)?;
    links_of(alloc, client, &asked)
}

fn links(alloc: Global) -> Option<(bool, bool)> {
    let mut client = client(alloc)?;
    links_by(alloc, &mut client)
}

#[test]
fn an_image_comes_where_its_layer_stands_and_its_links_check(rt: HostRuntime) {
    assert!(rt; links(rt.alloc()) == Some((true, false)));
}

// How many layers were collected, and how many causes were skipped.
fn counts(found: &Result<TrustedLayers, SigstoreError>) -> Option<(usize, usize)> {
    match found {
        Ok(found) => Some((
            found.collected.as_slice().len(),
            found.skipped.as_slice().len(),
        )),
        Err(_) => None,
    }
}

// Drops what was found in a function without other facts.
fn drop_found(_found: Result<TrustedLayers, SigstoreError>) {}

fn searched(
    alloc: Global,
    client: &mut Client,
    script: &mut Script,
    asked: &Asked,
) -> Option<(usize, usize)> {
    let found = client.trusted_signature_layers(
        alloc,
        script,
        100,
        &Auth::Anonymous,
        &asked.image,
        &asked.verifier,
        &NoCertificates,
    );
    let counted = counts(&found);
    drop_found(found);
    counted
}

// The first answers.
pub(crate) fn script_of(alloc: Global, count: usize) -> Option<Script> {
    let given = ANSWERS.get(..count)?;
    script(alloc, given).ok()
}

fn search_of(
    alloc: Global,
    client: &mut Client,
    asked: &Asked,
    count: usize,
) -> Option<(usize, usize)> {
    let mut script = script_of(alloc, count)?;
    searched(alloc, client, &mut script, asked)
}

fn search_by(alloc: Global, client: &mut Client, count: usize) -> Option<(usize, usize)> {
    let asked = all_asked(alloc)?;
    search_of(alloc, client, &asked, count)
}

fn search(alloc: Global, count: usize) -> Option<(usize, usize)> {
    let mut client = client(alloc)?;
    search_by(alloc, &mut client, count)
}

#[test]
fn a_search_collects_the_layers_under_the_tag(rt: HostRuntime) {
    assert!(rt; search(rt.alloc(), 13) == Some((1, 0)));
}
