// A bundle in the form that current tools write, whose certificate names a workflow.
use crate::trusted::{SOURCE, log_keys, verifier};
use cosign_layers::{
    CertSubjectUrlVerifier, Constraint, PullPolicy, read_bundle_layer, satisfies_policy,
};
use cosign_parts::{SignatureLayer, TableJudge, Vouched, VouchedRow};
use json_values::{Annotations, Blob, List, Text};
use std::alloc::{AllocError, Global};

const WRITTEN: &str = "{\"mediaType\":\"application/vnd.dev.sigstore.bundle.v0.3+json\",\
        \"verificationMaterial\":{\"certificate\":{\"rawBytes\":\"Yw==\"},\
        \"tlogEntries\":[{\"logIndex\":\"137000000\",\
        \"logId\":{\"keyId\":\"wNI9atQGlz+VWfO6LRygH4QUfY/8W4RFwiT5i5WRgB0=\"},\
        \"kindVersion\":{\"kind\":\"dsse\",\"version\":\"0.0.1\"},\"integratedTime\":\"1728000000\",\
        \"inclusionPromise\":{\"signedEntryTimestamp\":\"c2V0MQ==\"},\
        \"inclusionProof\":{\"logIndex\":\"15000000\",\
        \"rootHash\":\"cnJycnJycnJycnJycnJycnJycnJycnJycnJycnJycnI=\",\"treeSize\":\"15000001\",\
        \"hashes\":[\"aGhoaGhoaGhoaGhoaGhoaGhoaGhoaGhoaGhoaGhoaGg=\"],\
        \"checkpoint\":{\"envelope\":\"rekor.sigstore.dev - 1\\n15000001\\nr\\n\"}},\
        \"canonicalizedBody\":\"eyJhcGlWZXJzaW9uIjoiMC4wLjEiLCJraW5kIjoiZHNzZSIsInNwZWMiOnsiZW52ZWxvcGVIYXNoIjp7\
        ImFsZ29yaXRobSI6InNoYTI1NiIsInZhbHVlIjoiM2Y3OWJiN2I0MzViMDUzMjE2NTFkYWVmZDM3NGNkYzY4MWRjMDZmYWE2NWUzNzRl\
        MzgzMzdiODhjYTA0NmRlYSJ9LCJwYXlsb2FkSGFzaCI6eyJhbGdvcml0aG0iOiJzaGEyNTYiLCJ2YWx1ZSI6Ijk4MjA2MTEyMDk0OWE4\
        MmJkOTA3NGNiNGZjYzM5Y2I3YTcwMzdjYWVkN2M2NDUyZjhiYWU4YWIxOTNhOGUxYjYifSwic2lnbmF0dXJlcyI6W3sic2lnbmF0dXJl\
        IjoiYzJsbk1RPT0iLCJ2ZXJpZmllciI6ImRnPT0ifV19fQ==\"}],\
        \"timestampVerificationData\":{\"rfc3161Timestamps\":[]}},\
        \"dsseEnvelope\":{\"payload\":\"eyJfdHlwZSI6Imh0dHBzOi8vaW4tdG90by5pby9TdGF0ZW1lbnQvdjEiLCJzdWJqZWN0Ijpb\
        eyJuYW1lIjoici5leGFtcGxlL2FwcCIsImRpZ2VzdCI6eyJzaGEyNTYiOiJiOTRkMjdiOTkzNGQzZTA4YTUyZTUyZDdkYTdkYWJmYWM0\
        ODRlZmUzN2E1MzgwZWU5MDg4ZjdhY2UyZWZjZGU5In19XSwicHJlZGljYXRlVHlwZSI6Imh0dHBzOi8vc2lnc3RvcmUuZGV2L2Nvc2ln\
        bi9zaWduL3YxIiwicHJlZGljYXRlIjp7fX0=\",\"payloadType\":\"application/vnd.in-toto+json\",\
        \"signatures\":[{\"sig\":\"c2lnMQ==\"}]}}";

const DIGEST: &str = "sha256:23f732aace9404b076fec5400c7d24bb6d8e5565cb6187d6edc831ae3a3c72d3";

const WORKFLOW: &str = "https://github.com/a/b/.github/workflows/c.yml@refs/heads/main";

const ISSUER: &str = "https://token.actions.githubusercontent.com";

// Vouches for the certificate `c`, whose key is `ck`.
fn judge(alloc: Global) -> Result<Option<TableJudge>, AllocError> {
    let vouched = Vouched {
        key: Blob::new(alloc, b"ck")?,
        email: None,
        url: Some(Text::new(alloc, WORKFLOW)?),
        issuer: Some(Text::new(alloc, ISSUER)?),
    };
    let certificate = Blob::new(alloc, b"c")?;
    let mut rows = List::new(alloc);
    rows.push(VouchedRow {
        certificate,
        vouched,
    })?;
    Ok(TableJudge::new(rows))
}

// A policy without keys, under which a certificate must have this URL.
fn policy(alloc: Global, url: &str) -> Result<PullPolicy, AllocError> {
    let asked = CertSubjectUrlVerifier {
        url: Text::new(alloc, url)?,
        issuer: Text::new(alloc, ISSUER)?,
    };
    let mut constraints = List::new(alloc);
    constraints.push(Constraint::Url(asked))?;
    Ok(PullPolicy {
        keys: List::new(alloc),
        constraints,
    })
}

fn layer(alloc: Global) -> Option<SignatureLayer> {
    let content = Blob::new(alloc, WRITTEN.as_bytes()).ok()?;
    let notes = Annotations::new(alloc);
    let log_keys = log_keys(alloc).ok()?;
    let verifier = verifier(alloc).ok()?;
    let judge = judge(alloc).ok()??;
    read_bundle_layer(
        alloc, &content, DIGEST, &notes, SOURCE, &log_keys, &verifier, &judge,
    )
    .ok()
}

fn stands_for(alloc: Global, layer: &SignatureLayer, url: &str) -> Result<bool, AllocError> {
    let policy = policy(alloc, url)?;
    let verifier = verifier(alloc)?;
    satisfies_policy(alloc, &verifier, &policy, layer)
}

// Whether the layer is accepted, and stands for its workflow alone.
fn stands_for_its_workflow(alloc: Global) -> bool {
    let Some(layer) = layer(alloc) else {
        return false;
    };
    stands_for(alloc, &layer, WORKFLOW) == Ok(true) && stands_for(alloc, &layer, "x") == Ok(false)
}

#[test]
fn a_bundle_of_current_tools_stands_for_its_workflow(rt: HostRuntime) {
    assert!(rt; stands_for_its_workflow(rt.alloc()));
}
