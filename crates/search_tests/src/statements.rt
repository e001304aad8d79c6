// The constraint on statements, over a table of bundles.
use cosign_layers::{Constraint, StatementVerifier};
use cosign_parts::{LayerKind, SignatureLayer, predicate_type};
use json_values::{Annotations, Blob, List, Text};
use std::alloc::{AllocError, Global};

const SIGN: &str = "https://sigstore.dev/cosign/sign/v1";

const STATEMENT: &str = "application/vnd.in-toto+json";

// The type of an envelope's payload, the payload in base64, and whether it is a statement of the type `SIGN`.
const STATEMENTS: &[(&str, &str, bool)] = &[
    // {"predicateType":"SIGN","predicate":{}}
    (
        STATEMENT,
        "eyJwcmVkaWNhdGVUeXBlIjoiaHR0cHM6Ly9zaWdzdG9yZS5kZXYvY29zaWduL3NpZ24vdjEiLCJwcmVkaWNhdGUiOnt9fQ==",
        true,
    ),
    // {"predicateType":"https://slsa.dev/provenance/v1"}
    (
        STATEMENT,
        "eyJwcmVkaWNhdGVUeXBlIjoiaHR0cHM6Ly9zbHNhLmRldi9wcm92ZW5hbmNlL3YxIn0=",
        false,
    ),
    // {"predicateType":"SIGN/"}
    (
        STATEMENT,
        "eyJwcmVkaWNhdGVUeXBlIjoiaHR0cHM6Ly9zaWdzdG9yZS5kZXYvY29zaWduL3NpZ24vdjEvIn0=",
        false,
    ),
    // {"predicateType":1}
    (STATEMENT, "eyJwcmVkaWNhdGVUeXBlIjoxfQ==", false),
    // {"predicate":{}}
    (STATEMENT, "eyJwcmVkaWNhdGUiOnt9fQ==", false),
    // {"predicateType":"x","predicateType":"SIGN"}
    (
        STATEMENT,
        "eyJwcmVkaWNhdGVUeXBlIjoieCIsInByZWRpY2F0ZVR5cGUiOiJodHRwczovL3NpZ3N0b3JlLmRldi9jb3NpZ24vc2lnbi92MSJ9",
        true,
    ),
    // {"predicateType":"SIGN","predicateType":"x"}
    (
        STATEMENT,
        "eyJwcmVkaWNhdGVUeXBlIjoiaHR0cHM6Ly9zaWdzdG9yZS5kZXYvY29zaWduL3NpZ24vdjEiLCJwcmVkaWNhdGVUeXBlIjoieCJ9",
        false,
    ),
    // {"x":[-1,{"y":18446744073709551615}],"predicateType":"SIGN"}
    (
        STATEMENT,
        "eyJ4IjpbLTEseyJ5IjoxODQ0Njc0NDA3MzcwOTU1MTYxNX1dLCJwcmVkaWNhdGVUeXBlIjoi\
        aHR0cHM6Ly9zaWdzdG9yZS5kZXYvY29zaWduL3NpZ24vdjEifQ==",
        true,
    ),
    // {"predicateType":"SIGN","x":1.5}
    (
        STATEMENT,
        "eyJwcmVkaWNhdGVUeXBlIjoiaHR0cHM6Ly9zaWdzdG9yZS5kZXYvY29zaWduL3NpZ24vdjEiLCJ4IjoxLjV9",
        false,
    ),
    // {"predicateType":"SIGN","x":18446744073709551616}
    (
        STATEMENT,
        "eyJwcmVkaWNhdGVUeXBlIjoiaHR0cHM6Ly9zaWdzdG9yZS5kZXYvY29zaWduL3NpZ24vdjEiLCJ4IjoxODQ0Njc0NDA3MzcwOTU1MTYxNn0=",
        false,
    ),
    // {"x":1.5,"predicateType":"SIGN","x":1}
    (
        STATEMENT,
        "eyJ4IjoxLjUsInByZWRpY2F0ZVR5cGUiOiJodHRwczovL3NpZ3N0b3JlLmRldi9jb3NpZ24vc2lnbi92MSIsIngiOjF9",
        true,
    ),
    // {"predicateType":"SIGN"}
    (
        "application/json",
        "eyJwcmVkaWNhdGVUeXBlIjoiaHR0cHM6Ly9zaWdzdG9yZS5kZXYvY29zaWduL3NpZ24vdjEifQ==",
        false,
    ),
    // ["predicateType","SIGN"]
    (
        STATEMENT,
        "WyJwcmVkaWNhdGVUeXBlIiwiaHR0cHM6Ly9zaWdzdG9yZS5kZXYvY29zaWduL3NpZ24vdjEiXQ==",
        false,
    ),
    // {"predicateType":"SIGN"} x
    (
        STATEMENT,
        "eyJwcmVkaWNhdGVUeXBlIjoiaHR0cHM6Ly9zaWdzdG9yZS5kZXYvY29zaWduL3NpZ24vdjEifSB4",
        false,
    ),
    // {"predicateType":"SIGN"
    (
        STATEMENT,
        "eyJwcmVkaWNhdGVUeXBlIjoiaHR0cHM6Ly9zaWdzdG9yZS5kZXYvY29zaWduL3NpZ24vdjEi",
        false,
    ),
];

// A bundle with this envelope.
fn bundle(alloc: Global, payload_type: &str, payload: &str) -> Result<Blob, AllocError> {
    let text = format!(in alloc;
        "{{\"mediaType\":\"application/vnd.dev.sigstore.bundle.v0.3+json\",\
        \"dsseEnvelope\":{{\"payload\":\"{payload}\",\"payloadType\":\"{payload_type}\",\
        \"signatures\":[{{\"sig\":\"c2lnMQ==\"}}]}},\"verificationMaterial\":{{}}}}"
    )?;
    Blob::new(alloc, text.as_bytes())
}

fn layer(alloc: Global, kind: LayerKind, content: Blob) -> Result<SignatureLayer, AllocError> {
    Ok(SignatureLayer {
        kind,
        content,
        oci_digest: Text::new(alloc, "sha256:0")?,
        annotations: Annotations::new(alloc),
        simple_signing: None,
        signature: Text::new(alloc, "c2lnMQ==")?,
        certificate_signature: None,
        bundle: None,
    })
}

fn constraint(alloc: Global, known: &[&str]) -> Result<Constraint, AllocError> {
    let mut types = List::new(alloc);
    for text in known {
        types.push(Text::new(alloc, text)?)?;
    }
    Ok(Constraint::Statements(StatementVerifier::new(alloc, types)))
}

fn accepts(alloc: Global, known: &[&str], row: &(&str, &str, bool)) -> Result<bool, AllocError> {
    let constraint = constraint(alloc, known)?;
    let content = bundle(alloc, row.0, row.1)?;
    let layer = layer(alloc, LayerKind::Bundle, content)?;
    constraint.verify(&layer)
}

fn row_is_right(alloc: Global, row: &(&str, &str, bool)) -> Result<bool, AllocError> {
    let one = accepts(alloc, &[SIGN], row)?;
    let second = accepts(alloc, &["x", SIGN], row)?;
    let none = accepts(alloc, &[], row)?;
    Ok(one == row.2 && (second || !row.2) && !none)
}

fn table_is_right(alloc: Global) -> bool {
    STATEMENTS
        .iter()
        .all(|row| row_is_right(alloc, row) == Ok(true))
}

fn payload_is_accepted(alloc: Global) -> Result<bool, AllocError> {
    let constraint = constraint(alloc, &[])?;
    let content = Blob::new(alloc, b"p")?;
    let layer = layer(alloc, LayerKind::Payload, content)?;
    constraint.verify(&layer)
}

fn no_bundle_has_a_type(alloc: Global) -> bool {
    matches!(predicate_type(alloc, b"{}"), Ok(None))
}

#[test]
fn a_bundle_is_accepted_by_its_statements_type(rt: HostRuntime) {
    assert!(rt; table_is_right(rt.alloc()));
    assert!(rt; payload_is_accepted(rt.alloc()) == Ok(true));
    assert!(rt; no_bundle_has_a_type(rt.alloc()));
}
