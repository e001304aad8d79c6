// The check that a layer fails first.
use crate::trusted::{SOURCE, log_keys, verifier};
use cosign_layers::{LayerPart, LayerRejection, read_bundle_layer, read_payload_layer};
use cosign_parts::{NoCertificates, SignatureLayer};
use json_values::{Annotations, Blob, Text};
use oci_digests::sha256_digest;
use std::alloc::{AllocError, Global};

// The SHA-256 digest of `y`.
const OTHER: &str = "sha256:a1fce4363854ff888cff4b8e7875d600c2682390412a8cf79b37d0b11148b0fa";

const PAYLOAD_TYPE: &str = "cosign container image signature";

const BUNDLE_TYPE: &str = "application/vnd.dev.sigstore.bundle.v0.3+json";

// The log entry of the payload about the source and of its signature `sig1`, which the log signed.
const LOGGED: &str = "{\"SignedEntryTimestamp\":\"c2V0MQ==\",\
        \"Payload\":{\"body\":\"eyJhcGlWZXJzaW9uIjoiMC4wLjEiLCJraW5kIjoiaGFzaGVkcmVrb3JkIiwic3BlYyI6eyJkYXRhIjp7\
        Imhhc2giOnsiYWxnb3JpdGhtIjoic2hhMjU2IiwidmFsdWUiOiI3ZjkwNWYzYzQ4NTg1NDg5Yzc5MDU2Y2FiMGViNTZjZDE4ZDg3M2E4\
        OTE1ZTBkYzY0MDgyZGQ0MDUwY2JiODFhIn19LCJzaWduYXR1cmUiOnsiY29udGVudCI6ImMybG5NUT09In19fQ==\",\
        \"integratedTime\":1,\"logID\":\"ab\",\"logIndex\":2}}";

// Statements about the source, about another image, and about the source's digits by another algorithm.
const OF_SOURCE: &str =
    "eyJzdWJqZWN0IjpbeyJkaWdlc3QiOnsic2hhMjU2IjoiYjk0ZDI3Yjk5MzRkM2UwOGE1MmU1MmQ3ZGE3ZGFiZmFjNDg0ZWZlMzdhNTM4MGV\
        lOTA4OGY3YWNlMmVmY2RlOSJ9fV19";

const OF_OTHER: &str =
    "eyJzdWJqZWN0IjpbeyJkaWdlc3QiOnsic2hhMjU2IjoiYTFmY2U0MzYzODU0ZmY4ODhjZmY0YjhlNzg3NWQ2MDBjMjY4MjM5MDQxMmE4Y2Y\
        3OWIzN2QwYjExMTQ4YjBmYSJ9fV19";

const BY_SHA512: &str =
    "eyJzdWJqZWN0IjpbeyJkaWdlc3QiOnsic2hhNTEyIjoiYjk0ZDI3Yjk5MzRkM2UwOGE1MmU1MmQ3ZGE3ZGFiZmFjNDg0ZWZlMzdhNTM4MGV\
        lOTA4OGY3YWNlMmVmY2RlOSJ9fV19";

// The image and the type that a payload names, what its digest is of (of itself, if that is empty), its signature, log
// entry and certificate, and the first check that fails. The next check would fail too, if possible.
const PAYLOADS: [[&str; 7]; 11] = [
    [SOURCE, "other", "y", "", "", "", "DigestMismatch"],
    [OTHER, "other", "", "", "", "", "Unreadable(Content)"],
    [OTHER, PAYLOAD_TYPE, "", "", "", "", "OtherDigest"],
    [SOURCE, PAYLOAD_TYPE, "", "", "x", "", "NoSignature"],
    [
        SOURCE,
        PAYLOAD_TYPE,
        "",
        "?",
        "x",
        "",
        "Unreadable(Signature)",
    ],
    [
        SOURCE,
        PAYLOAD_TYPE,
        "",
        "c2lnMQ==",
        "x",
        "c",
        "Unreadable(LogEntry)",
    ],
    [
        SOURCE,
        PAYLOAD_TYPE,
        "",
        "c2lnMQ==",
        r#"{"SignedEntryTimestamp":"c2V0MQ==","Payload":{"body":"e30=","integratedTime":1,"logID":"cd","logIndex":2}}"#,
        "c",
        "UnknownLogKey",
    ],
    [
        SOURCE,
        PAYLOAD_TYPE,
        "",
        "c2lnMQ==",
        r#"{"SignedEntryTimestamp":"c2V0MQ==","Payload":{"body":"bm8=","integratedTime":1,"logID":"ab","logIndex":2}}"#,
        "c",
        "BadLogSignature",
    ],
    [
        SOURCE,
        PAYLOAD_TYPE,
        "",
        "c2lnMQ==",
        r#"{"SignedEntryTimestamp":"c2V0MQ==","Payload":{"body":"e30=","integratedTime":1,"logID":"ab","logIndex":2}}"#,
        "c",
        "OtherLogEntry",
    ],
    [SOURCE, PAYLOAD_TYPE, "", "c2lnMQ==", "", "c", "NoLogEntry"],
    [
        SOURCE,
        PAYLOAD_TYPE,
        "",
        "c2lnMQ==",
        LOGGED,
        "c",
        "NotVouched",
    ],
];

// The type of a bundle, its statement, signatures and material, what its digest is of, and the first check that fails.
// After one case per check: two signatures, and malformed material, certificate and subject.
const BUNDLES: [[&str; 6]; 15] = [
    ["other", OF_OTHER, "[]", "{}", "y", "DigestMismatch"],
    ["other", OF_OTHER, "[{}]", "{}", "", "Unreadable(Content)"],
    [BUNDLE_TYPE, OF_OTHER, "[{}]", "{}", "", "OtherDigest"],
    [
        BUNDLE_TYPE,
        OF_SOURCE,
        "[{}]",
        "{\"tlogEntries\":[{\"inclusionPromise\":{\"signedEntryTimestamp\":\"c2V0MQ==\"},\
            \"logId\":{\"keyId\":\"qw==\"},\"integratedTime\":\"x\",\"logIndex\":\"2\",\
            \"canonicalizedBody\":\"e30=\"}]}",
        "",
        "NoSignature",
    ],
    [
        BUNDLE_TYPE,
        OF_SOURCE,
        r#"[{"sig":"?"}]"#,
        "{\"tlogEntries\":[{\"inclusionPromise\":{\"signedEntryTimestamp\":\"c2V0MQ==\"},\
            \"logId\":{\"keyId\":\"qw==\"},\"integratedTime\":\"x\",\"logIndex\":\"2\",\
            \"canonicalizedBody\":\"e30=\"}]}",
        "",
        "Unreadable(Signature)",
    ],
    [
        BUNDLE_TYPE,
        OF_SOURCE,
        r#"[{"sig":"c2lnMQ=="}]"#,
        "{\"tlogEntries\":[{\"inclusionPromise\":{\"signedEntryTimestamp\":\"c2V0MQ==\"},\
            \"logId\":{\"keyId\":\"zQ==\"},\"integratedTime\":\"x\",\"logIndex\":\"2\",\
            \"canonicalizedBody\":\"e30=\"}],\"certificate\":{}}",
        "",
        "Unreadable(LogEntry)",
    ],
    [
        BUNDLE_TYPE,
        OF_SOURCE,
        r#"[{"sig":"c2lnMQ=="}]"#,
        "{\"tlogEntries\":[{\"inclusionPromise\":{\"signedEntryTimestamp\":\"c2V0MQ==\"},\
            \"logId\":{\"keyId\":\"zQ==\"},\"integratedTime\":\"1\",\"logIndex\":\"2\",\
            \"canonicalizedBody\":\"bm8=\"}],\"certificate\":{}}",
        "",
        "UnknownLogKey",
    ],
    [
        BUNDLE_TYPE,
        OF_SOURCE,
        r#"[{"sig":"c2lnMQ=="}]"#,
        "{\"tlogEntries\":[{\"inclusionPromise\":{\"signedEntryTimestamp\":\"c2V0MQ==\"},\
            \"logId\":{\"keyId\":\"qw==\"},\"integratedTime\":\"1\",\"logIndex\":\"2\",\
            \"canonicalizedBody\":\"bm8=\"}],\"certificate\":{}}",
        "",
        "BadLogSignature",
    ],
    [
        BUNDLE_TYPE,
        OF_SOURCE,
        r#"[{"sig":"c2lnMQ=="}]"#,
        r#"{"certificate":{"rawBytes":"?"}}"#,
        "",
        "Unreadable(Certificate)",
    ],
    [
        BUNDLE_TYPE,
        OF_SOURCE,
        r#"[{"sig":"c2lnMQ=="}]"#,
        r#"{"certificate":{"rawBytes":"Yw=="}}"#,
        "",
        "NoLogEntry",
    ],
    [
        BUNDLE_TYPE,
        OF_SOURCE,
        r#"[{"sig":"c2lnMQ=="}]"#,
        "{\"tlogEntries\":[{\"inclusionPromise\":{\"signedEntryTimestamp\":\"c2V0MQ==\"},\
            \"logId\":{\"keyId\":\"qw==\"},\"integratedTime\":\"1\",\"logIndex\":\"2\",\
            \"canonicalizedBody\":\"e30=\"}],\"certificate\":{\"rawBytes\":\"Yw==\"}}",
        "",
        "NotVouched",
    ],
    [
        BUNDLE_TYPE,
        OF_SOURCE,
        r#"[{"sig":"c2lnMQ=="},{"sig":"c2lnMQ=="}]"#,
        "{}",
        "",
        "Unreadable(Content)",
    ],
    [
        BUNDLE_TYPE,
        OF_SOURCE,
        r#"[{"sig":"c2lnMQ=="}]"#,
        "[]",
        "",
        "Unreadable(Content)",
    ],
    [
        BUNDLE_TYPE,
        OF_SOURCE,
        r#"[{"sig":"c2lnMQ=="}]"#,
        r#"{"certificate":"Yw=="}"#,
        "",
        "Unreadable(Content)",
    ],
    [
        BUNDLE_TYPE,
        BY_SHA512,
        r#"[{"sig":"c2lnMQ=="}]"#,
        "{}",
        "",
        "OtherDigest",
    ],
];

fn part(part: LayerPart) -> &'static str {
    match part {
        LayerPart::Content => "Unreadable(Content)",
        LayerPart::Signature => "Unreadable(Signature)",
        LayerPart::LogEntry => "Unreadable(LogEntry)",
        LayerPart::Certificate => "Unreadable(Certificate)",
    }
}

fn cause(rejection: &LayerRejection) -> &'static str {
    match rejection {
        LayerRejection::DigestMismatch => "DigestMismatch",
        LayerRejection::Unreadable(unread) => part(*unread),
        LayerRejection::OtherDigest => "OtherDigest",
        LayerRejection::NoSignature => "NoSignature",
        LayerRejection::UnknownLogKey(_) => "UnknownLogKey",
        LayerRejection::BadLogSignature => "BadLogSignature",
        LayerRejection::OtherLogEntry(_) => "OtherLogEntry",
        LayerRejection::NoLogEntry => "NoLogEntry",
        LayerRejection::NotVouched => "NotVouched",
        LayerRejection::LayerNotPulled => "LayerNotPulled",
        LayerRejection::WantOfMemory => "WantOfMemory",
    }
}

fn is_rejected(read: &Result<SignatureLayer, LayerRejection>, wanted: &str) -> bool {
    match read {
        Ok(_) => false,
        Err(rejection) => cause(rejection) == wanted,
    }
}

fn joined(alloc: Global, pieces: &[&str]) -> Result<Blob, AllocError> {
    let mut text = Blob::empty(alloc);
    for piece in pieces {
        text.append(piece.as_bytes())?;
    }
    Ok(text)
}

// The digest of these bytes, or of the text, if there is one.
fn named(alloc: Global, content: &[u8], text: &str) -> Result<Text, AllocError> {
    if text.is_empty() {
        return sha256_digest(alloc, content);
    }
    sha256_digest(alloc, text.as_bytes())
}

fn payload(alloc: Global, given: &[&str; 7]) -> Result<Blob, AllocError> {
    let pieces = [
        r#"{"critical":{"identity":{"docker-reference":"r.example/app"},"image":{"docker-manifest-digest":""#,
        given[0],
        r#""},"type":""#,
        given[1],
        r#""},"optional":null}"#,
    ];
    joined(alloc, &pieces)
}

fn bundle(alloc: Global, given: &[&str; 6]) -> Result<Blob, AllocError> {
    let pieces = [
        r#"{"mediaType":""#,
        given[0],
        r#"","dsseEnvelope":{"payloadType":"t","payload":""#,
        given[1],
        r#"","signatures":"#,
        given[2],
        r#"},"verificationMaterial":"#,
        given[3],
        "}",
    ];
    joined(alloc, &pieces)
}

// Adds the annotation, if there is one.
fn note(alloc: Global, notes: &mut Annotations, name: &str, text: &str) -> Result<(), AllocError> {
    if text.is_empty() {
        return Ok(());
    }
    notes.insert(Text::new(alloc, name)?, Text::new(alloc, text)?)?;
    Ok(())
}

fn notes(alloc: Global, given: &[&str; 7]) -> Result<Annotations, AllocError> {
    let mut notes = Annotations::new(alloc);
    note(
        alloc,
        &mut notes,
        "dev.cosignproject.cosign/signature",
        given[3],
    )?;
    note(alloc, &mut notes, "dev.sigstore.cosign/bundle", given[4])?;
    note(
        alloc,
        &mut notes,
        "dev.sigstore.cosign/certificate",
        given[5],
    )?;
    Ok(notes)
}

fn payload_fails(alloc: Global, given: &[&str; 7]) -> Result<bool, AllocError> {
    let content = payload(alloc, given)?;
    let digest = named(alloc, content.as_slice(), given[2])?;
    let notes = notes(alloc, given)?;
    let log_keys = log_keys(alloc)?;
    let verifier = verifier(alloc)?;
    let read = read_payload_layer(
        alloc,
        &content,
        digest.as_str(),
        &notes,
        SOURCE,
        &log_keys,
        &verifier,
        &NoCertificates,
    );
    Ok(is_rejected(&read, given[6]))
}

fn bundle_fails(alloc: Global, given: &[&str; 6]) -> Result<bool, AllocError> {
    let content = bundle(alloc, given)?;
    let digest = named(alloc, content.as_slice(), given[4])?;
    let notes = Annotations::new(alloc);
    let log_keys = log_keys(alloc)?;
    let verifier = verifier(alloc)?;
    let read = read_bundle_layer(
        alloc,
        &content,
        digest.as_str(),
        &notes,
        SOURCE,
        &log_keys,
        &verifier,
        &NoCertificates,
    );
    Ok(is_rejected(&read, given[5]))
}

fn each_payload_fails(alloc: Global) -> Result<bool, AllocError> {
    for given in &PAYLOADS {
        let fails = payload_fails(alloc, given)?;
        if !fails {
            return Ok(false);
        }
    }
    Ok(true)
}

fn each_bundle_fails(alloc: Global) -> Result<bool, AllocError> {
    for given in &BUNDLES {
        let fails = bundle_fails(alloc, given)?;
        if !fails {
            return Ok(false);
        }
    }
    Ok(true)
}

#[test]
fn a_payload_fails_its_first_check(rt: HostRuntime) {
    assert!(rt; each_payload_fails(rt.alloc()) == Ok(true));
}

#[test]
fn a_bundle_fails_its_first_check(rt: HostRuntime) {
    assert!(rt; each_bundle_fails(rt.alloc()) == Ok(true));
}
