// Digests of bytes.
use oci_digests::{
    Algorithm, Digest, DigestError, Digester, digest_header_value, digest_text, names_digest,
    sha256_digest, validate_digest,
};
use recorded_answers::holds;
use std::alloc::{AllocError, Global};
use std::cmp::Ordering;

// The digests of `abc` in FIPS 180-4's examples.
const ABC_256: &str = "sha256:ba7816bf8f01cfea414140de5dae2223b00361a396177a9cb410ff61f20015ad";

const ABC_384: &str =
    "sha384:cb00753f45a35e8bb5a03d699ac65007272c32ab0eded1631a8b605a43ff5bed8086072ba1e7cc2358baeca134c825a7";

const ABC_512: &str =
    "sha512:ddaf35a193617abacc417349ae20413112e6fa4e89a97ea20a9eeee64b55d39a2192992a274fc1a836ba3c23a3feebbd454d\
        4423643ce80e2a9ac94fa54ca49f";

const MD5: &str = "md5:d41d8cd98f00b204e9800998ecf8427e";

const EMPTY_256: &str = "sha256:e3b0c44298fc1c149afbf4c8996fb92427ae41e4649b934ca495991b7852b855";

fn is_digest(alloc: Global, algorithm: Algorithm, want: &str) -> Result<bool, AllocError> {
    let text = digest_text(alloc, algorithm, b"abc")?;
    Ok(text.as_str() == want && names_digest(want, b"abc") && !names_digest(want, b"abcd"))
}

fn is_lower_case(alloc: Global) -> Result<bool, AllocError> {
    let upper = ABC_256.to_ascii_uppercase(alloc)?;
    let empty = sha256_digest(alloc, b"")?;
    Ok(!names_digest(upper.as_str(), b"abc") && empty.as_str() == EMPTY_256)
}

#[test]
fn texts_are_those_of_the_standard_examples(rt: HostRuntime) {
    assert!(rt; holds(is_digest(rt.alloc(), Algorithm::Sha256, ABC_256)));
    assert!(rt; holds(is_digest(rt.alloc(), Algorithm::Sha384, ABC_384)));
    assert!(rt; holds(is_digest(rt.alloc(), Algorithm::Sha512, ABC_512)));
    assert!(rt; holds(is_lower_case(rt.alloc())));
}

fn takes_pieces(alloc: Global, want: &str) -> Result<bool, AllocError> {
    let Ok(mut digester) = Digester::new(alloc, want) else {
        return Ok(false);
    };
    digester.update(b"a");
    digester.update(b"bc");
    let first = digester.finalize(alloc)?;
    digester.update(b"abc");
    let second = digester.finalize(alloc)?;
    Ok(first.as_str() == want && second.as_str() == want)
}

#[test]
fn a_digester_takes_pieces_and_is_as_new_afterwards(rt: HostRuntime) {
    assert!(rt; holds(takes_pieces(rt.alloc(), ABC_256)));
    assert!(rt; holds(takes_pieces(rt.alloc(), ABC_384)));
    assert!(rt; holds(takes_pieces(rt.alloc(), ABC_512)));
}

fn is_split(alloc: Global) -> Result<bool, AllocError> {
    let Ok(digest) = Digest::new("sha256:ab:cd") else {
        return Ok(false);
    };
    let text = digest.to_string(alloc)?;
    let parts = digest.algorithm == "sha256" && digest.digest == "ab:cd";
    Ok(parts && text.as_str() == "sha256:ab:cd")
}

fn order(lower: &str, upper: &str) -> Option<Ordering> {
    match (Digest::new(lower), Digest::new(upper)) {
        (Ok(a), Ok(b)) => Some(a.cmp(&b)),
        _ => None,
    }
}

#[test]
fn a_digest_text_is_split_at_its_first_colon(rt: HostRuntime) {
    assert!(rt; holds(is_split(rt.alloc())));
    assert!(rt; Digest::new("sha256").is_err());
    assert!(rt; Digester::new(rt.alloc(), MD5).is_err());
}

#[test]
fn digests_are_ordered_by_algorithm_then_digest(rt: HostRuntime) {
    assert!(rt; order("sha256:ab", "sha512:") == Some(Ordering::Less));
    assert!(rt; order("sha256:ab", "sha256:aa") == Some(Ordering::Greater));
    assert!(rt; order("sha256:", "sha256:") == Some(Ordering::Equal));
}

fn is_valid(alloc: Global, header: Option<&str>, reference: Option<&str>, want: &str) -> bool {
    match validate_digest(alloc, b"abc", header, reference) {
        Ok(text) => text.as_str() == want,
        Err(_) => false,
    }
}

#[test]
fn a_body_is_named_by_its_header_or_its_reference(rt: HostRuntime) {
    assert!(rt; is_valid(rt.alloc(), None, None, ABC_256));
    assert!(rt; is_valid(rt.alloc(), Some(ABC_512), None, ABC_512));
    assert!(rt; is_valid(rt.alloc(), None, Some(ABC_384), ABC_384));
    assert!(rt; is_valid(rt.alloc(), Some(ABC_512), Some(ABC_384), ABC_512));
}

// Whether the check fails with the digest that the body was expected to have, and that of the body.
fn is_mismatch(alloc: Global, header: Option<&str>, reference: Option<&str>, want: &str) -> bool {
    match validate_digest(alloc, b"abc", header, reference) {
        Err(DigestError::VerificationError { expected, actual }) => {
            expected.as_str() == want && names_digest(actual.as_str(), b"abc")
        }
        _ => false,
    }
}

#[test]
fn a_body_is_checked_against_each_digest(rt: HostRuntime) {
    assert!(rt; is_mismatch(rt.alloc(), Some(EMPTY_256), Some(ABC_256), EMPTY_256));
    assert!(rt; is_mismatch(rt.alloc(), Some(MD5), Some(EMPTY_256), EMPTY_256));
    assert!(rt;
        is_mismatch(
            rt.alloc(),
            Some(ABC_256),
            Some("sha512:invalid"),
            "sha512:invalid"
        )
    );
    assert!(rt; validate_digest(rt.alloc(), b"abc", Some(MD5), None).is_err());
}

fn is_header(alloc: Global, value: &[u8], want: &str) -> bool {
    match digest_header_value(alloc, Some(value)) {
        Ok(Some(text)) => text.as_str() == want,
        _ => false,
    }
}

fn is_no_text(alloc: Global, value: &[u8]) -> bool {
    match digest_header_value(alloc, Some(value)) {
        Err(DigestError::InvalidHeader(bytes)) => bytes.as_slice() == value,
        _ => false,
    }
}

#[test]
fn a_digest_header_is_text_or_refused(rt: HostRuntime) {
    assert!(rt; is_header(rt.alloc(), b"sha256:ab", "sha256:ab"));
    assert!(rt; is_no_text(rt.alloc(), b"\x7f"));
    assert!(rt; is_no_text(rt.alloc(), b"\x80"));
}
