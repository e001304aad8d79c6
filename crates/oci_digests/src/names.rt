// Texts that name bytes by a hash.
ghost use Rattle.std.specs.Prelude.{◌≡◌, ◌↔◌, ◌++◌, ◌≤◌, ◌*◌, List, ℕ, IsTrue, IfOk, MatchOption, length};
ghost use Rattle.hex.specs.Hex.{encode_lower};
ghost use Rattle.oci_digests.specs.Names.{digest_text, Names, names, prefix_of};
ghost use Rattle.oci_digests.specs.Checks.{named_algorithm};

use crate::digest::Digest as Parts;
use crate::hasher::{digest_text, names_by};
use json_values::Text;
use oci_names::Algorithm;
use std::alloc::{AllocError, Global};

/// Returns whether the text names the bytes. Hashes them only by the algorithm with which the text begins.
#[tactic(auto, using(crate::proofs::Equal::named))]
pub fn names_digest(text: &str, bytes: &[u8]) -> bool
    ensures exact { IsTrue result ↔ Names text.now bytes.now }
    ensures same { result ≡ names text.now bytes.now }
{
    Algorithm::ALL
        .iter()
        .any(|algorithm| names_by(*algorithm, text, bytes))
}

/// Returns whether the text names the bytes, given that the text `known` does: hashes nothing if both texts have one
/// algorithm.
#[tactic(auto, using(crate::proofs::SameBytes::names_known))]
pub fn names_known(text: &str, known: &str, bytes: &[u8]) -> bool
    requires { Names known.now bytes.now }
    ensures { result ≡ names text.now bytes.now }
{
    if same_algorithm(text, known) {
        return text == known;
    }
    names_digest(text, bytes)
}

#[tactic(auto, using(crate::proofs::SameBytes::same_algorithm))]
fn same_algorithm(text: &str, known: &str) -> bool
    ensures { IsTrue result → named_algorithm text.now ≡ named_algorithm known.now }
{
    match (Parts::new(text), Parts::new(known)) {
        (Ok(text), Ok(known)) => text.algorithm == known.algorithm,
        _ => false,
    }
}

/// Returns the text after the name of the algorithm and a colon, or `None` if the text does not begin with these.
#[tactic(auto, using(crate::proofs::Prefixes::rules))]
pub fn digits_after(algorithm: Algorithm, text: &str) -> Option<&str>
    ensures { MatchOption result
        ((rest : List ℕ) → text.now ≡ prefix_of algorithm ++ rest → ⊥)
        (λ rest. text.now ≡ prefix_of algorithm ++ rest.now) }
{
    let Some(rest) = after(algorithm.name(), text) else {
        return None;
    };
    let Some(digits) = after(":", rest) else {
        return None;
    };
    Some(digits)
}

fn after<'a>(front: &str, text: &'a str) -> Option<&'a str>
    ensures { MatchOption result
        ((rest : List ℕ) → text.now ≡ front.now ++ rest → ⊥)
        (λ rest. text.now ≡ front.now ++ rest.now) }
{
    match text.strip_prefix(front) {
        Some(rest) => Some(rest),
        None => None,
    }
}

fn is_same(a: &[u8], b: &[u8]) -> bool
    ensures { IsTrue result ↔ (a.now ≡ b.now) }
{
    a == b
}

// Returns whether these are the digits of the hash.
pub(crate) fn is_hex_of(digits: &[u8], hash: &[u8]) -> bool
    requires { length hash.now ≤ 64 }
    ensures { IsTrue result ↔ (digits.now ≡ encode_lower hash.now) }
{
    let mut buffer = [0u8; 128];
    is_hex_by(digits, hash, &mut buffer[..2 * hash.len()])
}

// The buffer is as long as the digits.
fn is_hex_by(digits: &[u8], hash: &[u8], buffer: &mut [u8]) -> bool
    requires { length buffer.old ≡ 2 * length hash.now }
    ensures { IsTrue result ↔ (digits.now ≡ encode_lower hash.now) }
{
    match hex::encode_to_slice(hash, buffer) {
        Ok(()) => is_same(digits, buffer),
        Err(_) => false,
    }
}

/// Returns the SHA-256 text of the bytes.
pub fn sha256_digest(alloc: Global, bytes: &[u8]) -> Result<Text, AllocError>
    ensures { IfOk result (λ text. text ≡ digest_text Algorithm.Sha256 bytes.now) }
{
    digest_text(alloc, Algorithm::Sha256, bytes)
}

// Returns the digest text of the hash.
pub(crate) fn text_of(alloc: Global, algorithm: Algorithm, hash: &[u8]) -> Result<Text, AllocError>
    ensures { IfOk result (λ text. text ≡ prefix_of algorithm ++ encode_lower hash.now) }
{
    let mut text = Text::new(alloc, algorithm.name())?;
    text.push_str(":")?;
    text.push_str(hex::encode(alloc, hash)?.as_str())?;
    Ok(text)
}
