// One body, hashed for the digests in a header and in a descriptor.
ghost use Rattle.std.specs.Prelude.{◌≡◌, ◌++◌, [], List, ℕ, IfOk};
ghost use Rattle.oci_digests.specs.Both.{GivenHolds, given_text};
ghost use Rattle.oci_digests.specs.Names.{digest_text};

use crate::digester::Digester;
use json_values::{Copied, Text, copied};
use oci_names::Algorithm;
use std::alloc::{AllocError, Global};

// How a body is hashed for the digest in a header.
#[derive(Drop)]
enum Given {
    // The header names no digest.
    Absent,
    // By the descriptor's algorithm, once for both.
    Shared,
    // By another algorithm.
    Other(Digester),
}

/// Hashes a body by the algorithm of a response's digest header, if present, and by that of a descriptor. If the two
/// are equal, each byte is hashed once.
#[derive(Drop)]
pub struct Digesters {
    given: Given,
    own: Digester,
}

/// The digest texts of a body by the algorithm of a digest header, if present, and by that of a descriptor.
#[derive(Drop)]
pub struct DigestTexts {
    /// By the header's algorithm, if present.
    pub given: Option<Text>,
    /// By the descriptor's algorithm.
    pub own: Text,
}

impl Copied for DigestTexts {
    fn copy(&self, alloc: Global) -> Result<DigestTexts, AllocError> {
        copied!(alloc, self, DigestTexts { given, own })
    }
}

fn given_of(given: Option<Algorithm>, own: Algorithm) -> Given
    ensures { GivenHolds result given own [] }
{
    match given {
        None => Given::Absent,
        Some(algorithm) if algorithm == own => Given::Shared,
        Some(algorithm) => Given::Other(Digester::of(algorithm)),
    }
}

fn update_given(given: &mut Given, piece: &[u8])
    ensures { (a : _) (b : _) (m : List ℕ) → GivenHolds given.old a b m
        → GivenHolds given.new a b (m ++ piece.now) }
{
    if let Given::Other(digester) = given {
        digester.update(piece);
    }
}

// Returns the text by the header's algorithm, given the descriptor's text.
fn given_text(alloc: Global, given: &mut Given, own: &Text) -> Result<Option<Text>, AllocError>
    ensures { (a : _) (b : _) (m : List ℕ) → GivenHolds given.old a b m → own.now ≡ digest_text b m
        → IfOk result (λ text. text ≡ given_text a m) }
{
    match given {
        Given::Absent => Ok(None),
        Given::Shared => {
            let text = own.copy(alloc)?;
            Ok(Some(text))
        }
        Given::Other(digester) => {
            let text = digester.finalize(alloc)?;
            Ok(Some(text))
        }
    }
}

impl Digesters {
    ghost use Rattle.oci_digests.specs.Both.{BothHold, texts_of};

    /// Creates digesters of these algorithms.
    pub fn of(given: Option<Algorithm>, own: Algorithm) -> Digesters
        ensures { BothHold result given own [] }
    {
        Digesters {
            given: given_of(given, own),
            own: Digester::of(own),
        }
    }

    /// Hashes the next piece of the body.
    pub fn update(&mut self, piece: &[u8])
        ensures { (a : _) (b : _) (m : List ℕ) → BothHold self.old a b m
            → BothHold self.new a b (m ++ piece.now) }
    {
        update_given(&mut self.given, piece);
        self.own.update(piece);
    }

    /// Returns the digest texts of the hashed bytes, as two digesters would.
    pub fn texts(&mut self, alloc: Global) -> Result<DigestTexts, AllocError>
        ensures { (a : _) (b : _) (m : List ℕ) → BothHold self.old a b m
            → IfOk result (λ texts. texts ≡ texts_of a b m) }
    {
        let own = self.own.finalize(alloc)?;
        let given = given_text(alloc, &mut self.given, &own)?;
        Ok(DigestTexts { given, own })
    }
}
