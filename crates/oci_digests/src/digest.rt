ghost use Rattle.std.specs.Prelude.{◌≡◌, ◌↔◌, IsTrue, Some, None, IfOk, MatchResult};
ghost use Rattle.oci_digests.specs.Checks.{parts_of};
ghost use Rattle.oci_digests.specs.Printed.{printed};

use crate::error::DigestError;
use std::cmp::Ordering;
use std::fmt;

/// The parts of a digest text, around its first colon (OCI image specification, descriptor.md, "Digests").
#[derive(Clone, Copy, Debug)]
pub struct Digest<'a> {
    /// The text before the first colon.
    pub algorithm: &'a str,
    /// The text after it.
    pub digest: &'a str,
}

impl<'a> Digest<'a> {
    /// Splits a digest text. Returns `MissingAlgorithm` if it has no colon. The parts are printed as the text.
    pub fn new(digest: &'a str) -> Result<Digest<'a>, DigestError>
        ensures parts { MatchResult result
            (λ parts. parts_of digest.now ≡ Some (parts.algorithm.now, parts.digest.now))
            (λ e. (e ≡ DigestError.MissingAlgorithm) × (parts_of digest.now ≡ None)) }
        ensures back { IfOk result (λ parts. printed parts ≡ digest.now) }
    {
        match digest.split_once(':') {
            Some((algorithm, digest)) => Ok(Digest { algorithm, digest }),
            None => Err(DigestError::MissingAlgorithm),
        }
    }
}

impl fmt::Display for Digest<'_> {
    ghost use Rattle.std.specs.Prelude.{Some};
    ghost use Rattle.oci_digests.specs.Printed.{printed};

    ghost output = { λ parts. Some (printed parts) };

    fn fmt<W: fmt::Write>(&self, f: &mut fmt::Formatter<W>) -> fmt::Result {
        write!(f, "{}:{}", self.algorithm, self.digest)
    }
}

impl PartialEq for Digest<'_> {
    ghost use Rattle.std.specs.Cmp.{partial_equiv_from_equiv};
    ghost use Rattle.oci_digests.specs.Printed.{is_same, equal};

    ghost eq = { is_same };

    ghost laws = { partial_equiv_from_equiv equal };

    fn eq(&self, other: &Self) -> bool
        ensures value { result ≡ is_same self.now other.now }
        ensures same { IsTrue result ↔ ((self.now.algorithm.now ≡ other.now.algorithm.now)
            × (self.now.digest.now ≡ other.now.digest.now)) }
    {
        self.algorithm == other.algorithm && self.digest == other.digest
    }
}

impl Eq for Digest<'_> {
    ghost use Rattle.oci_digests.specs.Printed.{equal};

    ghost laws = { equal };
}

impl PartialOrd for Digest<'_> {
    ghost use Rattle.std.specs.Prelude.{Some};
    ghost use Rattle.std.proofs.Common.{rules};
    ghost use Rattle.std.specs.Cmp.Rules.{comparing};
    ghost use Rattle.std.specs.Cmp.{partial_order_from_own_ties};
    ghost use Rattle.oci_digests.specs.Printed.{order};

    ghost partial_cmp = { λ a b. Some (order a b) };

    ghost laws = { partial_order_from_own_ties (Prim.search (comparing, rules)) (Prim.search (comparing, rules)) };

    fn partial_cmp(&self, other: &Self) -> Option<Ordering> {
        Some(self.cmp(other))
    }
}

/// Digests are ordered by algorithm, then by digest, each by its bytes.
impl Ord for Digest<'_> {
    ghost use Rattle.std.proofs.Common.{rules};
    ghost use Rattle.std.specs.Cmp.Rules.{comparing};
    ghost use Rattle.oci_digests.specs.Printed.{order, ordered};

    ghost cmp = { order };

    ghost total = { ordered };

    ghost matches_partial_cmp = { Prim.search (comparing, rules) };

    ghost matches_eq = { Prim.search (comparing, rules) };

    fn cmp(&self, other: &Self) -> Ordering {
        self.algorithm
            .cmp(other.algorithm)
            .then(self.digest.cmp(other.digest))
    }
}
