// References without a mirror.
ghost use Rattle.std.specs.Prelude.{◌≡◌, ◌↔◌, IsTrue, IfOk, IfErr, option_copied, None, Some, Ok};
ghost use Rattle.oci_names.specs.Reference.{registry_of, repository_of, tag_of, digest_of};
ghost use Rattle.oci_names.specs.Reference.{mirror_of, resolved_registry, whole_text};
ghost use Rattle.oci_names.specs.Reference.{reference_of};

use crate::error::SigstoreError;
use json_values::{Copied, Text};
use oci_names::{ParseError, Reference};
use std::alloc::{AllocError, Global};
use std::fmt;

/// A reference that has no mirror.
#[derive(Debug, Drop)]
pub struct OciReference {
    inner: Reference,
    ghost direct: { mirror_of inner ≡ None },
}

impl OciReference {
    ghost use Rattle.registry_calls.specs.Direct.{reference_in, NotRead};

    /// Parses a reference as `Reference::parse` does. `OciReferenceNotValidError` holds the text if it is invalid.
    pub fn parse(alloc: Global, text: &str) -> Result<OciReference, SigstoreError>
        ensures ok { IfOk result (λ r. reference_of text.now ≡ Ok (reference_in r)) }
        ensures err { IfErr result (λ e. NotRead text.now e) }
    {
        match Reference::parse(alloc, text) {
            Ok(inner) => Ok(OciReference { inner }),
            Err(ParseError::WantOfMemory) => Err(SigstoreError::WantOfMemory),
            Err(_) => {
                let reference = Text::new(alloc, text)?;
                Err(SigstoreError::OciReferenceNotValidError { reference })
            }
        }
    }

    pub fn with_tag(registry: Text, repository: Text, tag: Text) -> OciReference
        ensures registry { registry_of (reference_in result) ≡ registry }
        ensures mirror { mirror_of (reference_in result) ≡ None }
        ensures repository { repository_of (reference_in result) ≡ repository }
        ensures tag { tag_of (reference_in result) ≡ Some tag }
        ensures digest { digest_of (reference_in result) ≡ None }
    {
        let inner = Reference::with_tag(registry, repository, tag);
        OciReference { inner }
    }

    pub fn with_digest(registry: Text, repository: Text, digest: Text) -> OciReference
        ensures registry { registry_of (reference_in result) ≡ registry }
        ensures mirror { mirror_of (reference_in result) ≡ None }
        ensures repository { repository_of (reference_in result) ≡ repository }
        ensures tag { tag_of (reference_in result) ≡ None }
        ensures digest { digest_of (reference_in result) ≡ Some digest }
    {
        let inner = Reference::with_digest(registry, repository, digest);
        OciReference { inner }
    }

    pub fn registry(&self) -> &str
        ensures { result.now ≡ registry_of (reference_in self.now) }
    {
        self.inner.registry()
    }

    /// Returns the host that requests are sent to: `index.docker.io` for `docker.io`, otherwise the registry.
    pub fn resolve_registry(&self) -> &str
        ensures { result.now ≡ resolved_registry (reference_in self.now) }
    {
        self.inner.resolve_registry()
    }

    pub fn repository(&self) -> &str
        ensures { result.now ≡ repository_of (reference_in self.now) }
    {
        self.inner.repository()
    }

    pub fn tag(&self) -> Option<&str>
        ensures { option_copied result ≡ tag_of (reference_in self.now) }
    {
        self.inner.tag()
    }

    pub fn digest(&self) -> Option<&str>
        ensures { option_copied result ≡ digest_of (reference_in self.now) }
    {
        self.inner.digest()
    }

    /// Returns `registry/repository`, followed by `:tag` and `@digest` if present.
    pub fn whole(&self, alloc: Global) -> Result<Text, AllocError>
        ensures { IfOk result (λ t. t ≡ whole_text (reference_in self.now)) }
    {
        self.inner.whole(alloc)
    }

    pub fn reference(&self) -> &Reference
        ensures inner { result.now ≡ reference_in self.now }
        ensures direct { mirror_of result.now ≡ None }
    {
        &self.inner
    }
}

impl Copied for OciReference {
    fn copy(&self, alloc: Global) -> Result<OciReference, AllocError> {
        let inner = self.inner.copy(alloc)?;
        Ok(OciReference { inner })
    }
}

/// Equal if the references are equal.
impl PartialEq for OciReference {
    ghost use Rattle.std.specs.Cmp.{partial_equiv_from_equiv};
    ghost use Rattle.registry_calls.specs.Direct.{reference_in, is_same_reference, references};

    ghost eq = { is_same_reference };

    ghost laws = { partial_equiv_from_equiv references };

    fn eq(&self, other: &OciReference) -> bool
        ensures value { result ≡ is_same_reference self.now other.now }
        ensures same { IsTrue result ↔ (reference_in self.now ≡ reference_in other.now) }
    {
        self.inner == other.inner
    }
}

impl Eq for OciReference {
    ghost use Rattle.registry_calls.specs.Direct.{references};

    ghost laws = { references };
}

// A part of a reference after its separator, if present.
#[derive(Drop)]
struct Marked<'a> {
    mark: &'a str,
    part: Option<&'a str>,
}

impl fmt::Display for Marked<'_> {
    ghost use Rattle.std.specs.Prelude.{Some, option_copied};
    ghost use Rattle.oci_names.specs.Parts.{marked};

    ghost output = { λ m. Some (marked m.mark.now (option_copied m.part)) };

    fn fmt<W: fmt::Write>(&self, f: &mut fmt::Formatter<W>) -> fmt::Result {
        match self.part {
            Some(part) => write!(f, "{}{}", self.mark, part),
            None => Ok(()),
        }
    }
}

/// Writes `registry/repository`, followed by `:tag` and `@digest` if present.
impl fmt::Display for OciReference {
    ghost use Rattle.std.specs.Prelude.{Some};
    ghost use Rattle.registry_calls.specs.Direct.{reference_in};

    ghost output = { λ r. Some (whole_text (reference_in r)) };

    fn fmt<W: fmt::Write>(&self, f: &mut fmt::Formatter<W>) -> fmt::Result {
        let tag = Marked {
            mark: ":",
            part: self.tag(),
        };
        let digest = Marked {
            mark: "@",
            part: self.digest(),
        };
        write!(
            f,
            "{}/{}{}{}",
            self.registry(),
            self.repository(),
            tag,
            digest
        )
    }
}
