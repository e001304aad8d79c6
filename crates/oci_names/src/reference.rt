ghost use Rattle.std.specs.Prelude.{◌≡◌, ◌++◌, Some, None, Ok, Err, IfOk, IfErr, OnOk, IsTrue, ◌↔◌, option_copied};
ghost use Rattle.oci_names.specs.Parts.{marked, parts_of};
ghost use Rattle.oci_names.specs.Reference.{reference_of};
ghost use Rattle.oci_names.specs.Refusals.{Refuses, OfGrammar};
ghost use Rattle.oci_names.specs.Words.{InGrammar};

use crate::parse_error::ParseError;
use crate::parts::{DOCKER_HUB, parts_of};
use json_values::{Copied, Text, copied, copy_all, row};
use std::alloc::{AllocError, Global};

/// A reference to an image: `registry/repository`, with a tag, a digest or both, and an optional mirror
/// that replaces the registry.
#[derive(Debug, Drop)]
pub struct Reference {
    registry: Text,
    mirror: Option<Text>,
    repository: Text,
    tag: Option<Text>,
    digest: Option<Text>,
}

fn optional_text(alloc: Global, text: Option<&str>) -> Result<Option<Text>, AllocError>
    ensures { IfOk result (λ t. t ≡ option_copied text.entry) }
{
    match text {
        Some(text) => Ok(Some(Text::new(alloc, text)?)),
        None => Ok(None),
    }
}

fn read(alloc: Global, text: &str) -> Result<Reference, ParseError>
    ensures ok { IfOk result (λ r. reference_of text.now ≡ Ok r) }
    ensures err { IfErr result (λ e. Refuses e (reference_of text.now)) }
{
    if text.is_empty() {
        return Err(ParseError::NameEmpty);
    }
    let parts = parts_of(text);
    if let Some(refusal) = parts.refusal() {
        return Err(refusal);
    }
    let registry = Text::new(alloc, parts.registry())?;
    let repository = parts.repository(alloc)?;
    let tag = optional_text(alloc, parts.tag())?;
    let digest = optional_text(alloc, parts.digest)?;
    Ok(Reference {
        registry,
        mirror: None,
        repository,
        tag,
        digest,
    })
}

impl Reference {
    ghost use Rattle.oci_names.specs.Reference.{registry_of, mirror_of, repository_of, tag_of, digest_of, whole_text};
    ghost use Rattle.oci_names.specs.Reference.{resolved_registry, namespace_of, is_read_as, reads_back};

    /// Parses `[domain/]path[:tag][@digest]` (OCI distribution specification, "Pulling manifests", for path, tag and
    /// digest). Without a domain the registry is `docker.io`, on which a path without a slash gets the prefix
    /// `library/`; without tag and digest the tag is `latest`.
    pub fn parse(alloc: Global, text: &str) -> Result<Reference, ParseError>
        ensures ok { IfOk result (λ r. reference_of text.now ≡ Ok r) }
        ensures err { IfErr result (λ e. Refuses e (reference_of text.now)) }
        ensures grammar { OfGrammar result (InGrammar (parts_of text.now)) }
    {
        read(alloc, text)
    }

    /// Builds a reference of these parts verbatim, in the grammar or not, without a mirror.
    pub fn with_tag(registry: Text, repository: Text, tag: Text) -> Reference
        ensures registry { registry_of result ≡ registry }
        ensures mirror { mirror_of result ≡ None }
        ensures repository { repository_of result ≡ repository }
        ensures tag { tag_of result ≡ Some tag }
        ensures digest { digest_of result ≡ None }
    {
        Reference {
            registry,
            mirror: None,
            repository,
            tag: Some(tag),
            digest: None,
        }
    }

    /// Builds a reference of these parts verbatim, in the grammar or not, without a mirror.
    pub fn with_digest(registry: Text, repository: Text, digest: Text) -> Reference
        ensures registry { registry_of result ≡ registry }
        ensures mirror { mirror_of result ≡ None }
        ensures repository { repository_of result ≡ repository }
        ensures tag { tag_of result ≡ None }
        ensures digest { digest_of result ≡ Some digest }
    {
        Reference {
            registry,
            mirror: None,
            repository,
            tag: None,
            digest: Some(digest),
        }
    }

    /// Copies registry, mirror and repository, with this digest replacing tag and digest.
    pub fn clone_with_digest(&self, alloc: Global, digest: Text) -> Result<Reference, AllocError>
        ensures registry { IfOk result (λ r. registry_of r ≡ registry_of self.now) }
        ensures mirror { IfOk result (λ r. mirror_of r ≡ mirror_of self.now) }
        ensures repository { IfOk result (λ r. repository_of r ≡ repository_of self.now) }
        ensures tag { IfOk result (λ r. tag_of r ≡ None) }
        ensures digest { IfOk result (λ r. digest_of r ≡ Some digest) }
    {
        let row!(registry, mirror, repository) = copy_all(
            alloc,
            row!(&self.registry, &self.mirror, &self.repository),
        )?;
        Ok(Reference {
            registry,
            mirror,
            repository,
            tag: None,
            digest: Some(digest),
        })
    }

    /// Sets a mirror, which replaces the reference's registry in requests.
    pub fn set_mirror_registry(&mut self, registry: Text)
        ensures registry { registry_of self.new ≡ registry_of self.old }
        ensures mirror { mirror_of self.new ≡ Some registry }
        ensures repository { repository_of self.new ≡ repository_of self.old }
        ensures tag { tag_of self.new ≡ tag_of self.old }
        ensures digest { digest_of self.new ≡ digest_of self.old }
    {
        self.mirror = Some(registry);
    }

    /// Returns the registry's host, with its port if one is named, as the reference names them.
    pub fn registry(&self) -> &str
        ensures { result.now ≡ registry_of self.now }
    {
        self.registry.as_str()
    }

    /// Returns the registry that receives requests: the mirror if set, and for `docker.io` the host that serves it.
    pub fn resolve_registry(&self) -> &str
        ensures { result.now ≡ resolved_registry self.now }
    {
        match &self.mirror {
            Some(mirror) => mirror.as_str(),
            None if self.registry.as_str() == DOCKER_HUB => "index.docker.io",
            None => self.registry.as_str(),
        }
    }

    /// Returns the repository within the registry, for example `library/busybox`.
    pub fn repository(&self) -> &str
        ensures { result.now ≡ repository_of self.now }
    {
        self.repository.as_str()
    }

    /// Returns the tag, if there is one.
    pub fn tag(&self) -> Option<&str>
        ensures { option_copied result ≡ tag_of self.now }
    {
        self.tag.as_ref().map(|tag| tag.as_str())
    }

    /// Returns the digest, if there is one.
    pub fn digest(&self) -> Option<&str>
        ensures { option_copied result ≡ digest_of self.now }
    {
        self.digest.as_ref().map(|digest| digest.as_str())
    }

    /// Returns the registry for which the mirror is asked, if there is a mirror.
    pub fn namespace(&self) -> Option<&str>
        ensures { option_copied result ≡ namespace_of self.now }
    {
        match self.mirror {
            Some(_) => Some(self.registry()),
            None => None,
        }
    }

    /// Returns `registry/repository`, then `:tag` and `@digest` if present. The mirror is omitted.
    pub fn whole(&self, alloc: Global) -> Result<Text, AllocError>
        ensures { IfOk result (λ t. t ≡ whole_text self.now) }
    {
        let mut whole = Text::new(alloc, self.registry())?;
        whole.push_str("/")?;
        whole.push_str(self.repository())?;
        push_marked(&mut whole, ":", self.tag())?;
        push_marked(&mut whole, "@", self.digest())?;
        Ok(whole)
    }

    /// Returns whether this text parses to this reference.
    fn is_read_from(&self, alloc: Global, text: &str) -> Result<bool, AllocError>
        ensures { IfOk result (λ b. b ≡ is_read_as self.now (reference_of text.now)) }
    {
        match Reference::parse(alloc, text) {
            Ok(read) => Ok(read == *self),
            Err(ParseError::WantOfMemory) => Err(AllocError),
            Err(ParseError::NameEmpty) => Ok(false),
            Err(ParseError::ReferenceInvalidFormat) => Ok(false),
            Err(ParseError::NameTooLong) => Ok(false),
            Err(ParseError::DigestUnsupported) => Ok(false),
            Err(ParseError::DigestInvalidLength) => Ok(false),
        }
    }

    /// Returns whether no mirror is set and the reference's text parses to the same four parts.
    pub fn reads_back(&self, alloc: Global) -> Result<bool, AllocError>
        ensures value { IfOk result (λ b. b ≡ reads_back self.now) }
        ensures same { IfOk result (λ b.
            IsTrue b ↔ (reference_of (whole_text self.now) ≡ Ok self.now)) }
    {
        let whole = self.whole(alloc)?;
        let is_same = self.is_read_from(alloc, whole.as_str())?;
        Ok(is_same)
    }
}

/// Appends a mark and a part, if the part is present.
fn push_marked(whole: &mut Text, mark: &str, part: Option<&str>) -> Result<(), AllocError>
    ensures { OnOk result (whole.new ≡ whole.old ++ marked mark.now (option_copied part.entry)) }
{
    if let Some(part) = part {
        whole.push_str(mark)?;
        whole.push_str(part)?;
    }
    Ok(())
}

impl Copied for Reference {
    fn copy(&self, alloc: Global) -> Result<Reference, AllocError> {
        copied!(
            alloc,
            self,
            Reference {
                registry,
                mirror,
                repository,
                tag,
                digest
            }
        )
    }
}

/// References are equal if all fields are equal, including the mirror.
impl PartialEq for Reference {
    ghost use Rattle.std.specs.Cmp.{partial_equiv_from_equiv};
    ghost use Rattle.oci_names.specs.Reference.{is_same};
    ghost use Rattle.oci_names.specs.Equalities.{references};

    ghost eq = { is_same };

    ghost laws = { partial_equiv_from_equiv references };

    fn eq(&self, other: &Reference) -> bool
        ensures value { result ≡ is_same self.now other.now }
        ensures same { IsTrue result ↔ (self.now ≡ other.now) }
    {
        self.registry == other.registry
            && self.mirror == other.mirror
            && self.repository == other.repository
            && self.tag == other.tag
            && self.digest == other.digest
    }
}

impl Eq for Reference {
    ghost use Rattle.oci_names.specs.Equalities.{references};

    ghost laws = { references };
}
