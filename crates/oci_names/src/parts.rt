// How the text of a reference is split, and which parts make a reference.
ghost use Rattle.std.specs.Prelude.{◌≡◌, ◌++◌, IfOk, nat_lt, codes, length, option_copied};
ghost use Rattle.std.specs.List.{list_any};
ghost use Rattle.oci_names.specs.Parts as meaning;
ghost use Rattle.oci_names.specs.Seen.{seen};

use crate::algorithm::Algorithm;
use crate::grammar::{cut, is_digest, is_domain, is_path, is_tag};
use crate::parse_error::ParseError;
use json_values::Text;
use std::alloc::{AllocError, Global};

/// The registry of references that name none.
pub const DOCKER_HUB: &str = "docker.io";

/// The parts of a text.
#[derive(Clone, Copy)]
pub struct Parts<'a> {
    pub domain: &'a str,
    pub path: &'a str,
    pub tag: Option<&'a str>,
    pub digest: Option<&'a str>,
}

fn has_domain_mark(front: &str) -> bool
    ensures { result ≡ list_any meaning.is_domain_mark front.now }
{
    front.bytes().any(|b| b == b'.' || b == b':')
}

fn is_domain_part(front: &str) -> bool
    ensures { result ≡ meaning.is_domain_part front.now }
{
    has_domain_mark(front) || front == "localhost"
}

/// Splits off the domain.
fn split_domain(text: &str) -> (&str, &str)
    ensures domain { result.0.now ≡ meaning.domain_in text.now }
    ensures rest { result.1.now ≡ meaning.rest_in text.now }
{
    let (front, rest) = cut(text, '/');
    match rest {
        Some(rest) if is_domain_part(front) => (front, rest),
        _ => (DOCKER_HUB, text),
    }
}

/// Splits a text into parts, in the grammar or not.
pub fn parts_of(text: &str) -> Parts<'_>
    ensures { seen result ≡ meaning.parts_of text.now }
{
    let (domain, rest) = split_domain(text);
    let (name, digest) = cut(rest, '@');
    let (path, tag) = cut(name, ':');
    Parts {
        domain,
        path,
        tag,
        digest,
    }
}

fn has_slash(path: &str) -> bool
    ensures { result ≡ list_any meaning.is_slash path.now }
{
    path.bytes().any(|b| b == b'/')
}

/// Returns the registry that a domain names.
fn registry_named(domain: &str) -> &str
    ensures { result.now ≡ meaning.registry_named domain.now }
{
    if domain == "index.docker.io" {
        DOCKER_HUB
    } else {
        domain
    }
}

/// Returns the prefix of the path in the repository's name.
fn library_for(registry: &str, path: &str) -> &'static str
    ensures { result.now ≡ meaning.library_for registry.now path.now }
{
    if registry == DOCKER_HUB && !has_slash(path) {
        "library/"
    } else {
        ""
    }
}

fn digest_refusal(digest: &str) -> Option<ParseError>
    ensures { result ≡ meaning.digest_refusal digest.now }
{
    let (algorithm, digits) = cut(digest, ':');
    let Some(algorithm) = Algorithm::named(algorithm) else {
        return Some(ParseError::DigestUnsupported);
    };
    if digits.unwrap_or("").len() == algorithm.digits() {
        None
    } else {
        Some(ParseError::DigestInvalidLength)
    }
}

impl<'a> Parts<'a> {
    ghost use Rattle.oci_names.specs.Seen.{seen};

    fn is_grammatical(&self) -> bool
        ensures { result ≡ meaning.is_grammatical (seen self.now) }
    {
        is_domain(self.domain)
            && is_path(self.path)
            && match self.tag {
                Some(tag) => is_tag(tag),
                None => true,
            }
            && match self.digest {
                Some(digest) => is_digest(digest),
                None => true,
            }
    }

    /// Returns why the parts are refused, the first cause first.
    pub fn refusal(&self) -> Option<ParseError>
        ensures { result ≡ meaning.refusal_of (seen self.now) }
    {
        if !self.is_grammatical() {
            return Some(ParseError::ReferenceInvalidFormat);
        }
        let library = library_for(registry_named(self.domain), self.path);
        if library.len() + self.path.len() > 255 {
            return Some(ParseError::NameTooLong);
        }
        match self.digest {
            Some(digest) => digest_refusal(digest),
            None => None,
        }
    }

    /// Returns the registry that the domain names.
    pub fn registry(&self) -> &str
        ensures { result.now ≡ meaning.registry_named (seen self.now).domain }
    {
        registry_named(self.domain)
    }

    /// Returns the path, with an implied `library/`.
    pub fn repository(&self, alloc: Global) -> Result<Text, AllocError>
        ensures { IfOk result (λ t. t ≡ meaning.repository_named (seen self.now)) }
    {
        let library = library_for(registry_named(self.domain), self.path);
        let mut repository = Text::new(alloc, library)?;
        repository.push_str(self.path)?;
        Ok(repository)
    }

    /// Returns the tag, which is `latest` if there is neither a tag nor a digest.
    pub fn tag(&self) -> Option<&str>
        ensures { option_copied result ≡ meaning.tag_named (seen self.now) }
    {
        if self.tag.is_none() && self.digest.is_none() {
            Some("latest")
        } else {
            self.tag
        }
    }
}
