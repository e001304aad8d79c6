//! Which layers a policy accepts.
ghost use Rattle.std.specs.Prelude.{◌≡◌, ℕ, List, Bool, IfOk};
ghost use Rattle.std.specs.List.{list_all};
ghost use Rattle.serde_json.specs.View.{view};
ghost use Rattle.cosign_layers.specs.Constraint.{accepts as accepts_by, has_text_member};
ghost use Rattle.cosign_parts.specs.declared.layer.SignatureLayer.{SignatureLayer};

use crate::statement::StatementVerifier;
use crate::subject::{CertSubjectEmailVerifier, CertSubjectUrlVerifier};
use cosign_parts::SignatureLayer;
use json_values::{Annotations, Copied, Text};
use serde_json::Value;
use std::alloc::{AllocError, Global};

/// Accepts some layers.
pub trait VerificationConstraint: Drop {
    /// Whether it accepts the layer.
    ghost accepts: { Self → SignatureLayer → Bool };

    fn verify(&self, layer: &SignatureLayer) -> Result<bool, AllocError>
        ensures { IfOk result (λ b. b ≡ accepts self.now layer.now) };
}

/// Accepts a payload whose `optional` has each of these pairs as a string member. Accepts a layer without a payload
/// only if there are no pairs.
#[derive(Drop)]
pub struct AnnotationVerifier {
    pub annotations: Annotations,
}

/// A constraint of a policy. It accepts what the value that it holds accepts.
#[derive(Drop)]
pub enum Constraint {
    Annotations(AnnotationVerifier),
    Email(CertSubjectEmailVerifier),
    Url(CertSubjectUrlVerifier),
    Statements(StatementVerifier),
    /// A custom constraint, supplied by the caller.
    Own(Box<dyn VerificationConstraint>),
}

impl Constraint {
    pub fn verify(&self, layer: &SignatureLayer) -> Result<bool, AllocError>
        ensures { IfOk result (λ b. b ≡ accepts_by accepts self.now layer.now) }
    {
        match self {
            Constraint::Annotations(annotations) => annotations.verify(layer),
            Constraint::Email(email) => email.verify(layer),
            Constraint::Url(url) => url.verify(layer),
            Constraint::Statements(statements) => statements.verify(layer),
            Constraint::Own(own) => own.verify(layer),
        }
    }
}

impl VerificationConstraint for AnnotationVerifier {
    ghost use Rattle.cosign_layers.specs.Constraint.{has_annotations};

    ghost accepts = { λ verifier layer. has_annotations verifier.annotations layer.simple_signing };

    fn verify(&self, layer: &SignatureLayer) -> Result<bool, AllocError> {
        let Some(signing) = &layer.simple_signing else {
            return Ok(self.annotations.entries().is_empty());
        };
        Ok(has_text_members(signing.optional.value(), self.annotations.entries()))
    }
}

// Whether the value has a member with its string for each of these names.
fn has_text_members(value: &Value, pairs: &[(Text, Text)]) -> bool
    ensures { result ≡ list_all (has_text_member (view value.now)) pairs.now }
{
    pairs.iter().all(|pair| has_text_member(value, pair.0.as_str(), pair.1.as_str()))
}

// Whether the value has a member of this name with this string.
fn has_text_member(value: &Value, name: &str, text: &str) -> bool
    ensures { result ≡ has_text_member (view value.now) (name.now, text.now) }
{
    let Some(member) = value.get(name) else {
        return false;
    };
    let Some(found) = member.as_str() else {
        return false;
    };
    found == text
}

impl Copied for AnnotationVerifier {
    fn copy(&self, alloc: Global) -> Result<AnnotationVerifier, AllocError> {
        Ok(AnnotationVerifier {
            annotations: self.annotations.copy(alloc)?,
        })
    }
}
