// Constraints of a policy as written in a case.
ghost use Rattle.std.specs.Prelude.{codes, option_map};
ghost use Rattle.serde_json.specs.View.{view};
ghost use Rattle.json_tables.specs.Outcomes.{ReadsTo};
ghost use Rattle.json_tables.specs.Reading.{text_of};
ghost use Rattle.json_tables.specs.Member.{required};
ghost use Rattle.recorded_case.specs.Constraint.{annotations_of, email_of, subject_of, url_of};
ghost use Rattle.recorded_case.specs.Members.{null_or};

use crate::entries::Entry;
use cosign_layers::{
    AnnotationVerifier, CertSubjectEmailVerifier, CertSubjectUrlVerifier, StatementVerifier,
};
use json_tables::{ReadError, Reads, only, required};
use json_values::{Copied, Text};
use serde_json::Value;
use std::alloc::{AllocError, Global};

/// A constraint of a policy, as it is written.
#[derive(Drop)]
pub enum WrittenConstraint {
    /// `{"annotations": {name: text}}`
    Annotations(AnnotationVerifier),
    /// `{"email": text, "issuer": text or null}`
    Email(CertSubjectEmailVerifier),
    /// `{"url": text, "issuer": text}`
    Url(CertSubjectUrlVerifier),
    /// Which statements a bundle may sign: a member of a live pull's settings, and of no case.
    Statements(StatementVerifier),
}

impl Entry for WrittenConstraint {
    ghost use Rattle.recorded_case.specs.Constraint.{constraint_of};

    ghost entry = { constraint_of };

    #[tactic(auto, unfolding(crate::specs::Constraint::constraint_of))]
    fn read_entry(alloc: Global, value: &Value) -> Result<WrittenConstraint, ReadError> {
        match read_annotations(alloc, value) {
            Ok(asked) => Ok(WrittenConstraint::Annotations(asked)),
            Err(ReadError::Shape) => {
                let constraint = read_subject(alloc, value)?;
                Ok(constraint)
            }
            Err(error) => Err(error),
        }
    }
}

// A constraint on a certificate's subject.
fn read_subject(alloc: Global, value: &Value) -> Result<WrittenConstraint, ReadError>
    ensures { ReadsTo result (subject_of (view value.now)) }
{
    match read_email(alloc, value) {
        Ok(asked) => Ok(WrittenConstraint::Email(asked)),
        Err(ReadError::Shape) => {
            let asked = read_url(alloc, value)?;
            Ok(WrittenConstraint::Url(asked))
        }
        Err(error) => Err(error),
    }
}

#[tactic(auto, unfolding(crate::specs::Constraint::annotations_of))]
fn read_annotations(alloc: Global, value: &Value) -> Result<AnnotationVerifier, ReadError>
    ensures { ReadsTo result (annotations_of (view value.now)) }
{
    only(value, &["annotations"])?;
    let annotations = required(alloc, value, "annotations")?;
    Ok(AnnotationVerifier { annotations })
}

#[tactic(auto, unfolding(crate::specs::Constraint::email_of))]
fn read_email(alloc: Global, value: &Value) -> Result<CertSubjectEmailVerifier, ReadError>
    ensures { ReadsTo result (email_of (view value.now)) }
{
    only(value, &["email", "issuer"])?;
    let email: Text = required(alloc, value, "email")?;
    let issuer = read_issuer(alloc, value)?;
    Ok(CertSubjectEmailVerifier { email, issuer })
}

#[tactic(auto, unfolding(crate::specs::Constraint::url_of))]
fn read_url(alloc: Global, value: &Value) -> Result<CertSubjectUrlVerifier, ReadError>
    ensures { ReadsTo result (url_of (view value.now)) }
{
    only(value, &["url", "issuer"])?;
    let url: Text = required(alloc, value, "url")?;
    let issuer: Text = required(alloc, value, "issuer")?;
    Ok(CertSubjectUrlVerifier { url, issuer })
}

// The issuer; null accepts every issuer.
fn read_issuer(alloc: Global, value: &Value) -> Result<Option<Text>, ReadError>
    ensures { ReadsTo result (required (null_or text_of) (codes "issuer") (view value.now)) }
{
    match value.get("issuer") {
        None => Err(ReadError::Shape),
        Some(Value::Null) => Ok(None),
        Some(issuer) => Ok(Some(Reads::read_value(alloc, issuer)?)),
    }
}

impl Copied for WrittenConstraint {
    fn copy(&self, alloc: Global) -> Result<WrittenConstraint, AllocError> {
        Ok(match self {
            WrittenConstraint::Annotations(asked) => WrittenConstraint::Annotations(asked.copy(
                alloc,
            )?),
            WrittenConstraint::Email(asked) => WrittenConstraint::Email(asked.copy(alloc)?),
            WrittenConstraint::Url(asked) => WrittenConstraint::Url(asked.copy(alloc)?),
            WrittenConstraint::Statements(asked) => WrittenConstraint::Statements(asked.copy(
                alloc,
            )?),
        })
    }
}
