//! The constraint on the statements of bundles.
ghost use Rattle.std.specs.Prelude.{◌≡◌, IfOk};
ghost use Rattle.std.specs.List.{list_any};
ghost use Rattle.cosign_layers.specs.Statement.{has_predicate, is_predicate};

use crate::constraint::VerificationConstraint;
use cosign_parts::{LayerKind, SignatureLayer, predicate_type};
use json_values::{Copied, List, Text};
use std::alloc::{AllocError, Global};
use std::marker::Model;

/// Accepts each payload layer, and each bundle layer that signs an in-toto statement with one of these types of
/// predicates. A contract sees the list of these types.
#[derive(Drop)]
pub struct StatementVerifier {
    alloc: Global,
    predicate_types: List<Text>,
}

impl Model for StatementVerifier {
    ghost use Rattle.std.specs.Prelude.{ℕ, List};

    ghost Value = { List (List ℕ) };

    ghost view = { λ verifier. verifier.predicate_types };
}

impl StatementVerifier {
    pub fn new(alloc: Global, predicate_types: List<Text>) -> StatementVerifier
        ensures { result ≡ predicate_types }
    {
        StatementVerifier {
            alloc,
            predicate_types,
        }
    }
}

impl VerificationConstraint for StatementVerifier {
    ghost use Rattle.cosign_layers.specs.Statement.{has_statement};

    ghost accepts = { λ types layer. has_statement types layer.kind layer.content };

    fn verify(&self, layer: &SignatureLayer) -> Result<bool, AllocError> {
        match layer.kind {
            LayerKind::Payload => Ok(true),
            LayerKind::Bundle => {
                let found = predicate_type(self.alloc, layer.content.as_slice())?;
                Ok(has_predicate(self.predicate_types.as_slice(), &found))
            }
        }
    }
}

// Whether there is a type, and it is one of these.
fn has_predicate(types: &[Text], found: &Option<Text>) -> bool
    ensures { result ≡ has_predicate types.now found.now }
{
    match found {
        None => false,
        Some(found) => is_one_of(types, found.as_str()),
    }
}

fn is_one_of(types: &[Text], found: &str) -> bool
    ensures { result ≡ list_any (is_predicate found.now) types.now }
{
    types.iter().any(|known| is_predicate(known, found))
}

fn is_predicate(known: &Text, found: &str) -> bool
    ensures { result ≡ is_predicate found.now known.now }
{
    known.as_str() == found
}

impl Copied for StatementVerifier {
    fn copy(&self, alloc: Global) -> Result<StatementVerifier, AllocError> {
        Ok(StatementVerifier {
            alloc,
            predicate_types: self.predicate_types.copy(alloc)?,
        })
    }
}
