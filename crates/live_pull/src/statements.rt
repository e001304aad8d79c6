// Which statements bundles may sign.
ghost use Rattle.std.specs.Prelude.{◌≡◌, None, IfOk};
ghost use Rattle.recorded_case.specs.Members.{unless_absent};
ghost use Rattle.live_pull.specs.Settings.{statements_of, with_statements};

use cosign_layers::StatementVerifier;
use json_tables::{Member, ReadError, Reads};
use json_values::{List, Text};
use recorded_case::WrittenConstraint;
use serde_json::Value;
use std::alloc::{AllocError, Global};
use std::marker::Model;

/// Types of predicates, if the member is present. A contract sees the list of them.
#[derive(Drop)]
pub(crate) struct StatementTypes {
    pub types: Option<List<Text>>,
}

impl Model for StatementTypes {
    ghost use Rattle.std.specs.Prelude.{ℕ, List, Option};

    ghost Value = { Option (List (List ℕ)) };

    ghost view = { λ statements. statements.types };
}

impl Member for StatementTypes {
    ghost found = { unless_absent None statements_of };

    fn read_member(alloc: Global, member: Option<&Value>) -> Result<StatementTypes, ReadError> {
        match member {
            None => Ok(StatementTypes { types: None }),
            Some(value) => {
                let types = Reads::read_value(alloc, value)?;
                Ok(StatementTypes { types: Some(types) })
            }
        }
    }
}

/// Appends the constraint on statements, if there is one.
pub(crate) fn with_statements(
    alloc: Global,
    constraints: List<WrittenConstraint>,
    types: Option<List<Text>>,
) -> Result<List<WrittenConstraint>, AllocError>
    ensures { IfOk result (λ all. all ≡ with_statements constraints types) }
{
    let mut constraints = constraints;
    match types {
        None => Ok(constraints),
        Some(types) => {
            let statements = StatementVerifier::new(alloc, types);
            constraints.push(WrittenConstraint::Statements(statements))?;
            Ok(constraints)
        }
    }
}
