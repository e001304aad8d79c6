// The policy of a case.
ghost use Rattle.std.specs.Prelude.{◌≡◌, IfOk};
ghost use Rattle.recorded_case.specs.Policy.{constraint_by, constraints_by};

use crate::constraint::WrittenConstraint;
use cosign_layers::Constraint;
use json_values::{Copied, List};
use std::alloc::{AllocError, Global};

/// Returns the constraints that are written in the case, in order.
pub fn constraints_from(
    alloc: Global,
    written: &[WrittenConstraint],
) -> Result<List<Constraint>, AllocError>
    ensures { IfOk result (λ constraints. constraints ≡ constraints_by written.now) }
{
    let mut constraints = List::new(alloc);
    for constraint in written {
        constraints.push(constraint_from(alloc, constraint)?)?;
    }
    Ok(constraints)
}

// The constraint that is written in the case.
fn constraint_from(alloc: Global, written: &WrittenConstraint) -> Result<Constraint, AllocError>
    ensures { IfOk result (λ constraint. constraint ≡ constraint_by written.now) }
{
    match written {
        WrittenConstraint::Annotations(asked) => Ok(Constraint::Annotations(asked.copy(alloc)?)),
        WrittenConstraint::Email(asked) => Ok(Constraint::Email(asked.copy(alloc)?)),
        WrittenConstraint::Url(asked) => Ok(Constraint::Url(asked.copy(alloc)?)),
        WrittenConstraint::Statements(asked) => Ok(Constraint::Statements(asked.copy(alloc)?)),
    }
}
