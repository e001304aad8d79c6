//! Policies for pulls.
use crate::constraint::Constraint;
use json_values::{Blob, List};

/// Under which keys an image must be signed, and which constraints its signature layer must satisfy.
#[derive(Drop)]
pub struct PullPolicy {
    pub keys: List<Blob>,
    pub constraints: List<Constraint>,
}
