//! Properties of every run of the rows of pushes: where credentials and tokens go, why a push was refused, and that an
//! image's manifest comes last. This crate has laws and no code but a function that does nothing.
#![tactic(auto)]

mod order;

pub use order::manifests_come_last;
