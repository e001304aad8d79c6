//! Tests of the values, and of the tables that read and write members.
#![tactic(auto)]

#[cfg(test)]
mod members;
#[cfg(test)]
mod tables;
#[cfg(test)]
mod values;
#[cfg(test)]
mod writing;
