//! Tests of canonical texts: of whole values, and of the formatter event by event.
#![tactic(auto)]

#[cfg(test)]
mod canonical;
#[cfg(test)]
mod events;
#[cfg(test)]
mod plain;
#[cfg(test)]
mod shared;
