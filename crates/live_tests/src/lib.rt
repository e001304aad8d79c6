//! Tests of frames and of the transport over them.
#![tactic(auto)]

#[cfg(test)]
mod conversations;
#[cfg(test)]
mod frames;
