//! Tests of keys, signers and the envelope of private keys, and of the calls to Rekor and Fulcio.
#![tactic(auto)]

#[cfg(test)]
mod authority;
#[cfg(test)]
mod envelopes;
#[cfg(test)]
mod log;
#[cfg(test)]
mod makers;
#[cfg(test)]
mod models;
#[cfg(test)]
mod pairs;
#[cfg(test)]
mod recorded;
#[cfg(test)]
mod signers;
