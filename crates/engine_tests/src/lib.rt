//! Tests of the calls that users make of the engine's client, and of blobs that are given piece by piece.
#![tactic(auto)]

#[cfg(test)]
mod calls;
#[cfg(test)]
mod clients;
#[cfg(test)]
mod pushes;
#[cfg(test)]
mod recorded;
#[cfg(test)]
mod referrers;
#[cfg(test)]
mod streams;
#[cfg(test)]
mod unread;
