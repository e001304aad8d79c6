//! Tests of references, digests, manifests, indexes, errors, listings, configuration files and points in time.
#![tactic(auto)]

#[cfg(test)]
mod configuration;
#[cfg(test)]
mod digests;
#[cfg(test)]
mod manifests;
#[cfg(test)]
mod names;
#[cfg(test)]
mod times;
