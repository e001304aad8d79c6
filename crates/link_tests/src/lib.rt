//! Tests of transports, registries in memory, challenges, credentials and tokens.
#![tactic(auto)]

#[cfg(test)]
mod challenges;
#[cfg(test)]
mod guards;
#[cfg(test)]
mod headers;
#[cfg(test)]
mod scripts;
#[cfg(test)]
mod shelves;
#[cfg(test)]
mod tokens;
#[cfg(test)]
mod urls;
