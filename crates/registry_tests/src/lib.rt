//! Tests of the calls that an index leads to, of lists and of `blob_exists`, of the references that the search takes,
//! of the keys of cached responses, and of the responses themselves.
#![tactic(auto)]

#[cfg(test)]
mod answers;
#[cfg(test)]
mod clients;
#[cfg(test)]
mod existence;
#[cfg(test)]
mod indexes;
#[cfg(test)]
mod keys;
#[cfg(test)]
mod lists;
#[cfg(test)]
mod references;
#[cfg(test)]
mod registry;
