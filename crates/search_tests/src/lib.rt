//! Tests of signature layers, of the search for them, of the verified pull and of the check of its chain.
#![tactic(auto)]

#[cfg(test)]
mod builders;
#[cfg(test)]
mod causes;
#[cfg(test)]
mod documents;
#[cfg(test)]
mod layers;
#[cfg(test)]
mod pulls;
#[cfg(test)]
mod statements;
#[cfg(test)]
mod trusted;
#[cfg(test)]
mod written;
