//! Tests of the calls that push manifests, images and signatures.
#![tactic(auto)]

#[cfg(test)]
mod images;
#[cfg(test)]
mod layers;
#[cfg(test)]
mod manifests;
#[cfg(test)]
mod pushes;
#[cfg(test)]
mod registry;
