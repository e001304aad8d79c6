//! Properties of every run of the rows of streams, of lists, of `blob_exists`, and of a pull of blobs into sinks. This
//! crate has definitions and laws, and no code.
#![tactic(auto)]
