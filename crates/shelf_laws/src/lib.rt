//! The results of the rows of the client's calls over a registry in memory: which shelves have an image, and that a
//! client that requests it from such a shelf gets it. Contains only definitions and laws.
#![tactic(auto)]
