//! What every run of the rows of the client's calls shows: whose answer an answer is, why a call was refused, and where
//! credentials go. It has laws alone.
#![tactic(auto)]
