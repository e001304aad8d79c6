//! What every run of a request, of the token step, of a document and of a blob shows: whose answer an answer is, why it
//! was refused, and where credentials go. It has laws alone.
#![tactic(auto)]
