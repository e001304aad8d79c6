//! Properties of all runs of the search and of the verified pull: the chain, the causes of refusals, where credentials
//! are sent, and the results over a registry in memory. Definitions and proofs only, no code.
#![tactic(auto)]
