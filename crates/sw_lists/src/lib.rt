//! Lemmas on lists, for the proofs of the crates above. It has no functions.
#![tactic(auto)]
