//! Laws of how large the queries are. Its functions do nothing: each has a law as its contract.
#![tactic(auto)]

pub mod laws;
