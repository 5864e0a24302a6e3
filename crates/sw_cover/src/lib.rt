//! Laws of the classes of a template, for every signature that is declared rightly. Its functions do
//! nothing: each has a law as its contract.
#![tactic(auto)]

pub mod laws;
