//! What was printed reads back: laws of canonical text, on which no other crate stands.
#![tactic(auto)]

mod laws;

pub use laws::{formulas_read_back, protocols_read_back};
