//! The quotient of ground terms by their equality under an assignment.
#![tactic(auto)]

mod building;
mod laws;
mod reading;

pub use building::structure_of;
pub use laws::{clauses_mean, quotient_agrees, quotient_exists, quotient_is_model};
