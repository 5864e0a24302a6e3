//! A solver for sets of clauses that learns from conflicts, whose every answer is shown: an
//! assignment, or steps that a check accepts.
#![tactic(auto)]

mod analyze;
mod literals;
mod occurrences;
mod propagate;
mod solved;
mod solver;
mod trail;

pub use solved::Solved;
pub use solver::solve;
