//! The queries of a protocol: each asks for a structure that is a counterexample.
#![tactic(auto)]

mod queries;
mod splitting;

pub use queries::{follow_query, join_query, safety_start_query, start_query, step_query};
pub use splitting::split_step;
