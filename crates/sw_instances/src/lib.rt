//! Instances of a Skolem set and of equality over its ground terms: what their clauses are, what they
//! mean, and the list of them all.
#![tactic(auto)]

pub mod instances;
mod laws;

pub use instances::{GroundError, all_instances};
pub use laws::{
    count_is_length, ground_is_well_formed, instances_hold, unsatisfiable_leaves_no_model,
};
