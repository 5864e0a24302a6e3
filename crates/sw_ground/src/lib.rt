//! The clauses of instances of a Skolem set and of equality, and the check of refutations over them.
#![tactic(auto)]

mod builder;
pub mod check;
mod clauses;
mod laws;
mod numbering;
mod table;

pub use check::{RefutationVerdict, check_refutation};
pub use clauses::clauses_of;
pub use laws::accepted_leaves_no_structure;
pub use sw_instances::{GroundError, all_instances};
pub use sw_truth::{Atom, Ground, Instance, Refutation};
