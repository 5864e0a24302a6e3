//! Sets of clauses, and the check of steps that derive further clauses from them. The check calls no
//! solver: whoever made the steps is not trusted.
#![tactic(auto)]

pub mod check;
pub mod clauses;
pub mod laws;
mod trail;

pub use check::{StepsVerdict, check_steps};
pub use clauses::{Clause, Cnf, Derived, Lit};
