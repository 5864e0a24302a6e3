//! The decision of queries: whether some finite structure satisfies one, by the instances of its
//! Skolem form over its ground terms.
#![tactic(auto)]

mod deciding;
pub mod decision;

pub use deciding::decide;
pub use decision::Decision;
