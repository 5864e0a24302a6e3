//! The ground terms of a universe by number, found by arithmetic: each symbol's applications stand in a
//! row in their sort's list.
#![tactic(auto)]

mod laws;
pub mod terms;

pub use laws::numbers_are_terms;
pub use terms::{Terms, place};
