//! Examination of a class that is to join: its start query and its join queries in order, and the
//! first answer that decides.
#![tactic(auto)]

pub mod asking;
pub mod joining;
pub mod stepping;

pub use joining::{JoinExamined, examine_join};
