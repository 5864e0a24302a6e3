//! Names in the order in which they were added, and the first place of each by look-up.
#![tactic(auto)]

mod places;
mod tables;

pub use tables::Table;
