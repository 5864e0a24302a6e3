//! The record of a round, from what its workers hand back: a filter that one worker published and others
//! used stands in it once.
#![tactic(auto)]

pub mod gathering;
mod keeping;
mod merging;

pub use gathering::gather;
