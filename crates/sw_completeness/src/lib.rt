//! The law that a protocol within the limits has its report.
#![tactic(auto)]

pub mod laws;
