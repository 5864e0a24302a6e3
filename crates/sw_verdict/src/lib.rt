//! The word on safety under a list, by decision: for every protocol.
#![tactic(auto)]

pub mod judging;
pub mod laws;

pub use judging::{Judged, SafetyQuery, judge_safety};
