//! The queries of safety of a protocol that was read, ready to be decided.
#![tactic(auto)]

mod asking;

pub use asking::{read_stratified, safety_at_start, safety_step};
