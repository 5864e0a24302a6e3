//! Breadth: rounds of workers on a shared log, and the record of what they did.
#![tactic(auto)]

mod joining;
mod living;
pub mod rounds;
mod sharing;
mod working;

pub use rounds::breadth;
