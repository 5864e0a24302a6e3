//! The finisher: workers that look for a class that joins, and the record where none does.
#![tactic(auto)]

mod finding;
pub mod finishing;
mod joining;

pub use finishing::{Finished, finish};
