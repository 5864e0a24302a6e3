//! What a search asks of a space: its classes, part by part.
#![tactic(auto)]

pub mod walk;

pub use walk::Walk;
