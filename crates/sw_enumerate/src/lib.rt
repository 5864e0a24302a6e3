//! The classes of a template's space, one after the other.
#![tactic(auto)]

mod bodies;
mod errors;
mod picked;
mod space;
mod tally;
mod walk;

pub use errors::SpaceError;
pub use space::Space;
