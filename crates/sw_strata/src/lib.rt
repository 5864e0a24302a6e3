//! Strata of sorts: edges of functions and quantifiers, and ranks that rise along them.
#![tactic(auto)]

mod edges;
mod laws;
pub mod ranks;
mod reaching;

pub use laws::edges_are_within;
pub use ranks::{StrataError, strata};
