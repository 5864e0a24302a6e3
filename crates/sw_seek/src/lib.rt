//! The finisher: what one worker does that looks for a class that joins.
#![tactic(auto)]

mod considering;
mod drawing;
pub mod errors;
mod passing;
pub mod seeking;

pub use errors::FinishError;
pub use seeking::{Sought, seek};
