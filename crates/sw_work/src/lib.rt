//! Breadth: what one worker does in one round.
#![tactic(auto)]

pub mod bench;
pub mod considering;
pub mod drawing;
pub mod errors;
pub mod implied;
pub mod passing;
pub mod working;

pub use errors::BreadthError;
pub use working::{Worked, work};
