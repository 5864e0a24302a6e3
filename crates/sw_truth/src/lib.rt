//! Queries in Skolem form and what is made of them: the types that several crates share, and lemmas
//! on the truth of formulas in structures.
#![tactic(auto)]

pub mod instances;
pub mod limits;
pub mod sets;
pub mod terms;

pub use instances::{Atom, Ground, Instance, Refutation};
pub use limits::{MOST_INSTANCES, MOST_LISTED, MOST_TERMS};
pub use sets::{Piece, SkolemSet};
pub use terms::{has, occurs};
