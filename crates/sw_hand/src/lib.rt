//! What a worker has in hand in a round: the filters that it kept and those that it found in the
//! pool, with which it sifts classes.
#![tactic(auto)]

pub mod hand;

pub use hand::{Hand, Handed, Task};
