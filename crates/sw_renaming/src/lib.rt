//! The formulas of a step, in a signature that has both of its states.
#![tactic(auto)]

mod copies;
pub mod renaming;

pub use copies::{
    constants_for, copy_signature, copy_sorts, copy_symbols, push_formulas, symbols_of,
};
pub use renaming::{Moment, Renaming};
